// What the program `settle` prints, put behind the text that waits: refusals, a line out of form, and the outcome of the
// allocation.
#![tactic(auto)]

pub mod lent;
pub mod lines;
