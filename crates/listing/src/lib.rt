// Whole lists of calls in one call, and a whole half hour.
#![tactic(auto)]

pub mod half_hour;
pub mod list;
