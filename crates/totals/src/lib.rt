// The totals call: network charges by tariff.
#![tactic(auto)]

pub mod totals;
