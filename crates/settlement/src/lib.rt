// What users link: every call under its name for C.
#![tactic(auto)]

pub mod exports;
