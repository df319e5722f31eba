// What a list of calls means is stated and proved in `specs/` and `proofs/`; no code is needed for it.
#![tactic(auto)]
