// When two trees are the same: definitions in specs, that this is equality in proofs, and no code.
#![tactic(auto)]
