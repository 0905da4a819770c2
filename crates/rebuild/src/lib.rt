// That a new reader rebuilds the tree from a walk's replies: definitions in specs, the theorem in proofs, and no code.
#![tactic(auto)]
