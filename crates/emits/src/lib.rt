// That a walk replies with the events of the tree, one by one: definitions in specs, the theorem in proofs, and no code.
#![tactic(auto)]
