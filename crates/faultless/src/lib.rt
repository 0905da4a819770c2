// That a walk of a tree that passes the check never answers -1: definitions in specs, the theorems in proofs, and no code.
#![tactic(auto)]
