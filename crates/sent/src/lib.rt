// Which tokens of a walk are sent, and what is found where a node's properties are looked at ahead: definitions in specs, their laws in proofs, and no code.
#![tactic(auto)]
