// That other calls between leave a walk at the table as it is: definitions in specs, the theorem in proofs, and no code.
#![tactic(auto)]
