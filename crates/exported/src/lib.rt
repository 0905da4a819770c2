// No code: what the exported functions leave, call by call, is stated in specs/ and proved in proofs/.
#![tactic(auto)]
