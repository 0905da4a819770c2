// No code: what holds after any list of calls is stated in specs/ and proved in proofs/.
#![tactic(auto)]
