// No code: document 01's starred desk cards are in specs/, and the claim that they hold is proved in proofs/.
#![tactic(auto)]
