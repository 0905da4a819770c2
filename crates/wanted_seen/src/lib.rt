// No code: what a partition sees of a connector that is wanted back is stated in specs/ and proved in proofs/.
#![tactic(auto)]
