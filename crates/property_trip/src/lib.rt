// No code: that the reader gives back what the writer of array properties lists is stated in specs/ and proved in proofs/.
#![tactic(auto)]
