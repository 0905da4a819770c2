// No code: that the two conversions of memory lists undo each other, and that grouping is shortest, is stated in specs/ and proved in proofs/.
#![tactic(auto)]
