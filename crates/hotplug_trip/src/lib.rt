// No code: that the reader and the writer of hot-plug event sections undo each other is stated in specs/ and proved in proofs/.
#![tactic(auto)]
