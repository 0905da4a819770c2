// No code: that all calls of update-nodes together, each read by the reader, give every change once is stated in specs/ and proved in proofs/.
#![tactic(auto)]
