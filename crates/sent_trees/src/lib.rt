// The tree that a walk sends, and the structure block without the nodes that it leaves out: definitions and theorems only.
#![tactic(auto)]
