// The sheet of a panel, and what holds of reading it: definitions (specs/) and theorems (proofs/), no code.

#![tactic(auto)]
