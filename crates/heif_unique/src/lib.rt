// The theorem that one file is one panel, in proofs/. There is no code here.

#![tactic(auto)]
