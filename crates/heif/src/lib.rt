// The definition of the file, box by box, in specs/, and the laws of each box in proofs/. There is no code here.

#![tactic(auto)]
