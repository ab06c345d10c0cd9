// The length of a panel's file as a sum of shares, one for each part that a panel may have. There is no code here.

#![tactic(auto)]
