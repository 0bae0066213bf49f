// The exported calls side by side: what one of them accepts the others read (proofs/). There is no code here.
#![tactic(auto)]
