// The pruned walk of one vector over whole numbers, as code makes it (specs/), and why it gives the model's answer (proofs/). There is no
// code here.
#![tactic(auto)]
