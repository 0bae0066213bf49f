// Document 01 as definitions (specs/) and the theorems about them (proofs/): what a detector has to do. There is no code here.
#![tactic(auto)]
