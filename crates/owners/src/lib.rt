// Vectors of several owners in one block: document 02, "Shares for several gauges", as definitions (specs/), and that each owner's answers are
// those of a list of its own (proofs/). There is no code here.
#![tactic(auto)]
