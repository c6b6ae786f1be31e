#![tactic(auto)]

// Theory only: the three demands as theorems over the two ends, in specs/ and proofs/. There is no function here.
