#![tactic(auto)]

// What `compare` tells is the comparison of 02, Wish 12. There is no code here: the theorems stand in proofs/. They are a crate of their own, so that an edit of
// `compare` costs a check of its functions alone.
