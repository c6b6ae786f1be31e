#![tactic(auto)]

// Theory only: no function stands here.
//
// What a line is guaranteed whose noise has a bound. specs/ has the guarantee (Guarantee) and the number that it comes from (Latest); proofs/
// has the theorem for every noise and window (NoSix), its table (Instances), and the same of the library's calls (Library).
