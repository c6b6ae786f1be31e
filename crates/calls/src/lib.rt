#![tactic(auto)]

// Theory only: no function stands here.
//
// What anything that speaks and answers writes over any list of calls, whichever of them refuse. specs/Calls.antt says what each
// call does; proofs/Theorems.antt says what follows: the words written so far are exactly those that are final, they begin the
// answer for what was heard followed by anything, and joined with a finish that succeeds they are the answer whole.
