#![tactic(auto)]

// Theory only: no function stands here.
//
// A trellis code, its allowed sequences and their order; the best sequence into each state, the answer for a list, the
// longest common beginning and why it is final; and what a machine has to keep so that it finds them.
//
// specs/ has first what must be believed: Code, Order and Best say what a code is, which sequences it allows, which of two
// is before the other, and what is meant by the best sequence, the answer and the longest common beginning. Then how these
// are found: Search and Common by recursion along the list; Cells and Invariant as a machine does it, from sums
// and the pending symbols of each state alone; Speak for the words. proofs/Theorems.antt is the summary, T1 to T4 in the order of time, and
// proofs/Invariant.antt has the four laws that tie a machine to it.
//
// Wei's code stands on it, with the rules of `wei` and the points of `points`. To be believed: Measure says what the code is
// for any way to measure received symbols, Allowed which symbols a start allows, IvEight what 000's IV-8 says, Words which
// words symbols have, Clean what a clean line is. Pick and Said say how it is found. proofs/WeiTheorems.antt is the summary,
// T1 to T6 for the measure of two points at every width; proofs/Line.antt has demand 3 over any list of calls.
