#![tactic(auto)]

// Theory only: no function stands here.
//
// The meaning: what a receiver has been told, and what it owes for it, in the words of 01 and over lists alone. specs/Told has the
// history, what is spoken and answered, and what is said to one more symbol; specs/Piece what a caller hands over; specs/Owed what a
// piece and a finish owe. The machine below the doors is proved to pay it, and the demands speak of nothing else.
