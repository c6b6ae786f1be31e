#![tactic(auto)]

// Theory only: no function stands here.
//
// A quarter turn of all that is heard: the words after a finish stay, if no second symbol sequence is equally near (02, Wish 10). specs/
// has what is turned and what that condition says. A turn is a symmetry of the code, of both maps and of the distance, and four turns are
// none: all the rest follows from that.
