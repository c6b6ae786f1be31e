#![tactic(auto)]

// Theory only: no function stands here.
//
// What a dropout costs. specs/ has a line that loses points, the rule after a dropout, and which bits of a word a dropout spoils (`spoiled`);
// proofs/ has the theorem on any run of calls (Dropouts) and of the library's calls (Library), lines that break the rule and lose more
// (Needed), and a line that keeps it and fills every window (Window).
