#![tactic(auto)]

// Theory only: no function stands here.
//
// The machine at work on inputs that are named: rows that are computed, and histories of any number of symbols; short lines, computed from
// the meaning alone. The promises cite these cases, so that they need not look into the machine themselves.
