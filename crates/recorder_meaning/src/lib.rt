#![tactic(auto)]

// Theory only: what the recorder writes replays as `agree`, of its doors and of the library's calls, in specs/ and proofs/. There is no
// function here.
