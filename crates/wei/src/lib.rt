// Wei's 16-state 4D code: words and their parts, the encoder's states, labels and the turn.
//
// A word is taken apart by `word::unpack`; `label::turn_on` moves the turn q on by its I2 and I3; `label::labels` gives
// the labels of the two points from q, the parity Y0 and I1; `state::next` gives the state after it. A receiver goes the
// other way: `state::before_state` gives the four states that lead to a state, `state::subset_between` says which 4D subset a step uses,
// `label::turn_since` takes the turns' difference and `word::pack` makes the word. Every function here is a leaf: numbers in, numbers
// out, and a contract that names one definition of specs/.
#![tactic(auto)]

pub mod label;
pub mod state;
pub mod word;
