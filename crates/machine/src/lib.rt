// The receiver as a record, and the words of its pending symbols. `Receiver` is the whole state of the receiving end; what a symbol does to
// it is a pure function of specs/Machine, which the crate `one_symbol` computes, and what that means is proved here. `write_words` gives
// words of the answer, for a symbol that releases some and for the end of a line, on lent arrays.
#![tactic(auto)]

ghost use Rattle.std.specs.Prelude.{◌≡◌, ◌++◌, ◌≤◌, ◌<◌, length, take, drop};
ghost use Rattle.trellis.specs.Speak.{after};
ghost use Rattle.trellis.specs.Words.{words_from, turn_after};
ghost use Rattle.machine.specs.Machine.{way_from};
ghost use Rattle.machine.specs.Parts.{CoreFits};

use points::Accord;

// The part of the receiver that is a handful of numbers.
#[derive(Clone, Copy)]
pub struct Core {
    pub accord: Accord,
    pub window: usize,
    pub turn: u32,
    pub slot: usize,
    pub pending: usize,
}

// The receiver: what each state keeps of its sum, three registers of each state, and what was picked of the pending symbols.
// `live` is a flag and no Option around the rest: a closed receiver is a record like any other (`shut`), and so it stands in the words of C.
// Inside, its numbers go by value and its lists are lent one by one: nothing is copied for a symbol, and C's words hold the picks.
#[derive(Clone, Copy)]
pub struct Receiver {
    pub live: bool,
    pub core: Core,
    pub sums: [u32; 16],
    pub registers: [u64; 48],
    pub picks: [u64; 72],
}

// The words of the first n pending symbols on the way into the state s, at the front of `out`. Gives the turn after them.
pub fn write_words(
    core: Core,
    registers: &[u64; 48],
    picks: &[u64],
    s: usize,
    n: usize,
    out: &mut [u32],
) -> u32
    requires { CoreFits core × (s < 16) × (n ≤ core.pending) × (n ≤ length out.old) × (length picks.now ≡ 72) }
    ensures value { result ≡ after turn_after core.turn (take n (way_from core registers.now picks.now s)) }
    ensures out_after { out.new ≡ words_from core.accord.u core.turn (take n (way_from core registers.now picks.now s)) ++ drop n out.old }
{
    let oldest = core.slot + 64 - core.pending;
    let mut turn = core.turn;
    for j in 0..n {
        let age = core.pending - 1 - j;
        let k = registers::subset_at(registers, s, age);
        let said = picks::word_in(core.accord.u, turn, picks, (oldest + j) % 64, age, k);
        out[j] = said.word;
        turn = said.turn;
    }
    turn
}
