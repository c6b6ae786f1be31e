// A replay in the words that a caller lends: whether words hold one, which one, and how a replay goes into them. Where each part stands is
// said in `table`, which number stands for which part of a replay in `numbers`. Words that are too short, have another tag, or a number above
// its limit, hold none: a replay that has ended, and one of an older layout, too.
#![tactic(auto)]

pub mod numbers;
pub mod table;

ghost use Rattle.std.specs.Prelude.{◌≡◌, true, ◌+◌, ◌≤◌, length, take, drop};
ghost use Rattle.c_replay_state.specs.Table.{replay_length, due_at, Small};
ghost use Rattle.replay.specs.Course.{replay_of};
ghost use Rattle.c_replay_state.specs.Words.{holds_replay, course_in, ListsPut, CourseStored};

use replay::Replay;

#[tactic(auto, unfolding(crate::specs::Words::holds_replay))]
pub fn holds_replay(words: &[u64]) -> bool
    ensures { result ≡ holds_replay words.now }
{
    words.len() >= table::WORDS
        && words[table::TAG] == table::REPLAY
        && table::fits(&words[table::NUMBERS..table::SUMS], &table::LIMITS)
        && table::fits(&words[table::DUE..table::WORDS], &[u64::from(u32::MAX); 65])
}

// The replay that the words hold.
#[tactic(auto, using(crate::proofs::WordsBack::holds_long))]
pub fn load(words: &[u64]) -> Replay
    requires { holds_replay words.now ≡ true }
    ensures { replay_of result ≡ course_in words.now }
{
    let mut numbers = [0; 28];
    let mut halves = [0; 8];
    let mut registers = [0; 48];
    let mut picks = [0; 72];
    let mut due = [0; 65];
    numbers.copy_from_slice(&words[table::NUMBERS..table::SUMS]);
    halves.copy_from_slice(&words[table::SUMS..table::REGISTERS]);
    registers.copy_from_slice(&words[table::REGISTERS..table::PICKS]);
    picks.copy_from_slice(&words[table::PICKS..table::DUE]);
    table::narrow(&words[table::DUE..table::WORDS], &mut due);
    Replay {
        frame: numbers::frame_of(numbers),
        judge: numbers::judge_of(numbers),
        sums: c_layout::unpack(halves),
        registers,
        picks,
        due,
    }
}

// The receiver's lists, one behind the other.
fn put_lists(sums: [u32; 16], registers: [u64; 48], picks: [u64; 72], words: &mut [u64])
    requires { due_at ≤ length words.old }
    ensures { ListsPut sums registers picks words.old words.new }
{
    words[table::SUMS..table::REGISTERS].copy_from_slice(&c_layout::pack(sums));
    words[table::REGISTERS..table::PICKS].copy_from_slice(&registers);
    words[table::PICKS..table::DUE].copy_from_slice(&picks);
}

// Puts a replay into its words.
pub fn store(r: Replay, words: &mut [u64])
    requires { replay_length ≤ length words.old }
    ensures { CourseStored (replay_of r) words.old words.new }
{
    words[table::TAG] = table::REPLAY;
    words[table::NUMBERS..table::SUMS].copy_from_slice(&numbers::numbers_of(r.frame, r.judge));
    put_lists(r.sums, r.registers, r.picks, words);
    table::widen(&r.due, &mut words[table::DUE..table::WORDS]);
}
