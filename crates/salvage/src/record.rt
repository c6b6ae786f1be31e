// One record of a damaged capture: an old word is set against the word that belongs there, and on any other record the receiver is run. What is
// kept and what is counted stands in specs/Taking; that it is the salvage of 02 is shown in proofs/Meant.
//
// The judge of a replay (`replay_judge`) holds the receiver's numbers, the words that belong after the last record kept and how many of them an
// old word stood against. Once the receiver has refused a record its verdict says so, and nothing more is looked at.
ghost use Rattle.std.specs.Prelude.{◌≡◌, cond, ◌+◌, length};
ghost use Rattle.records.specs.Kinds.{kind_of};
ghost use Rattle.records.specs.Values.{entry};
ghost use Rattle.records.specs.Frames.{capped};
ghost use Rattle.replay_judge.specs.Judging.{left, state_of};
ghost use Rattle.salvage_meaning.specs.Salvage.{is_word_role};
ghost use Rattle.salvage.specs.Taking.{waiting_for, unless_same, moved_on, set_against, minded_of, ran, minded};

use records::Role;
use replay_judge::{Judge, Verdict};

// The words changed so far, and how many bytes the records kept have.
#[derive(Clone, Copy)]
pub struct Tally {
    pub replaced: u64,
    pub added: u64,
    pub removed: u64,
    pub kept: u64,
}

// After a record: the judge, the counts, and whether the record is to be written, with the words that belong there. The judge and the counts are
// there whether it is or not.
#[derive(Clone, Copy)]
pub struct Outcome {
    pub judge: Judge,
    pub tally: Tally,
    pub writes: bool,
}

// How many of the words that belong there have no old word against them.
pub fn missed(j: Judge, due: &[u32]) -> usize
    ensures { result ≡ length (left j.shown j.given due.now) }
{
    j.given.min(due.len()).saturating_sub(j.shown)
}

// A judge to which no word is due, before its first record.
fn waiting(j: Judge) -> Judge
    ensures { result ≡ waiting_for j }
{
    Judge {
        given: 0,
        shown: 0,
        records: 0,
        verdict: Verdict::Agree(0),
        ..j
    }
}

// The judge with so many words that an old one stood against. An old word is never written.
fn moved_on(j: Judge, shown: usize, tally: Tally) -> Outcome
    ensures { result ≡ moved_on j shown tally }
{
    Outcome {
        judge: Judge { shown, ..j },
        tally,
        writes: false,
    }
}

fn is_word(role: Role) -> bool
    ensures { result ≡ is_word_role role }
{
    matches!(role, Role::Word)
}

// One more, unless both words are the same.
fn unless_same(g: u32, h: u32, n: u64) -> u64
    ensures { result ≡ unless_same g h n }
{
    if g == h { n } else { records::counted(n) }
}

// The old word g.
#[tactic(auto, unfolding(replay_judge::specs::Judging::first_due, crate::specs::Taking::set_against))]
fn take_word(j: Judge, t: Tally, g: u32, due: &[u32]) -> Outcome
    ensures { result ≡ set_against j t g (left j.shown j.given due.now) }
{
    let t = Tally {
        kept: record_fill::fed_on(t.kept, 5),
        ..t
    };
    let Some(h) = replay_judge::next_due(j, due) else {
        let tally = Tally {
            removed: records::counted(t.removed),
            ..t
        };
        return moved_on(j, j.shown, tally);
    };
    let tally = Tally {
        replaced: unless_same(g, h, t.replaced),
        ..t
    };
    moved_on(j, j.shown + 1, tally)
}

// A record of the kind k more is kept, if it is taken.
fn more_kept(kept: u64, k: u8, taken: bool) -> u64
    ensures { result ≡ cond taken (capped (kept + (1 + (kind_of k).size))) kept }
{
    if !taken {
        return kept;
    }
    record_fill::fed_on(kept, 1 + records::kind_of(k).size)
}

// The receiver is run on a record that is no word.
fn run(
    j: Judge,
    t: Tally,
    k: u8,
    body: [u8; 9],
    sums: &mut [u32; 16],
    registers: &mut [u64; 48],
    picks: &mut [u64; 72],
    due: &mut [u32],
) -> Outcome
    ensures { minded_of result sums.new registers.new picks.new due.new
        ≡ ran (state_of j sums.old registers.old picks.old due.old) t (entry k body) }
{
    let added = record_fill::fed_on(t.added, missed(j, due));
    let judge = replay::record::take(waiting(j), k, body, sums, registers, picks, due);
    let writes = replay::is_agreed(judge.verdict);
    Outcome {
        judge,
        tally: Tally {
            added,
            kept: more_kept(t.kept, k, writes),
            ..t
        },
        writes,
    }
}

// A record of the kind k.
#[tactic(auto, unfolding(crate::specs::Taking::minded, crate::specs::Taking::set_against))]
pub fn take(
    j: Judge,
    t: Tally,
    k: u8,
    body: [u8; 9],
    sums: &mut [u32; 16],
    registers: &mut [u64; 48],
    picks: &mut [u64; 72],
    due: &mut [u32],
) -> Outcome
    ensures { minded_of result sums.new registers.new picks.new due.new
        ≡ minded (state_of j sums.old registers.old picks.old due.old) t (entry k body) }
{
    if !replay::is_agreed(j.verdict) {
        return Outcome {
            judge: j,
            tally: t,
            writes: false,
        };
    }
    if is_word(records::kind_of(k).role) {
        let g = records::number(body[0], body[1], body[2], body[3]);
        return take_word(j, t, g, due);
    }
    run(j, t, k, body, sums, registers, picks, due)
}
