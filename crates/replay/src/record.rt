// One record of a capture, replayed: the receiver is run on it, and its judge (`replay_judge`) says what has been found.
//
// The receiver's lists and the words that are due are lent: nothing of them is copied for a symbol or a word. They stand apart from one another,
// and in no struct, since `take` promises `took` for a list of due words of any length.
ghost use Rattle.std.specs.Prelude.{◌≡◌};
ghost use Rattle.records.specs.Kinds.{kind_of};
ghost use Rattle.records.specs.Values.{coordinates_of, mark_in, entry};
ghost use Rattle.replay_judge.specs.Judging.{state_of, heard, finished, by_role, took};
ghost use Rattle.replay.specs.Lent.{Laid, OpensLent};

use machine::Receiver;
use points::Accord;
use reasons::Why;
use records::Role;
use replay_judge::{Judge, Verdict};

// The receiver's lists, anew; a refusal leaves them.
fn lay(
    why: Result<(), Why>,
    rx: Receiver,
    sums: &mut [u32; 16],
    registers: &mut [u64; 48],
    picks: &mut [u64; 72],
)
    ensures { Laid why rx sums.old registers.old picks.old sums.new registers.new picks.new }
{
    if why.is_err() {
        return;
    }
    let Receiver {
        sums: s,
        registers: r,
        picks: p,
        ..
    } = rx;
    *sums = s;
    *registers = r;
    *picks = p;
}

// An open of the kind k.
fn take_open(
    j: Judge,
    k: u8,
    body: [u8; 9],
    sums: &mut [u32; 16],
    registers: &mut [u64; 48],
    picks: &mut [u64; 72],
) -> Judge
    ensures { OpensLent j k body sums.old registers.old picks.old result sums.new registers.new picks.new }
{
    let accord = Accord {
        map: records::map_in(k),
        u: u32::from(body[0]),
    };
    let start = openings::start_at(u32::from(body[2]));
    let o = openings::open_receiver(accord, u32::from(body[1]), start);
    let rx = o.receiver;
    lay(o.why, rx, sums, registers, picks);
    replay_judge::answer(j, o.why, rx.live, rx.core, 0)
}

// A symbol's coordinates.
fn piece_of(k: u8, body: [u8; 9]) -> [i32; 4]
    ensures { result ≡ coordinates_of k body }
{
    let i = records::lead(k);
    [
        records::coordinate(body[i], body[i + 1]),
        records::coordinate(body[i + 2], body[i + 3]),
        records::coordinate(body[i + 4], body[i + 5]),
        records::coordinate(body[i + 6], body[i + 7]),
    ]
}

// A symbol's mark: 0, nothing missing, where its record has none.
fn mark_of(k: u8, body: [u8; 9]) -> u8
    ensures { result ≡ mark_in k body }
{
    if k == 5 { body[0] } else { 0 }
}

// A symbol, where no word is due.
fn take_symbol(
    j: Judge,
    k: u8,
    body: [u8; 9],
    sums: &mut [u32; 16],
    registers: &mut [u64; 48],
    picks: &mut [u64; 72],
    due: &mut [u32],
) -> Judge
    ensures { state_of result sums.new registers.new picks.new due.new
        ≡ heard (state_of j sums.old registers.old picks.old due.old) k body }
{
    if let Some(h) = replay_judge::next_due(j, due) {
        return replay_judge::rule(j, Verdict::Missing(j.records, h));
    }
    let piece = piece_of(k, body);
    let mark = mark_of(k, body);
    let h = receiver::hear_piece_lent(
        j.live,
        j.core,
        Some(&[mark]),
        &piece,
        sums,
        registers,
        picks,
        due,
    );
    replay_judge::answer(j, h.why, j.live, h.core, h.written)
}

// A finish, where no word is due.
fn take_finish(
    j: Judge,
    sums: &mut [u32; 16],
    registers: &mut [u64; 48],
    picks: &mut [u64; 72],
    due: &mut [u32],
) -> Judge
    ensures { state_of result sums.new registers.new picks.new due.new
        ≡ finished (state_of j sums.old registers.old picks.old due.old) }
{
    if let Some(h) = replay_judge::next_due(j, due) {
        return replay_judge::rule(j, Verdict::Missing(j.records, h));
    }
    let rx = Receiver {
        live: j.live,
        core: j.core,
        sums: *sums,
        registers: *registers,
        picks: *picks,
    };
    let a = receiver::finish(rx, due);
    let closed = a.receiver;
    lay(a.why, closed, sums, registers, picks);
    replay_judge::answer(j, a.why, closed.live, closed.core, a.written)
}

// A record of the kind k, where `words` words have agreed before it.
fn take_kind(
    j: Judge,
    words: u64,
    k: u8,
    body: [u8; 9],
    sums: &mut [u32; 16],
    registers: &mut [u64; 48],
    picks: &mut [u64; 72],
    due: &mut [u32],
) -> Judge
    ensures { state_of result sums.new registers.new picks.new due.new
        ≡ by_role (kind_of k).role (state_of j sums.old registers.old picks.old due.old) words k body }
{
    match records::kind_of(k).role {
        Role::Open => take_open(j, k, body, sums, registers, picks),
        Role::Symbol => take_symbol(j, k, body, sums, registers, picks, due),
        Role::Word => {
            let g = records::number(body[0], body[1], body[2], body[3]);
            replay_judge::take_word(j, words, g, due)
        }
        Role::Finish => take_finish(j, sums, registers, picks, due),
        Role::Unknown => j,
    }
}

// A record of the kind k. After a fault nothing is looked at.
pub fn take(
    j: Judge,
    k: u8,
    body: [u8; 9],
    sums: &mut [u32; 16],
    registers: &mut [u64; 48],
    picks: &mut [u64; 72],
    due: &mut [u32],
) -> Judge
    ensures { state_of result sums.new registers.new picks.new due.new
        ≡ took (state_of j sums.old registers.old picks.old due.old) (entry k body) }
{
    match j.verdict {
        Verdict::Agree(words) => take_kind(j, words, k, body, sums, registers, picks, due),
        _ => j,
    }
}
