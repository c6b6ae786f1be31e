// The salvage of a damaged capture, in constant memory: bytes as they come in, what is salvaged of them out. specs/Working says what the code
// does; proofs/Meant that this is what 02's Wish 13 asks for (salvage_meaning/specs/Salvage), however the bytes are cut into lumps.
//
// `start` is a salvage before any byte. `feed` takes bytes and puts the records that are kept into a lent page, each with the words that belong
// there; `end` tells what was changed. Once a place is malformed or a record refused (`replay::found`) nothing more is kept, and later bytes
// need not be fed: it is enough to count them.
#![tactic(auto)]

pub mod record;

ghost use Rattle.std.specs.Prelude.{◌≡◌, ◌∷◌, [], ◌+◌, ◌-◌, ◌≤◌, length};
ghost use Rattle.records.specs.Values.{bytes_of};
ghost use Rattle.records.specs.Frames.{entry_of};
ghost use Rattle.page.specs.Page.{Puts};
ghost use Rattle.replay_judge.specs.Judging.{state_of};
ghost use Rattle.replay.specs.Course.{is_whole};
ghost use Rattle.salvage.specs.Taking.{minded_of};
ghost use Rattle.salvage.specs.Working.{settled, held_of, standing, Feeds, end_of, salvage_at, fresh_salvage};

use crate::record::{Outcome, Tally};
use records::Frame;
use replay::Replay;
use replay_judge::Judge;

// A replay of the records that are kept, without their words: what is due in it are the words that belong after the last of them. And the counts.
#[derive(Clone, Copy)]
pub struct Salvage {
    pub replay: Replay,
    pub tally: Tally,
}

// After some bytes: how many they were, and how far the page is filled.
#[derive(Clone, Copy)]
pub struct Fed {
    pub salvage: Salvage,
    pub used: usize,
    pub size: usize,
}

// The same where the lists are lent.
#[derive(Clone, Copy)]
struct Lent {
    frame: Frame,
    judge: Judge,
    tally: Tally,
    used: usize,
    size: usize,
}

// "words replaced, words added, words removed, bytes cut from the end".
#[derive(Clone, Copy)]
pub struct Changes {
    pub replaced: u64,
    pub added: u64,
    pub removed: u64,
    pub cut: u64,
}

pub fn start() -> Salvage
    ensures { result ≡ fresh_salvage }
{
    Salvage {
        replay: replay::start(),
        tally: Tally {
            replaced: 0,
            added: 0,
            removed: 0,
            kept: 0,
        },
    }
}

// The frame's record is taken if it has just become whole.
#[tactic(auto, unfolding(crate::specs::Working::settled))]
fn settle(
    frame: Frame,
    j: Judge,
    t: Tally,
    sums: &mut [u32; 16],
    registers: &mut [u64; 48],
    picks: &mut [u64; 72],
    due: &mut [u32],
) -> Outcome
    ensures { minded_of result sums.new registers.new picks.new due.new
        ≡ settled (is_whole frame.stage) (state_of j sums.old registers.old picks.old due.old) t (entry_of frame) }
{
    if !replay::is_whole(frame.stage) {
        return Outcome {
            judge: j,
            tally: t,
            writes: false,
        };
    }
    record::take(j, t, frame.kind, frame.body, sums, registers, picks, due)
}

// The bytes of a frame's record.
fn put_own(frame: Frame, page: &mut [u8], at: usize) -> usize
    requires { at + 10 ≤ length page.old }
    ensures puts { Puts page.old at (bytes_of (entry_of frame ∷ [])) result page.new }
    ensures upper_bound { result ≤ at + 10 }
{
    let kind = records::kind_of(frame.kind);
    let p = page::put_byte(page, at, frame.kind);
    page::put_text(page, p, &frame.body[..kind.size])
}

// What stands to be written, if anything does: the frame's record, and the words that belong there.
fn put(writes: bool, frame: Frame, given: usize, due: &[u32], page: &mut [u8], at: usize) -> usize
    requires { (length due.now ≡ 65) × (at + 335 ≤ length page.old) }
    ensures puts { Puts page.old at (bytes_of (standing writes frame given due.now)) result page.new }
    ensures upper_bound { result ≤ length page.old }
{
    if !writes {
        return at;
    }
    let p = put_own(frame, page, at);
    let n = given.min(due.len());
    record_write::put_words(&due[..n], &mut page[p..]);
    p + 5 * n
}

// Bytes, as long as the page has room for any record and its words: 335 bytes.
fn feed_lent(
    frame: Frame,
    judge: Judge,
    tally: Tally,
    bytes: &[u8],
    sums: &mut [u32; 16],
    registers: &mut [u64; 48],
    picks: &mut [u64; 72],
    due: &mut [u32],
    page: &mut [u8],
) -> Lent
    requires { length due.old ≡ 65 }
    ensures { Feeds (held_of frame judge tally sums.old registers.old picks.old due.old) bytes.now page.old
        (held_of result.frame result.judge result.tally sums.new registers.new picks.new due.new) result.used result.size page.new }
{
    let mut frame = frame;
    let mut judge = judge;
    let mut tally = tally;
    let mut used = 0;
    let mut size = 0;
    // A round takes as many bytes as the frame does, so there is no step for a `for`.
    while used < bytes.len() && 335 <= page.len() - size {
        let m = record_fill::advance(frame, bytes, used);
        frame = m.frame;
        let turn = settle(frame, judge, tally, sums, registers, picks, due);
        judge = turn.judge;
        tally = turn.tally;
        size = put(turn.writes, frame, judge.given, due, page, size);
        used += m.count;
    }
    Lent {
        frame,
        judge,
        tally,
        used,
        size,
    }
}

// Bytes as they come: all of them, or as many as it takes to fill the page so far that a record might have no room.
pub fn feed(s: Salvage, bytes: &[u8], page: &mut [u8]) -> Fed
    ensures { Feeds (salvage_at s) bytes.now page.old (salvage_at result.salvage) result.used result.size page.new }
{
    let mut r = s.replay;
    let Lent {
        frame,
        judge,
        tally,
        used,
        size,
    } = feed_lent(
        r.frame,
        r.judge,
        s.tally,
        bytes,
        &mut r.sums,
        &mut r.registers,
        &mut r.picks,
        &mut r.due,
        page,
    );
    Fed {
        salvage: Salvage {
            replay: Replay { frame, judge, ..r },
            tally,
        },
        used,
        size,
    }
}

// What was changed, where the input ends after `fed` bytes.
pub fn end(s: Salvage, fed: u64) -> Changes
    ensures { result ≡ end_of (salvage_at s) fed }
{
    let Salvage { replay, tally } = s;
    Changes {
        replaced: tally.replaced,
        added: record_fill::fed_on(tally.added, record::missed(replay.judge, &replay.due)),
        removed: tally.removed,
        cut: fed.saturating_sub(tally.kept),
    }
}
