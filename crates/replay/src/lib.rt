// The replay of a capture: bytes in, one verdict out. The record that is being read is a frame of `records`, what has been found so far a
// judge of `replay_judge`; bytes go into the frame (`record_fill`), and where they make a record whole the judge takes it (`record`).
//
// `start`, `feed` and `end` hold all of it by value. `feed_lent` and `verdict` are for a caller that keeps the receiver's lists and the words
// that are due in places of its own: nothing is copied for a byte, a symbol or a word. A lump of bytes may have any length and may end
// inside a record. Once a fault is found later bytes change no verdict. What a replay sees of records in a row, whoever wrote them, is in
// proofs/Forms and proofs/Words.
#![tactic(auto)]

pub mod record;

ghost use Rattle.std.specs.Prelude.{◌≡◌, Bool};
ghost use Rattle.records.specs.Frames.{entry_of};
ghost use Rattle.replay_judge.specs.Judging.{state_of};
ghost use Rattle.replay.specs.Meaning.{agreed};
ghost use Rattle.replay.specs.Course.{is_whole, is_bad, settled, course_of, feedings, ended, found as Course·found, replay_of, fresh_replay};

use machine::Receiver;
use records::{Frame, Stage};
use replay_judge::{Judge, Verdict};

#[derive(Clone, Copy)]
pub struct Fed {
    pub frame: Frame,
    pub judge: Judge,
}

#[derive(Clone, Copy)]
pub struct Replay {
    pub frame: Frame,
    pub judge: Judge,
    pub sums: [u32; 16],
    pub registers: [u64; 48],
    pub picks: [u64; 72],
    pub due: [u32; 65],
}

pub fn is_whole(stage: Stage) -> bool
    ensures { result ≡ is_whole stage }
{
    matches!(stage, Stage::Whole)
}

fn is_bad(stage: Stage) -> bool
    ensures { result ≡ is_bad stage }
{
    matches!(stage, Stage::Bad)
}

pub fn is_agreed(v: Verdict) -> bool
    ensures { result ≡ agreed v }
{
    matches!(v, Verdict::Agree(_))
}

// The judge takes the frame's record if it has just become whole.
#[tactic(auto, unfolding(crate::specs::Course::settled))]
fn settle(
    frame: Frame,
    j: Judge,
    sums: &mut [u32; 16],
    registers: &mut [u64; 48],
    picks: &mut [u64; 72],
    due: &mut [u32],
) -> Judge
    ensures { state_of result sums.new registers.new picks.new due.new
        ≡ settled (is_whole frame.stage) (state_of j sums.old registers.old picks.old due.old) (entry_of frame) }
{
    if !is_whole(frame.stage) {
        return j;
    }
    record::take(j, frame.kind, frame.body, sums, registers, picks, due)
}

// A lump of bytes, which may be empty.
pub fn feed_lent(
    frame: Frame,
    judge: Judge,
    bytes: &[u8],
    sums: &mut [u32; 16],
    registers: &mut [u64; 48],
    picks: &mut [u64; 72],
    due: &mut [u32],
) -> Fed
    ensures { course_of result.frame result.judge sums.new registers.new picks.new due.new
        ≡ feedings (course_of frame judge sums.old registers.old picks.old due.old) bytes.now }
{
    let mut frame = frame;
    let mut judge = judge;
    let mut i = 0;
    // A round takes as many bytes as the frame does, so there is no step for a `for`.
    while i < bytes.len() {
        let m = record_fill::advance(frame, bytes, i);
        frame = m.frame;
        judge = settle(frame, judge, sums, registers, picks, due);
        i += m.count;
    }
    Fed { frame, judge }
}

// Whether a fault is found already, so that no later byte can change the verdict.
#[tactic(auto, unfolding(crate::specs::Course::found))]
pub fn found(frame: Frame, judge: Judge) -> bool
    ensures { result ≡ Course·found frame judge.verdict }
{
    !is_agreed(judge.verdict) || is_bad(frame.stage)
}

// The verdict where the input ends.
#[tactic(auto, unfolding(crate::specs::Course::ended, replay_judge::specs::Judging::first_due))]
pub fn verdict(frame: Frame, judge: Judge, due: &[u32]) -> Verdict
    ensures { result ≡ ended frame judge due.now }
{
    if !is_agreed(judge.verdict) {
        return judge.verdict;
    }
    if !is_whole(frame.stage) {
        return Verdict::Malformed(frame.at);
    }
    match replay_judge::next_due(judge, due) {
        None => judge.verdict,
        Some(h) => Verdict::Missing(judge.records, h),
    }
}

// A replay before any byte: no record, and a closed receiver.
pub fn start() -> Replay
    ensures { result ≡ fresh_replay }
{
    let Receiver {
        live,
        core,
        sums,
        registers,
        picks,
    } = openings::closed_receiver();
    Replay {
        frame: records::start(),
        judge: Judge {
            live,
            core,
            given: 0,
            shown: 0,
            records: 0,
            verdict: Verdict::Agree(0),
        },
        sums,
        registers,
        picks,
        due: [0; 65],
    }
}

pub fn feed(r: Replay, bytes: &[u8]) -> Replay
    ensures { replay_of result ≡ feedings (replay_of r) bytes.now }
{
    let mut r = r;
    let Fed { frame, judge } = feed_lent(
        r.frame,
        r.judge,
        bytes,
        &mut r.sums,
        &mut r.registers,
        &mut r.picks,
        &mut r.due,
    );
    Replay { frame, judge, ..r }
}

pub fn end(r: Replay) -> Verdict
    ensures { result ≡ ended r.frame r.judge r.due }
{
    verdict(r.frame, r.judge, &r.due)
}
