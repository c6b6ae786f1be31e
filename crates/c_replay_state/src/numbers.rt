// The numbers of a replay: its frame and its judge as 28 numbers of 64 bits, and back. Where each stands is the table of `table`;
// which number stands for which stage, phase and verdict is said here.
ghost use Rattle.std.specs.Prelude.{◌≡◌, true};
ghost use Rattle.c_replay_state.specs.Table.{limits, within};
ghost use Rattle.c_replay_state.specs.Numbers.{stage_of, stage_number, phase_of, phase_number, verdict_in, verdict_number, count_of, got_of, wanted_of, frame_in, core_in, judge_in, numbers_of};

use crate::table;
use machine::Core;
use records::{Frame, Phase, Stage};
use replay_judge::{Judge, Verdict};

fn stage_of(n: u64) -> Stage
    ensures { result ≡ stage_of n }
{
    match n {
        0 => Stage::Fresh,
        1 => Stage::Part,
        2 => Stage::Whole,
        _ => Stage::Bad,
    }
}

fn phase_of(n: u64) -> Phase
    ensures { result ≡ phase_of n }
{
    match n {
        0 => Phase::Start,
        1 => Phase::Opened,
        2 => Phase::Running,
        _ => Phase::Over,
    }
}

fn verdict_of(k: u64, n: u64, g: u32, h: u32) -> Verdict
    ensures { result ≡ verdict_in k n g h }
{
    match k {
        0 => Verdict::Agree(n),
        1 => Verdict::Differs(n, g, h),
        2 => Verdict::Extra(n, g),
        3 => Verdict::Missing(n, h),
        4 => Verdict::Refused(n, h),
        _ => Verdict::Malformed(n),
    }
}

#[tactic(auto, using(crate::proofs::Limits::kind_fits, crate::proofs::Limits::body_fits))]
pub fn frame_of(numbers: [u64; 28]) -> Frame
    requires { within limits numbers ≡ true }
    ensures { result ≡ frame_in numbers }
{
    let mut body = [0; 9];
    for (i, b) in body.iter_mut().enumerate() {
        *b = numbers[table::BODY + i] as u8;
    }
    Frame {
        stage: stage_of(numbers[table::STAGE]),
        phase: phase_of(numbers[table::PHASE]),
        kind: numbers[table::KIND] as u8,
        have: numbers[table::HAVE] as usize,
        body,
        at: numbers[table::AT],
        fed: numbers[table::FED],
    }
}

#[tactic(auto, using(crate::proofs::Limits::turn_fits), unfolding(crate::specs::Numbers::core_in))]
fn core_of(numbers: [u64; 28]) -> Core
    requires { within limits numbers ≡ true }
    ensures { result ≡ core_in numbers }
{
    Core {
        accord: c_layout::accord_in(numbers[table::ACCORD]),
        window: numbers[table::WINDOW] as usize,
        turn: numbers[table::TURN] as u32,
        slot: numbers[table::SLOT] as usize,
        pending: numbers[table::PENDING] as usize,
    }
}

#[tactic(auto, using(crate::proofs::Limits::got_fits, crate::proofs::Limits::wanted_fits), unfolding(crate::specs::Numbers::judge_in))]
pub fn judge_of(numbers: [u64; 28]) -> Judge
    requires { within limits numbers ≡ true }
    ensures { result ≡ judge_in numbers }
{
    Judge {
        live: numbers[table::LIVE] == 1,
        core: core_of(numbers),
        given: numbers[table::GIVEN] as usize,
        shown: numbers[table::SHOWN] as usize,
        records: numbers[table::RECORDS],
        verdict: verdict_of(
            numbers[table::VERDICT],
            numbers[table::COUNT],
            numbers[table::GOT] as u32,
            numbers[table::WANTED] as u32,
        ),
    }
}

// No From here and below: the enums are of other crates, and a stage that is no number's is read as `Bad`, not refused.
fn stage_number(s: Stage) -> u64
    ensures { result ≡ stage_number s }
{
    match s {
        Stage::Fresh => 0,
        Stage::Part => 1,
        Stage::Whole => 2,
        Stage::Bad => 3,
    }
}

fn phase_number(p: Phase) -> u64
    ensures { result ≡ phase_number p }
{
    match p {
        Phase::Start => 0,
        Phase::Opened => 1,
        Phase::Running => 2,
        Phase::Over => 3,
    }
}

fn verdict_number(v: Verdict) -> u64
    ensures { result ≡ verdict_number v }
{
    match v {
        Verdict::Agree(_) => 0,
        Verdict::Differs(_, _, _) => 1,
        Verdict::Extra(_, _) => 2,
        Verdict::Missing(_, _) => 3,
        Verdict::Refused(_, _) => 4,
        Verdict::Malformed(_) => 5,
    }
}

// The count or the offset of a verdict.
fn count_of(v: Verdict) -> u64
    ensures { result ≡ count_of v }
{
    match v {
        Verdict::Agree(n)
        | Verdict::Differs(n, _, _)
        | Verdict::Extra(n, _)
        | Verdict::Missing(n, _)
        | Verdict::Refused(n, _)
        | Verdict::Malformed(n) => n,
    }
}

// The word that was recorded.
fn got_of(v: Verdict) -> u32
    ensures { result ≡ got_of v }
{
    match v {
        Verdict::Differs(_, g, _) | Verdict::Extra(_, g) => g,
        _ => 0,
    }
}

// The word that was wanted, or the number of a refusal.
fn wanted_of(v: Verdict) -> u32
    ensures { result ≡ wanted_of v }
{
    match v {
        Verdict::Differs(_, _, h) | Verdict::Missing(_, h) | Verdict::Refused(_, h) => h,
        _ => 0,
    }
}

// One list, in the order of the table: it is the one place where what stands where is read off at a glance, and each number is of another kind.
pub fn numbers_of(f: Frame, j: Judge) -> [u64; 28]
    ensures { (result ≡ numbers_of f j) × (within limits result ≡ true) }
{
    let Core {
        accord,
        window,
        turn,
        slot,
        pending,
    } = j.core;
    [
        stage_number(f.stage),
        phase_number(f.phase),
        u64::from(f.kind),
        u64::from(f.body[0]),
        u64::from(f.body[1]),
        u64::from(f.body[2]),
        u64::from(f.body[3]),
        u64::from(f.body[4]),
        u64::from(f.body[5]),
        u64::from(f.body[6]),
        u64::from(f.body[7]),
        u64::from(f.body[8]),
        u64::from(j.live),
        c_layout::accord_word(accord),
        u64::from(turn),
        verdict_number(j.verdict),
        u64::from(got_of(j.verdict)),
        u64::from(wanted_of(j.verdict)),
        f.have as u64,
        f.at,
        f.fed,
        window as u64,
        slot as u64,
        pending as u64,
        j.given as u64,
        j.shown as u64,
        j.records,
        count_of(j.verdict),
    ]
}
