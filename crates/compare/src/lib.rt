// Two captures compared, record by record, over bytes that lie in buffers: Wish 12 of 02. It leans on `records` for the form alone.
//
// `form` reads a lump of one capture for its form, `next` two lumps side by side up to the next line. Both pass whole records only and say
// how many bytes they have used; the caller keeps the rest, puts more behind it and calls again. Nothing is kept of a record that is passed.
#![tactic(auto)]

ghost use Rattle.std.specs.Prelude.{◌≡◌, ◌+◌, ◌≤◌, length};
ghost use Rattle.compare.specs.Passing.{form_step, form_of, line_more, pair_step, pass_of, fresh_pass};

use compare_events::Event;
use record_front::{Front, Sign};
use records::Phase;
use text::token;

// How far one capture is read for its form: what stands next, what may stand there, its offset, and how many bytes of the lump are used.
#[derive(Clone, Copy)]
pub struct Formed {
    pub sign: Sign,
    pub phase: Phase,
    pub at: u64,
    pub used: usize,
}

// How far both are read: what was told, what may stand next in each, the number of the next records, the lines so far, and how many bytes
// of the first lump (`here`) and of the second (`there`) are used.
#[derive(Clone, Copy)]
pub struct Pass {
    pub event: Event,
    pub first: Phase,
    pub second: Phase,
    pub number: u64,
    pub lines: u64,
    pub here: usize,
    pub there: usize,
}

// One look further.
#[tactic(auto, unfolding(crate::specs::Passing::form_step, records::specs::Frames::capped))]
fn form_step(f: Formed, bytes: &[u8], ends: bool) -> Formed
    requires { f.used ≤ length bytes.now }
    ensures { (result ≡ form_step f bytes.now ends) × (result.used ≤ length bytes.now) }
{
    let Front {
        sign,
        length,
        phase,
    } = record_front::look(f.phase, &bytes[f.used..], ends);
    Formed {
        sign,
        phase,
        at: f.at.saturating_add(length as u64),
        used: f.used + length,
    }
}

// A lump of one capture, read for its form, from a record that may stand in this phase and has this offset. `ends`: the capture has no more
// bytes than these. `next` has this form over two lumps, with other steps and another end.
pub fn form(phase: Phase, at: u64, bytes: &[u8], ends: bool) -> Formed
    ensures { (result ≡ form_of phase at bytes.now ends) × (result.used ≤ length bytes.now) }
{
    let mut f = Formed {
        sign: Sign::Record,
        phase,
        at,
        used: 0,
    };
    for _ in 0..bytes.len() {
        f = form_step(f, bytes, ends);
        if !matches!(f.sign, Sign::Record) {
            return f;
        }
    }
    form_step(f, bytes, ends)
}

fn line_more(e: Event, lines: u64) -> u64
    ensures { result ≡ line_more e lines }
{
    match e {
        Event::Said(_) => records::counted(lines),
        _ => lines,
    }
}

// One pair of records further.
fn pair(p: Pass, xs: &[u8], ys: &[u8], ends: bool, closes: bool) -> Pass
    requires { (p.here ≤ length xs.now) × (p.there ≤ length ys.now) }
    ensures value { result ≡ pair_step p xs.now ys.now ends closes }
    ensures here_in_bounds { (result.here ≤ length xs.now) × (result.there ≤ length ys.now) }
{
    let a = record_front::look(p.first, &xs[p.here..], ends);
    let b = record_front::look(p.second, &ys[p.there..], closes);
    let here = p.here + a.length;
    let there = p.there + b.length;
    let same = token::same(&xs[p.here..here], &ys[p.there..there]);
    let event = compare_events::judge(a.sign, b.sign, same, p.number, p.lines);
    match event {
        Event::Same | Event::Said(_) => Pass {
            event,
            first: a.phase,
            second: b.phase,
            number: records::counted(p.number),
            lines: line_more(event, p.lines),
            here,
            there,
        },
        _ => Pass { event, ..p },
    }
}

// Before any record.
pub fn start() -> Pass
    ensures { result ≡ fresh_pass }
{
    Pass {
        event: Event::Same,
        first: Phase::Start,
        second: Phase::Start,
        number: 0,
        lines: 0,
        here: 0,
        there: 0,
    }
}

// Two lumps, from where the last two ended, up to the next line or to where more bytes are wanted. `ends`, `closes`: that capture has no
// more bytes than these.
pub fn next(p: Pass, xs: &[u8], ys: &[u8], ends: bool, closes: bool) -> Pass
    ensures value { result ≡ pass_of p xs.now ys.now ends closes }
    ensures here_in_bounds { (result.here ≤ length xs.now) × (result.there ≤ length ys.now) }
{
    let mut now = Pass {
        event: Event::Same,
        here: 0,
        there: 0,
        ..p
    };
    for _ in 0..xs.len() {
        now = pair(now, xs, ys, ends, closes);
        if !matches!(now.event, Event::Same) {
            return now;
        }
    }
    pair(now, xs, ys, ends, closes)
}
