// A capture record by record, over bytes that lie in a buffer: what stands at their front. Where a record lies there whole, nothing of it is
// copied; where it does not, more bytes are wanted. `push` tells the same byte by byte.
#![tactic(auto)]

ghost use Rattle.std.specs.Prelude.{◌≡◌, ◌≤◌, length};
ghost use Rattle.records.specs.Kinds.{begins as Kinds·begins};
ghost use Rattle.records.specs.Values.{body_fits};
ghost use Rattle.record_front.specs.Fronts.{empty_of, cut_of, stopped, front_of};

use records::{Kind, Phase, after, byte_fits, kind_of, may_stand};

// A whole record; the capture's end, after a record; more bytes are wanted to tell; malformed here.
#[derive(Clone, Copy)]
pub enum Sign {
    Record,
    Gone,
    More,
    Bad,
}

// What stands there, how many bytes the record has, and what may stand after it. Where it is no record its length is 0 and the phase the
// old one, as `look-passes` says (`Stays`): so whoever reads on adds them up whatever stands there.
#[derive(Clone, Copy)]
pub struct Front {
    pub sign: Sign,
    pub length: usize,
    pub phase: Phase,
}

fn begins(phase: Phase) -> bool
    ensures { result ≡ Kinds·begins phase }
{
    !matches!(phase, Phase::Start)
}

// No byte is there.
fn empty(phase: Phase, ends: bool) -> Sign
    ensures { result ≡ empty_of phase ends }
{
    match (ends, begins(phase)) {
        (false, _) => Sign::More,
        (true, true) => Sign::Gone,
        (true, false) => Sign::Bad,
    }
}

// A record that may stand here is not whole.
fn cut(ends: bool) -> Sign
    ensures { result ≡ cut_of ends }
{
    if ends { Sign::Bad } else { Sign::More }
}

// Whether all bytes of a body may be there.
fn fits(kind: u8, body: &[u8]) -> bool
    ensures { result ≡ body_fits kind body.now }
{
    for (i, b) in body.iter().enumerate() {
        if !byte_fits(kind, body[0], i, *b) {
            return false;
        }
    }
    true
}

// Nothing is passed.
fn stopped(phase: Phase, sign: Sign) -> Front
    ensures { result ≡ stopped phase sign }
{
    Front {
        sign,
        length: 0,
        phase,
    }
}

// The front of some bytes. `ends`: the capture has no more than these.
#[tactic(auto, unfolding(crate::specs::Fronts::front_of))]
pub fn look(phase: Phase, bytes: &[u8], ends: bool) -> Front
    ensures value { result ≡ front_of phase bytes.now ends }
    ensures within { result.length ≤ length bytes.now }
{
    let [k, rest @ ..] = bytes else {
        return stopped(phase, empty(phase, ends));
    };
    let Kind { role, size } = kind_of(*k);
    if !may_stand(phase, role) {
        return stopped(phase, Sign::Bad);
    }
    if rest.len() < size {
        return stopped(phase, cut(ends));
    }
    if !fits(*k, &rest[..size]) {
        return stopped(phase, Sign::Bad);
    }
    Front {
        sign: Sign::Record,
        length: size + 1,
        phase: after(phase, role),
    }
}
