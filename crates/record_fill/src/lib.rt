// Bytes of a lump into a frame: what `records::push` does byte by byte, with the bytes of a body taken over at once.
//
// A body's byte put into a frame by value costs a copy of the frame. Here a record costs two steps: its kind byte, and the rest of it as far
// as the lump goes. Only of a symbol with missing points, whose bytes are looked at one by one, do they come so (`records::push`).
#![tactic(auto)]

ghost use Rattle.std.specs.Prelude.{◌≡◌, true, ◌+◌, ◌-◌, ◌≤◌, ◌<◌, min, length, take, drop};
ghost use Rattle.std.proofs.lemmas.List.Edits.{sets};
ghost use Rattle.records.specs.Kinds.{kind_of};
ghost use Rattle.records.specs.Frames.{capped};
ghost use Rattle.record_fill.specs.Runs.{inside, gathered, Advances};

use records::{Frame, MARKED, Stage};

// The frame after some bytes, and how many there were.
#[derive(Clone, Copy)]
pub struct Moved {
    pub frame: Frame,
    pub count: usize,
}

// Whether the frame waits for more of a body, of which any bytes will do.
fn is_inside(f: Frame) -> bool
    ensures { result ≡ inside f }
{
    f.kind != MARKED && matches!(f.stage, Stage::Part) && f.have < records::kind_of(f.kind).size
}

// The smaller of two, which docs/PROMISES names.
pub fn least(a: usize, b: usize) -> usize
    ensures { result ≡ min a b }
{
    a.min(b)
}

// Some more bytes fed. At the end of 64 bits the count stays where it is.
#[tactic(auto, unfolding(records::specs::Frames::capped))]
pub fn fed_on(fed: u64, n: usize) -> u64
    ensures { result ≡ capped (fed + n) }
{
    fed.saturating_add(n as u64)
}

// The body with some bytes more.
fn fill(mut body: [u8; 9], have: usize, bytes: &[u8]) -> [u8; 9]
    requires { have + length bytes.now ≤ 9 }
    ensures { result ≡ sets body have bytes.now }
{
    body[have..have + bytes.len()].copy_from_slice(bytes);
    body
}

// Inside a record: the rest of its body, as far as it is there.
#[tactic(auto, using(crate::proofs::Gathers::wants))]
fn grow(f: Frame, bytes: &[u8], from: usize) -> Moved
    requires { (inside f ≡ true) × (from < length bytes.now) }
    ensures { (result.count ≡ min ((kind_of f.kind).size - f.have) (length bytes.now - from))
        × (result.frame ≡ gathered f result.count (take result.count (drop from bytes.now))) }
{
    let size = records::kind_of(f.kind).size;
    let n = (size - f.have).min(bytes.len() - from);
    Moved {
        frame: Frame {
            stage: records::stage_at(f.have + n, size),
            have: f.have + n,
            body: fill(f.body, f.have, &bytes[from..from + n]),
            fed: fed_on(f.fed, n),
            ..f
        },
        count: n,
    }
}

// A kind byte, or the rest of a body.
pub fn advance(f: Frame, bytes: &[u8], from: usize) -> Moved
    requires { from < length bytes.now }
    ensures { Advances f (drop from bytes.now) result.frame result.count }
{
    if is_inside(f) {
        return grow(f, bytes, from);
    }
    Moved {
        frame: records::push(f, bytes[from]),
        count: 1,
    }
}
