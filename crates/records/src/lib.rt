// The form of a capture: kinds of records, where each may stand, how long its body is, and what its bytes say. No receiver is known here.
//
// A capture is read by a byte step: `start` gives a frame, `push` takes one byte more. A frame holds one record at most, and says after each
// byte whether a record has just become whole or the capture is malformed; at the end of input it is well formed exactly if the frame is
// whole. specs/Reading says the same record by record, and proofs/Steps shows that the steps give it.
#![tactic(auto)]

ghost use Rattle.std.specs.Prelude.{◌≡◌, ◌+◌, ◌≤◌, nat_abs};
ghost use Rattle.records.specs.Kinds.{kind_of, may_stand, after_role};
ghost use Rattle.records.specs.Values.{byte_fits, map_in, lead_of, coordinate_of, number_of};
ghost use Rattle.records.specs.Frames.{capped, stage_at, begun, may_grow, grown, fresh, pushed};

use points::Map;

// The kinds of records, as the bytes that a capture has for them.
pub const OPEN: u8 = 1;

pub const SYMBOL: u8 = 2;

pub const WORD: u8 = 3;

pub const FINISH: u8 = 4;

pub const MARKED: u8 = 5;

pub const OPEN_SQUARE: u8 = 6;

// What a record is for. `Unknown` is a role and no None: `values_text`, `by_role` and `words_after` say what such a record does too.
#[derive(Clone, Copy)]
pub enum Role {
    Open,
    Symbol,
    Word,
    Finish,
    Unknown,
}

// What may stand next: an open; a symbol or a finish; one of these or a word; a word.
#[derive(Clone, Copy)]
pub enum Phase {
    Start,
    Opened,
    Running,
    Over,
}

// A row of the table of kinds: what the kind is for, and how many bytes its body has.
#[derive(Clone, Copy)]
pub struct Kind {
    pub role: Role,
    pub size: usize,
}

// No byte yet; inside a record; a record has just become whole; the capture is malformed.
#[derive(Clone, Copy)]
pub enum Stage {
    Fresh,
    Part,
    Whole,
    Bad,
}

// The record that is being read: its kind, the `have` bytes of its body that have come, and `at`, the offset of its kind byte. `phase` is what
// may stand after it, `fed` how many bytes have come. The body is nine bytes with a count beside them: nothing allocates, and C's words have it so.
#[derive(Clone, Copy)]
pub struct Frame {
    pub stage: Stage,
    pub phase: Phase,
    pub kind: u8,
    pub have: usize,
    pub body: [u8; 9],
    pub at: u64,
    pub fed: u64,
}

// The table of kinds.
#[tactic(auto, unfolding(crate::specs::Kinds::kind_of))]
pub fn kind_of(k: u8) -> Kind
    ensures { result ≡ kind_of k }
{
    let (role, size) = match k {
        OPEN | OPEN_SQUARE => (Role::Open, 3),
        SYMBOL => (Role::Symbol, 8),
        MARKED => (Role::Symbol, 9),
        WORD => (Role::Word, 4),
        FINISH => (Role::Finish, 0),
        _ => (Role::Unknown, 0),
    };
    Kind { role, size }
}

pub fn may_stand(phase: Phase, role: Role) -> bool
    ensures { result ≡ may_stand phase role }
{
    match role {
        Role::Open => matches!(phase, Phase::Start),
        Role::Symbol | Role::Finish => matches!(phase, Phase::Opened | Phase::Running),
        Role::Word => matches!(phase, Phase::Running | Phase::Over),
        Role::Unknown => false,
    }
}

pub fn after(phase: Phase, role: Role) -> Phase
    ensures { result ≡ after_role phase role }
{
    match role {
        Role::Open => Phase::Opened,
        Role::Symbol => Phase::Running,
        Role::Finish => Phase::Over,
        Role::Word | Role::Unknown => phase,
    }
}

// One more. At the end of 64 bits the count stays where it is.
#[tactic(auto, unfolding(crate::specs::Frames::capped))]
pub fn counted(n: u64) -> u64
    ensures { result ≡ capped (n + 1) }
{
    n.saturating_add(1)
}

pub fn stage_at(have: usize, size: usize) -> Stage
    ensures { result ≡ stage_at have size }
{
    if have < size {
        Stage::Part
    } else {
        Stage::Whole
    }
}

// The frame before any byte.
pub fn start() -> Frame
    ensures { result ≡ fresh }
{
    Frame {
        stage: Stage::Fresh,
        phase: Phase::Start,
        kind: 0,
        have: 0,
        body: [0; 9],
        at: 0,
        fed: 0,
    }
}

// A kind byte.
#[tactic(auto, unfolding(crate::specs::Frames::begun))]
fn begin(f: Frame, k: u8) -> Frame
    ensures { result ≡ begun f k }
{
    let Kind { role, size } = kind_of(k);
    let begun = Frame {
        kind: k,
        have: 0,
        at: f.fed,
        fed: counted(f.fed),
        ..f
    };
    if !may_stand(f.phase, role) {
        return Frame {
            stage: Stage::Bad,
            ..begun
        };
    }
    Frame {
        stage: stage_at(0, size),
        phase: after(f.phase, role),
        ..begun
    }
}

// Whether b may be the byte i of a body that begins with `mark`. A symbol of which points are missing has a mark first, and zeros in their
// places; nothing else is asked.
#[tactic(auto, unfolding(crate::specs::Values::byte_fits))]
pub fn byte_fits(kind: u8, mark: u8, i: usize, b: u8) -> bool
    ensures { result ≡ byte_fits kind mark i b }
{
    if kind != MARKED {
        return true;
    }
    match i {
        0 => matches!(b, 1..=3),
        1..=4 => b == 0 || mark % 2 != 1,
        _ => b == 0 || mark < 2,
    }
}

// Whether the byte b may come next in a body. (A frame that has nine bytes and waits for more is none that `push` gave.)
#[tactic(auto, unfolding(crate::specs::Frames::may_grow))]
fn may_grow(f: Frame, b: u8) -> bool
    ensures { result ≡ may_grow f b }
{
    f.have < 9 && byte_fits(f.kind, f.body[0], f.have, b)
}

// A byte of a body.
#[tactic(auto, unfolding(crate::specs::Frames::grown, crate::specs::Frames::may_grow))]
fn grow(f: Frame, b: u8) -> Frame
    ensures { result ≡ grown f b }
{
    if !may_grow(f, b) {
        return Frame {
            stage: Stage::Bad,
            ..f
        };
    }
    let mut body = f.body;
    body[f.have] = b;
    let have = f.have + 1;
    Frame {
        stage: stage_at(have, kind_of(f.kind).size),
        have,
        body,
        fed: counted(f.fed),
        ..f
    }
}

// One byte more. Once the capture is malformed, bytes are swallowed.
#[tactic(auto, unfolding(crate::specs::Frames::pushed))]
pub fn push(f: Frame, b: u8) -> Frame
    ensures { result ≡ pushed f b }
{
    match f.stage {
        Stage::Fresh | Stage::Whole => begin(f, b),
        Stage::Part => grow(f, b),
        Stage::Bad => f,
    }
}

// The map of an open of kind k.
pub fn map_in(k: u8) -> Map
    ensures { result ≡ map_in k }
{
    if k == OPEN_SQUARE {
        Map::Square
    } else {
        Map::Round
    }
}

// How many bytes stand before a symbol's coordinates: its mark, in a record of kind 5.
pub fn lead(k: u8) -> usize
    ensures { (result ≡ lead_of k) × (result ≤ 1) }
{
    if k == MARKED { 1 } else { 0 }
}

// A coordinate: a signed number of 16 bits, low byte first.
#[tactic(auto, unfolding(crate::specs::Values::coordinate_of))]
pub fn coordinate(lo: u8, hi: u8) -> i32
    ensures { (result ≡ coordinate_of lo hi) × (nat_abs result ≤ 32768) }
{
    i32::from(i16::from_le_bytes([lo, hi]))
}

// A number of 32 bits, low byte first.
#[tactic(auto, unfolding(crate::specs::Values::number_of))]
pub fn number(a: u8, b: u8, c: u8, d: u8) -> u32
    ensures { result ≡ number_of a b c d }
{
    u32::from_le_bytes([a, b, c, d])
}
