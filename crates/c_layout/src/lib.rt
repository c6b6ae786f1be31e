// Where the parts of an end stand in the words that a caller lends, whether words can hold an end at all, how the sums go into words, two to
// a word, and what both ends agree on as numbers: a map by its number, 0 round and 1 square, and map and width as one word. A changed record
// moves the table here, and specs/Layout beside it. What is read and written by it is in `c_states`.
//
// A number that is no map's names no line: an opening refuses it with 1, and a state that holds it is not open. Each contract is an
// equation of the result with one definition, so any two results that it allows are equal.
#![tactic(auto)]

ghost use Rattle.std.specs.Prelude.{◌≡◌, ◌+◌, ◌*◌, ◌/◌, ◌%◌, ◌^◌, ◌≤◌, ◌<◌, length};
ghost use Rattle.c_layout.specs.Tagged.{tag_of, is_half, holds};
ghost use Rattle.c_layout.specs.Halves.{unpacked, packed, AllHalves};
ghost use Rattle.c_layout.specs.Accords.{accord_by, number_of, accord_in, accord_word};

use points::{Accord, Map};

// Word 0 says what the state is: the letters "demf", "tx" or "rx", and the number of the layout. A closed end has 0 there.
pub const SENDER: u64 = 0x6465_6d66_7478_0002;

pub const RECEIVER: u64 = 0x6465_6d66_7278_0005;

// Both ends: the tag, then map and width in one word (crate c_layout).
pub const TAG: usize = 0;

pub const ACCORD: usize = 1;

// A sender: its turn and its state.
pub const SENDER_TURN: usize = 2;

pub const SENDER_STATE: usize = 3;

pub const SENDER_WORDS: usize = 4;

// A receiver: four numbers more, then the sums, two to a word, the registers and the picks.
pub const TURN: usize = 2;

pub const WINDOW: usize = 3;

pub const SLOT: usize = 4;

pub const PENDING: usize = 5;

pub const SUMS: usize = 6;

pub const REGISTERS: usize = 14;

pub const PICKS: usize = 62;

pub const RECEIVER_WORDS: usize = 134;

// Whether a word fits a field of 32 bits.
pub fn is_half(w: u64) -> bool
    ensures { result ≡ is_half w }
{
    w < 1 << 32
}

// Whether the words can hold a record of this size and tag: enough of them, and a turn that fits its field, which both ends have in
// word 2.
#[tactic(auto, unfolding(crate::specs::Tagged::holds))]
pub fn holds_record(words: &[u64], size: usize, tag: u64) -> bool
    requires { 3 ≤ size }
    ensures { result ≡ holds size tag words.now }
{
    words.len() >= size && words[TAG] == tag && is_half(words[2])
}

// The first word of an end.
pub fn tag_of(live: bool, tag: u64) -> u64
    ensures { result ≡ tag_of live tag }
{
    if live { tag } else { 0 }
}

// The lower half of a word.
fn lower(w: u64) -> u32
    ensures { result ≡ w % 2 ^ 32 }
{
    (w & 0xffff_ffff) as u32
}

// The upper half of a word.
fn upper(w: u64) -> u32
    ensures { result ≡ w / 2 ^ 32 }
{
    (w >> 32) as u32
}

// Two numbers of 32 bits as one word.
fn paired(low: u32, high: u32) -> u64
    ensures value { result ≡ low + 2 ^ 32 * high }
    ensures halves { (low < 2 ^ 32) × (high < 2 ^ 32) }
{
    u64::from(low) | u64::from(high) << 32
}

// Sixteen numbers of 32 bits from eight words, the lower half of each first.
pub fn unpack(words: [u64; 8]) -> [u32; 16]
    ensures { result ≡ unpacked words }
{
    let mut all = [0; 16];
    for (i, w) in words.iter().enumerate() {
        all[2 * i] = lower(*w);
        all[2 * i + 1] = upper(*w);
    }
    all
}

// Eight words from sixteen numbers of 32 bits.
pub fn pack(numbers: [u32; 16]) -> [u64; 8]
    ensures { (result ≡ packed numbers) × AllHalves numbers }
{
    let mut all = [0; 8];
    for (i, w) in all.iter_mut().enumerate() {
        *w = paired(numbers[2 * i], numbers[2 * i + 1]);
    }
    all
}

// The line of the map with this number, and of the width u.
pub fn accord_by(map: u32, u: u32) -> Accord
    ensures { result ≡ accord_by map u }
{
    match map {
        0 => Accord { map: Map::Round, u },
        1 => Accord {
            map: Map::Square,
            u,
        },
        // Not an Option: `accord_by` is promised, by which another number is a line that no map has.
        _ => Accord {
            map: Map::Round,
            u: 9,
        },
    }
}

// No From: both types are of other crates.
fn number_of(map: Map) -> u32
    ensures { result ≡ number_of map }
{
    match map {
        Map::Round => 0,
        Map::Square => 1,
    }
}

// Map and width of a word.
#[tactic(auto, unfolding(crate::specs::Accords::accord_in))]
pub fn accord_in(w: u64) -> Accord
    ensures { result ≡ accord_in w }
{
    accord_by(upper(w), lower(w))
}

// The word of a map and a width: the map's number in the upper half, the width in the lower.
#[tactic(auto, unfolding(crate::specs::Accords::accord_word))]
pub fn accord_word(k: Accord) -> u64
    ensures { result ≡ accord_word k }
{
    paired(k.u, number_of(k.map))
}
