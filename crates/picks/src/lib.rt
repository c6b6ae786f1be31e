// What is kept of an undecided symbol beside its subset, and the words of symbols. The I3' of the best symbol of each subset stand in eight
// shift registers, the numbers of the nearest points in a ring of 64 slots, eight bytes to a word. A symbol is read off them by its
// subset, its slot and how many symbols came after it.
//
// Leans on `wei` for labels, turns and words.
#![tactic(auto)]

ghost use Rattle.std.specs.Prelude.{◌≡◌, ◌+◌, ◌*◌, ◌^◌, ◌≤◌, ◌<◌, length};
ghost use Rattle.picks.specs.Picks.{byte_at, numbers_of, type_at, symbol_by, symbol_in, kept_in, said_of};

use wei::word::Parts;

// A word, and the turn after it.
#[derive(Clone, Copy)]
pub struct Said {
    pub word: u32,
    pub turn: u32,
}

// The numbers of the first and of the second point, by label, as one word.
pub fn numbers_of(w1: [u8; 4], w2: [u8; 4]) -> u64
    ensures { result ≡ numbers_of w1 w2 }
{
    let first = u32::from_le_bytes(w1);
    let second = u32::from_le_bytes(w2);
    u64::from(first) + (u64::from(second) << 32)
}

// Keeps a symbol: I3' of each subset as the newest bit of its register, and the numbers in their slot.
// The 72 words are a slice and no array: `receiver::hear_piece_lent` takes them as a part of a caller's own words.
pub fn keep(picks: &mut [u64], slot: usize, i3: [u8; 8], numbers: u64)
    requires { (slot < 64) × (length picks.old ≡ 72) }
    ensures { picks.new ≡ kept_in picks.old slot i3 numbers }
{
    for k in 0..8 {
        picks[k] = registers::longer_by::<1>(picks[k], u64::from(i3[k] % 2));
    }
    picks[8 + slot] = numbers;
}

// A number of the word, which stands at one of eight places.
fn number_at(numbers: u64, place: u32) -> u32
    requires { place < 8 }
    ensures { result ≡ byte_at numbers place }
{
    u32::from(numbers.to_le_bytes()[place as usize])
}

// I3' of the subset k, so many symbols before the newest.
fn type_at(picks: &[u64], k: usize, age: usize) -> u32
    requires { (k < 8) × (age < 64) × (length picks.now ≡ 72) }
    ensures { (result ≡ type_at picks.now k age) × (result < 2) }
{
    ((picks[k] >> age) % 2) as u32
}

// The word of the symbol of subset k with that I3' and its numbers in a word, after the turn before.
fn word_by(u: u32, turn: u32, i3: u32, numbers: u64, k: usize) -> Said
    requires { (u ≤ 8) × (turn ≤ 4) × (i3 < 2) × (k < 8) }
    ensures { result ≡ said_of u turn (symbol_by u i3 numbers k) }
{
    let b = k as u32;
    let i1 = (b >> 1) & 1;
    let l = wei::label::labels(2 * i3 + (b & 1), (b >> 2) & 1, i1);
    let w1 = number_at(numbers, l.first);
    let w2 = number_at(numbers, 4 + l.second);
    let mask = (1u32 << u) - 1;
    let d = wei::label::turn_since(turn, l.first);
    let word = wei::word::pack(
        u,
        Parts {
            i1,
            i2: d & 1,
            i3: d >> 1,
            w1: w1 & mask,
            w2: w2 & mask,
        },
    );
    Said {
        word,
        turn: l.first,
    }
}

// The word of the symbol of subset k in a slot, so many symbols before the newest, after the turn before.
pub fn word_in(u: u32, turn: u32, picks: &[u64], slot: usize, age: usize, k: usize) -> Said
    requires { (u ≤ 8) × (turn ≤ 4) × (slot < 64) × (age < 64) × (k < 8) × (length picks.now ≡ 72) }
    ensures { result ≡ said_of u turn (symbol_in u picks.now slot age k) }
{
    let i3 = type_at(picks, k, age);
    word_by(u, turn, i3, picks[8 + slot], k)
}
