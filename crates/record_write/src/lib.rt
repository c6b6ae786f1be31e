// Records put into lent bytes: one place that writes an open, one that writes a symbol, one that writes words, one that writes a finish.
// Each writes at the front of the bytes that it is lent and leaves the rest as it was; what the bytes say is records/specs/Values.
#![tactic(auto)]

ghost use Rattle.std.specs.Prelude.{◌≡◌, cond, [], ◌∷◌, ◌+◌, ◌*◌, ◌%◌, ◌≤◌, ◌<◌, pos, nat_abs, leb, length, drop};
ghost use Rattle.records.specs.Values.{half_bytes, open_kind, open_entry, symbol_entry, marked_entry, word_entry, finish_entry};
ghost use Rattle.record_write.specs.Front.{symbol_in, symbol_record, symbol_space, word_entries, symbol_records, finish_records, Fronted, Small};

use points::{Accord, Map};
use records::{FINISH, MARKED, OPEN, OPEN_SQUARE, SYMBOL, WORD};

// A coordinate: its low 16 bits, low byte first.
fn half(x: i32) -> [u8; 2]
    requires { nat_abs x ≤ 32768 }
    ensures { result ≡ half_bytes x [] }
{
    let [lo, hi, ..] = x.to_le_bytes();
    [lo, hi]
}

// The kind that opens a line of this map.
fn open_kind(map: Map) -> u8
    ensures { result ≡ open_kind map }
{
    match map {
        Map::Round => OPEN,
        Map::Square => OPEN_SQUARE,
    }
}

// The map and the numbers of an opening.
#[tactic(auto, unfolding(records::specs::Values::bytes_of))]
pub fn put_open(k: Accord, window: u32, start: u32, bytes: &mut [u8])
    requires { (4 ≤ length bytes.old) × (k.u < 256) × (window < 256) × (start < 256) }
    ensures { Fronted (open_entry k window start ∷ []) bytes.old bytes.new }
{
    bytes[..4].copy_from_slice(&[open_kind(k.map), k.u as u8, window as u8, start as u8]);
}

// The coordinates of a symbol.
fn put_coordinates(x0: i32, x1: i32, x2: i32, x3: i32, bytes: &mut [u8])
    requires { (8 ≤ length bytes.old) × (nat_abs x0 ≤ 32768) × (nat_abs x1 ≤ 32768) × (nat_abs x2 ≤ 32768) × (nat_abs x3 ≤ 32768) }
    ensures { bytes.new ≡ half_bytes x0 (half_bytes x1 (half_bytes x2 (half_bytes x3 (drop 8 bytes.old)))) }
{
    let [a, b] = half(x0);
    let [c, d] = half(x1);
    let [e, f] = half(x2);
    let [g, h] = half(x3);
    bytes[..8].copy_from_slice(&[a, b, c, d, e, f, g, h]);
}

// A symbol of which nothing is missing.
#[tactic(auto, unfolding(records::specs::Values::bytes_of))]
fn put_symbol(x0: i32, x1: i32, x2: i32, x3: i32, bytes: &mut [u8])
    requires { (9 ≤ length bytes.old) × (nat_abs x0 ≤ 32768) × (nat_abs x1 ≤ 32768) × (nat_abs x2 ≤ 32768) × (nat_abs x3 ≤ 32768) }
    ensures { Fronted (symbol_entry x0 x1 x2 x3 ∷ []) bytes.old bytes.new }
{
    bytes[0] = SYMBOL;
    put_coordinates(x0, x1, x2, x3, &mut bytes[1..]);
}

// Another, behind its mark.
#[tactic(auto, unfolding(records::specs::Values::bytes_of))]
fn put_marked(mark: u8, x0: i32, x1: i32, x2: i32, x3: i32, bytes: &mut [u8])
    requires { (10 ≤ length bytes.old) × (nat_abs x0 ≤ 32768) × (nat_abs x1 ≤ 32768) × (nat_abs x2 ≤ 32768) × (nat_abs x3 ≤ 32768) }
    ensures { Fronted (marked_entry mark x0 x1 x2 x3 ∷ []) bytes.old bytes.new }
{
    bytes[0] = MARKED;
    bytes[1] = mark;
    put_coordinates(x0, x1, x2, x3, &mut bytes[2..]);
}

#[tactic(auto, unfolding(records::specs::Values::bytes_of))]
fn put_word(w: u32, bytes: &mut [u8])
    requires { 5 ≤ length bytes.old }
    ensures { Fronted (word_entry w ∷ []) bytes.old bytes.new }
{
    let [a, b, c, d] = w.to_le_bytes();
    bytes[..5].copy_from_slice(&[WORD, a, b, c, d]);
}

pub fn put_words(words: &[u32], bytes: &mut [u8])
    requires { 5 * length words.now ≤ length bytes.old }
    ensures { Fronted (word_entries words.now) bytes.old bytes.new }
{
    for (i, w) in words.iter().enumerate() {
        put_word(*w, &mut bytes[5 * i..]);
    }
}

// How many bytes the record of a symbol has: who needs to know asks here.
pub fn symbol_space(mark: u8, four: &[i32]) -> usize
    ensures { result ≡ symbol_space (symbol_in mark four.now) }
{
    if mark == 0 { 9 } else { 10 }
}

// The mark of a symbol as a record has it: 0 to 3.
fn one_of_four(mark: u8) -> u8
    ensures { result ≡ cond (leb 2 mark) (2 + mark % 2) mark }
{
    if 2 <= mark { 2 + mark % 2 } else { mark }
}

// A coordinate as a record has it: 0 for a missing point, whatever stands in its place.
fn heard(missing: bool, x: i32) -> i32
    ensures { result ≡ cond missing (pos 0) x }
{
    if missing { 0 } else { x }
}

// A symbol, by its mark.
fn put_record(mark: u8, four: &[i32], bytes: &mut [u8])
    requires { (length four.now ≡ 4) × Small (symbol_in mark four.now) × (symbol_space (symbol_in mark four.now) ≤ length bytes.old) }
    ensures { Fronted (symbol_record (symbol_in mark four.now) ∷ []) bytes.old bytes.new }
{
    if mark == 0 {
        put_symbol(four[0], four[1], four[2], four[3], bytes);
        return;
    }
    let first = mark % 2 == 1;
    let second = 2 <= mark;
    let x0 = heard(first, four[0]);
    let x1 = heard(first, four[1]);
    let x2 = heard(second, four[2]);
    let x3 = heard(second, four[3]);
    put_marked(one_of_four(mark), x0, x1, x2, x3, bytes);
}

// A symbol that was taken, then the words that it released, in their order.
pub fn put_taken(mark: u8, four: &[i32], words: &[u32], bytes: &mut [u8])
    requires { (length four.now ≡ 4) × Small (symbol_in mark four.now) × (symbol_space (symbol_in mark four.now) + 5 * length words.now ≤ length bytes.old) }
    ensures { Fronted (symbol_records (symbol_in mark four.now) words.now) bytes.old bytes.new }
{
    let size = symbol_space(mark, four);
    put_record(mark, four, bytes);
    put_words(words, &mut bytes[size..]);
}

fn put_end(bytes: &mut [u8])
    requires { 1 ≤ length bytes.old }
    ensures { Fronted (finish_entry ∷ []) bytes.old bytes.new }
{
    bytes[0] = FINISH;
}

// A finish, then the words that it wrote.
pub fn put_finish(words: &[u32], bytes: &mut [u8])
    requires { 1 + 5 * length words.now ≤ length bytes.old }
    ensures { Fronted (finish_records words.now) bytes.old bytes.new }
{
    put_end(bytes);
    put_words(words, &mut bytes[1..]);
}
