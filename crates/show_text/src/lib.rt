// The line of one record, put into a lent page. It looks at the form of a capture alone, as `records` reads it: no receiver runs.
// specs/Shown has the text.
#![tactic(auto)]

ghost use Rattle.std.specs.Prelude.{◌≡◌, ◌++◌, ◌+◌, ◌≤◌, length};
ghost use Rattle.page.specs.Page.{Puts};
ghost use Rattle.text.specs.Bytes.{bytes};
ghost use Rattle.phrases.specs.Phrase.{decimal, whole};
ghost use Rattle.records.specs.Kinds.{kind_of};
ghost use Rattle.records.specs.Values.{coordinate_of};
ghost use Rattle.show_text.specs.Shown.{is_whole, start_text, open_head, open_text, symbol_head, symbol_text, word_text, values_text, record_line, line_room};

use records::{Frame, MARKED, OPEN_SQUARE, Role, Stage};

pub fn is_whole(stage: Stage) -> bool
    ensures { result ≡ is_whole stage }
{
    matches!(stage, Stage::Whole)
}

// A text and a number.
fn put_named(page: &mut [u8], at: usize, name: &[u8], n: u64) -> usize
    requires { at + length name.now + 20 ≤ length page.old }
    ensures puts { Puts page.old at (name.now ++ decimal n) result page.new }
    ensures upper_bound { result ≤ at + length name.now + 20 }
{
    let p = page::put_text(page, at, name);
    page::put_number(page, p, n)
}

#[tactic(auto, unfolding(crate::specs::Shown::start_text))]
fn put_start(page: &mut [u8], at: usize, start: u8) -> usize
    requires { at + 27 ≤ length page.old }
    ensures puts { Puts page.old at (start_text start) result page.new }
    ensures upper_bound { result ≤ at + 27 }
{
    if start == 16 {
        return page::put_text(page, at, b" start free");
    }
    put_named(page, at, b" start ", u64::from(start))
}

// An open's kind in words, and its width.
#[tactic(auto, unfolding(crate::specs::Shown::open_head))]
fn put_width(page: &mut [u8], at: usize, kind: u8, body: &[u8; 9]) -> usize
    requires { at + 35 ≤ length page.old }
    ensures puts { Puts page.old at (open_head kind body.now) result page.new }
    ensures upper_bound { result ≤ at + 35 }
{
    let u = u64::from(body[0]);
    if kind == OPEN_SQUARE {
        return put_named(page, at, b" open square u ", u);
    }
    put_named(page, at, b" open u ", u)
}

fn put_open(page: &mut [u8], at: usize, kind: u8, body: &[u8; 9]) -> usize
    requires { at + 120 ≤ length page.old }
    ensures puts { Puts page.old at (open_text kind body.now) result page.new }
    ensures upper_bound { result ≤ at + 120 }
{
    let p = put_width(page, at, kind, body);
    let p = put_named(page, p, b" window ", u64::from(body[1]));
    put_start(page, p, body[2])
}

// A space and a coordinate.
fn put_coordinate(page: &mut [u8], at: usize, lo: u8, hi: u8) -> usize
    requires { at + 22 ≤ length page.old }
    ensures puts { Puts page.old at (bytes " " ++ whole (coordinate_of lo hi)) result page.new }
    ensures upper_bound { result ≤ at + 22 }
{
    phrases::next_whole(page, at, records::coordinate(lo, hi))
}

// A symbol's kind in words, and its mark where points are missing.
#[tactic(auto, unfolding(crate::specs::Shown::symbol_head))]
fn put_head(page: &mut [u8], at: usize, kind: u8, body: &[u8; 9]) -> usize
    requires { at + 28 ≤ length page.old }
    ensures puts { Puts page.old at (symbol_head kind body.now) result page.new }
    ensures upper_bound { result ≤ at + 28 }
{
    if kind == MARKED {
        return put_named(page, at, b" marked ", u64::from(body[0]));
    }
    page::put_text(page, at, b" symbol")
}

fn put_symbol(page: &mut [u8], at: usize, kind: u8, body: &[u8; 9]) -> usize
    requires { at + 120 ≤ length page.old }
    ensures puts { Puts page.old at (symbol_text kind body.now) result page.new }
    ensures upper_bound { result ≤ at + 120 }
{
    // Four lines of one shape: a loop would carry `p` along and be no shorter.
    let i = records::lead(kind);
    let p = put_head(page, at, kind, body);
    let p = put_coordinate(page, p, body[i], body[i + 1]);
    let p = put_coordinate(page, p, body[i + 2], body[i + 3]);
    let p = put_coordinate(page, p, body[i + 4], body[i + 5]);
    put_coordinate(page, p, body[i + 6], body[i + 7])
}

// Eight hexadecimal digits.
fn put_word(page: &mut [u8], at: usize, body: &[u8; 9]) -> usize
    requires { at + 120 ≤ length page.old }
    ensures puts { Puts page.old at (word_text body.now) result page.new }
    ensures upper_bound { result ≤ at + 120 }
{
    let p = page::put_text(page, at, b" word ");
    let mut digits = [0u8; 16];
    let w = records::number(body[0], body[1], body[2], body[3]);
    let k = io::hex(u64::from(w), 8, &mut digits);
    page::put_text(page, p, &digits[..k])
}

// What a record says. A kind that is added later is one arm more.
#[tactic(auto, unfolding(crate::specs::Shown::values_text))]
fn put_values(page: &mut [u8], at: usize, kind: u8, body: &[u8; 9]) -> usize
    requires { at + 120 ≤ length page.old }
    ensures puts { Puts page.old at (values_text (kind_of kind).role kind body.now) result page.new }
    ensures upper_bound { result ≤ at + 120 }
{
    match records::kind_of(kind).role {
        Role::Open => put_open(page, at, kind, body),
        Role::Symbol => put_symbol(page, at, kind, body),
        Role::Word => put_word(page, at, body),
        Role::Finish => page::put_text(page, at, b" finish"),
        Role::Unknown => page::put_text(page, at, b" unknown"),
    }
}

// The line of the record that has just become whole.
pub fn put_record(page: &mut [u8], at: usize, frame: Frame, n: u64) -> usize
    requires { at + line_room ≤ length page.old }
    ensures puts { Puts page.old at (record_line n frame) result page.new }
    ensures upper_bound { result ≤ at + line_room }
{
    let p = put_named(page, at, b"record ", n);
    let p = put_named(page, p, b" offset ", frame.at);
    let p = put_values(page, p, frame.kind, &frame.body);
    phrases::end(page, p)
}
