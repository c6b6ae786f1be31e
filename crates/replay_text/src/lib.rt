// The line that a verdict prints: specs/Says has its text. A line is given by value, at most 64 bytes with no newline.
#![tactic(auto)]

ghost use Rattle.std.specs.Prelude.{◌≡◌, ◌++◌, ◌+◌, ◌≤◌, length, take};
ghost use Rattle.text.specs.Bytes.{bytes};
ghost use Rattle.page.specs.Page.{Puts};
ghost use Rattle.phrases.specs.Phrase.{decimal};
ghost use Rattle.replay_text.specs.Says.{hex, recorded, line_of};

use replay_judge::Verdict;

// There is no heap, so the text lies in an array, and `bytes` gives as much of it as the line has.
#[derive(Clone, Copy)]
pub struct Line {
    pub text: [u8; 64],
    pub size: usize,
}

impl Line {
    // The line itself, of the text that it lies in.
    pub fn bytes(&self) -> &[u8]
        requires { self.now.size ≤ 64 }
        ensures { result.now ≡ take self.now.size self.now.text }
    {
        &self.text[..self.size]
    }
}

// A word as eight hexadecimal digits.
fn put_hex(page: &mut [u8], at: usize, w: u32) -> usize
    requires { at + 8 ≤ length page.old }
    ensures { Puts page.old at (hex w) result page.new }
{
    let mut digits = [0u8; 16];
    let k = io::hex(u64::from(w), 8, &mut digits);
    page::put_text(page, at, &digits[..k])
}

// A text, a number and a text.
fn head(page: &mut [u8], first: &[u8], n: u64, then: &[u8]) -> usize
    requires { length first.now + 20 + length then.now ≤ length page.old }
    ensures { Puts page.old 0 (first.now ++ decimal n ++ then.now) result page.new }
{
    let p = page::put_text(page, 0, first);
    let p = page::put_number(page, p, n);
    page::put_text(page, p, then)
}

// `record N`, some words of text, and a word as eight digits.
fn worded(page: &mut [u8], n: u64, then: &[u8], w: u32) -> usize
    requires { (64 ≤ length page.old) × (length then.now ≤ 14) }
    ensures { Puts page.old 0 (bytes "record " ++ decimal n ++ then.now ++ hex w) result page.new }
{
    let p = head(page, b"record ", n, then);
    put_hex(page, p, w)
}

// `record N word G`, and a text.
fn expected(page: &mut [u8], n: u64, g: u32, then: &[u8]) -> usize
    requires { (64 ≤ length page.old) × (length then.now ≤ 14) }
    ensures { Puts page.old 0 (recorded n g ++ then.now) result page.new }
{
    let p = worded(page, n, b" word ", g);
    page::put_text(page, p, then)
}

fn differs(page: &mut [u8], n: u64, g: u32, h: u32) -> usize
    requires { 64 ≤ length page.old }
    ensures { Puts page.old 0 (line_of (Verdict.Differs n g h)) result page.new }
{
    let p = expected(page, n, g, b" expected ");
    put_hex(page, p, h)
}

fn refused(page: &mut [u8], n: u64, why: u32) -> usize
    requires { 64 ≤ length page.old }
    ensures { Puts page.old 0 (line_of (Verdict.Refused n why)) result page.new }
{
    let p = head(page, b"record ", n, b" refused ");
    page::put_number(page, p, u64::from(why))
}

#[tactic(auto, unfolding(crate::specs::Says::line_of))]
fn put_line(v: Verdict, page: &mut [u8]) -> usize
    requires { 64 ≤ length page.old }
    ensures { Puts page.old 0 (line_of v) result page.new }
{
    match v {
        Verdict::Agree(n) => head(page, b"agree ", n, b""),
        Verdict::Differs(n, g, h) => differs(page, n, g, h),
        Verdict::Extra(n, g) => expected(page, n, g, b" expected none"),
        Verdict::Missing(n, h) => worded(page, n, b" missing word ", h),
        Verdict::Refused(n, why) => refused(page, n, why),
        Verdict::Malformed(p) => head(page, b"offset ", p, b" malformed"),
    }
}

pub fn line_of(v: Verdict) -> Line
    ensures { (take result.size result.text ≡ line_of v) × (result.size ≤ 64) }
{
    let mut text = [0u8; 64];
    let size = put_line(v, &mut text);
    Line { text, size }
}
