// The parts that answers are made of, put into the page: what each one says is in specs/Phrase.antt. Every function asks for the
// room that its text can take, and answers with the place after it. The numbers are those that `text` puts.
#![tactic(auto)]

ghost use Rattle.std.specs.Prelude.{ℕ, List, ◌++◌, map, ◌+◌, ◌*◌, ◌≤◌, length};
ghost use Rattle.text.specs.Bytes.{bytes};
ghost use Rattle.page.specs.Page.{Puts};
ghost use Rattle.reasons.specs.Reason.{given_of};
ghost use Rattle.phrases.specs.Phrase.{decimal, whole, after_spaces, place_text, reason_text, said_of};

use reasons::Why;

pub fn end(page: &mut [u8], at: usize) -> usize
    requires { at + 1 ≤ length page.old }
    ensures { Puts page.old at (bytes "\n") result page.new }
{
    page::put_byte(page, at, b'\n')
}

// A space and a whole number.
pub fn next_whole(page: &mut [u8], at: usize, x: i32) -> usize
    requires { at + 22 ≤ length page.old }
    ensures { Puts page.old at (bytes " " ++ whole x) result page.new }
{
    let p = page::put_byte(page, at, b' ');
    page::put_whole(page, p, x)
}

// Two whole numbers, a space before each.
pub fn next_pair(page: &mut [u8], at: usize, x: i32, y: i32) -> usize
    requires { at + 44 ≤ length page.old }
    ensures { Puts page.old at (bytes " " ++ whole x ++ (bytes " " ++ whole y)) result page.new }
{
    let p = next_whole(page, at, x);
    next_whole(page, p, y)
}

pub fn place(page: &mut [u8], at: usize, n: u64) -> usize
    requires { at + 27 ≤ length page.old }
    ensures { Puts page.old at (place_text n) result page.new }
{
    let p = page::put_text(page, at, b" place ");
    page::put_number(page, p, n)
}

// A number that stands in a row of them, as a word or a coordinate does.
pub trait Number {
    ghost text: { Self → List ℕ };

    // What it takes at most, with the space before it.
    ghost room: { ℕ };

    // A space and the number.
    fn put(&self, page: &mut [u8], at: usize) -> usize
        requires { at + room ≤ length page.old }
        ensures puts { Puts page.old at (bytes " " ++ text self.now) result page.new }
        ensures near { result ≤ at + room };
}

impl Number for u32 {
    ghost text = { decimal };

    ghost room = { 21 };

    fn put(&self, page: &mut [u8], at: usize) -> usize {
        let p = page::put_byte(page, at, b' ');
        page::put_number(page, p, u64::from(*self))
    }
}

impl Number for i32 {
    ghost text = { whole };

    ghost room = { 22 };

    fn put(&self, page: &mut [u8], at: usize) -> usize {
        next_whole(page, at, *self)
    }
}

// A space and a number, for each of the numbers.
pub fn row<N: Number>(page: &mut [u8], at: usize, numbers: &[N]) -> usize
    requires { at + length numbers.now * N.room ≤ length page.old }
    ensures { Puts page.old at (after_spaces (map N.text numbers.now)) result page.new }
{
    let mut p = at;
    for n in numbers {
        p = n.put(page, p);
    }
    p
}

// The words or the coordinates that were written, if any.
pub fn said<N: Number>(page: &mut [u8], at: usize, written: &[N]) -> usize
    requires { at + 2 + length written.now * N.room ≤ length page.old }
    ensures { Puts page.old at (said_of N.text written.now) result page.new }
{
    if written.is_empty() {
        return at;
    }
    let p = page::put_text(page, at, b" :");
    row(page, p, written)
}

// The number, and for a 5 the place of the coordinate that was first at fault. The 5 is the table's own, as in `reason_text`; tried: a `match`
// on `why` does not close, since nothing says in the arms left over that the reason is another.
pub fn reason(page: &mut [u8], at: usize, why: Result<(), Why>) -> usize
    requires { at + 47 ≤ length page.old }
    ensures { Puts page.old at (reason_text (given_of why)) result page.new }
{
    let n = reasons::number(why);
    let p = page::put_number(page, at, u64::from(n));
    if n != 5 {
        return p;
    }
    place(page, p, u64::from(reasons::place(why)))
}

// Symbols taken and words written, a space after each.
pub fn counts(page: &mut [u8], at: usize, taken: usize, written: usize) -> usize
    requires { at + 42 ≤ length page.old }
    ensures { Puts page.old at (decimal taken ++ bytes " " ++ decimal written ++ bytes " ") result page.new }
{
    let p = page::put_number(page, at, taken as u64);
    let p = page::put_byte(page, p, b' ');
    let p = page::put_number(page, p, written as u64);
    page::put_byte(page, p, b' ')
}
