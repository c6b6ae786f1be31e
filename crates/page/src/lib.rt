// Text put into a lent page. A page is a slice that the caller lends with the place from which it is free: each `put_..` writes there
// and answers with the next free place. It asks for the room that it needs, so nothing is ever cut short. The memory is the caller's and
// fixed, with no heap: a rule of the project, so a page is no growing text.
#![tactic(auto)]

ghost use Rattle.std.specs.Prelude.{◌≡◌, ◌+◌, ◌≤◌, [], ◌∷◌, length};
ghost use Rattle.page.specs.Page.{Puts, PutsNumber, PutsWhole};

pub fn put_text(page: &mut [u8], at: usize, text: &[u8]) -> usize
    requires { at + length text.now ≤ length page.old }
    ensures { Puts page.old at text.now result page.new }
{
    // No `copy_from_slice`: by it the archive for C needs `memmove` too.
    for (i, b) in text.iter().enumerate() {
        page[at + i] = *b;
    }
    at + text.len()
}

pub fn put_byte(page: &mut [u8], at: usize, b: u8) -> usize
    requires { at + 1 ≤ length page.old }
    ensures { Puts page.old at (b ∷ []) result page.new }
{
    page[at] = b;
    at + 1
}

// A number in decimal digits, as few as hold it: twenty at most.
pub fn put_number(page: &mut [u8], at: usize, n: u64) -> usize
    requires { at + 20 ≤ length page.old }
    ensures { PutsNumber page.old at n result page.new }
{
    let mut digits = [0u8; 20];
    let k = io::decimal(n, &mut digits);
    put_text(page, at, &digits[..k])
}

// A whole number, with a minus below 0.
pub fn put_whole(page: &mut [u8], at: usize, x: i32) -> usize
    requires { at + 21 ≤ length page.old }
    ensures { PutsWhole page.old at x result page.new }
{
    let size = u64::from(x.unsigned_abs());
    if x < 0 {
        let p = put_byte(page, at, b'-');
        return put_number(page, p, size);
    }
    put_number(page, at, size)
}
