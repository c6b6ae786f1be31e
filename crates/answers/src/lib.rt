// The answers, a line each, put into the page: what each one says is in specs/Answer.antt. Every function asks for the room that
// its text can take, and answers with the place after it. The parts of a line are those of `phrases`.
#![tactic(auto)]

ghost use Rattle.std.specs.Prelude.{◌+◌, ◌≤◌, length};
ghost use Rattle.page.specs.Page.{Puts};
ghost use Rattle.reasons.specs.Reason.{given_of};
ghost use Rattle.phrases.specs.Phrase.{words_room, wholes_room};
ghost use Rattle.answers.specs.Answer.{number_line, sent_line, list_line, heard_line, pair_line, refused_line, missing_line, card_line, unread_line};

use reasons::Why;

pub fn unread(page: &mut [u8], at: usize) -> usize
    requires { at + 2 ≤ length page.old }
    ensures { Puts page.old at unread_line result page.new }
{
    page::put_text(page, at, b"?\n")
}

// The answer to a sample that is missing.
pub fn missing(page: &mut [u8], at: usize) -> usize
    requires { at + 8 ≤ length page.old }
    ensures { Puts page.old at missing_line result page.new }
{
    page::put_text(page, at, b"missing\n")
}

// The answer to a card.
pub fn card(page: &mut [u8], at: usize, accepted: bool) -> usize
    requires { at + 9 ≤ length page.old }
    ensures { Puts page.old at (card_line accepted) result page.new }
{
    if accepted {
        return page::put_text(page, at, b"accepted\n");
    }
    page::put_text(page, at, b"refused\n")
}

pub fn number(page: &mut [u8], at: usize, n: u64) -> usize
    requires { at + 21 ≤ length page.old }
    ensures { Puts page.old at (number_line n) result page.new }
{
    let p = page::put_number(page, at, n);
    phrases::end(page, p)
}

// The number, and the four coordinates where it is 0.
pub fn sent(page: &mut [u8], at: usize, n: u32, out: &[i32]) -> usize
    requires { at + 109 ≤ length page.old }
    ensures { Puts page.old at (sent_line n out.now) result page.new }
{
    let p = page::put_number(page, at, u64::from(n));
    if n != 0 || out.len() < 4 {
        return phrases::end(page, p);
    }
    let p = phrases::next_pair(page, p, out[0], out[1]);
    let p = phrases::next_pair(page, p, out[2], out[3]);
    phrases::end(page, p)
}

// How many words of a list were sent, the number, and the coordinates that were written.
pub fn list(page: &mut [u8], at: usize, sent: usize, n: u32, written: &[i32]) -> usize
    requires { at + 44 + wholes_room (length written.now) ≤ length page.old }
    ensures { Puts page.old at (list_line sent n written.now) result page.new }
{
    let p = page::put_number(page, at, sent as u64);
    let p = page::put_byte(page, p, b' ');
    let p = page::put_number(page, p, u64::from(n));
    let p = phrases::said(page, p, written);
    phrases::end(page, p)
}

pub fn pair(page: &mut [u8], at: usize, x: i32, y: i32) -> usize
    requires { at + 44 ≤ length page.old }
    ensures { Puts page.old at (pair_line x y) result page.new }
{
    let p = page::put_whole(page, at, x);
    let p = phrases::next_whole(page, p, y);
    phrases::end(page, p)
}

pub fn refused(page: &mut [u8], at: usize, k: u8) -> usize
    requires { at + 29 ≤ length page.old }
    ensures { Puts page.old at (refused_line k) result page.new }
{
    let p = page::put_byte(page, at, b'5');
    let p = phrases::place(page, p, u64::from(k));
    phrases::end(page, p)
}

// The answer to a piece or a finish that wrote these words.
pub fn heard(
    page: &mut [u8],
    at: usize,
    taken: usize,
    why: Result<(), Why>,
    written: &[u32],
) -> usize
    requires { at + 92 + words_room (length written.now) ≤ length page.old }
    ensures { Puts page.old at (heard_line taken (given_of why) written.now) result page.new }
{
    let p = phrases::counts(page, at, taken, written.len());
    let p = phrases::reason(page, p, why);
    let p = phrases::said(page, p, written);
    phrases::end(page, p)
}
