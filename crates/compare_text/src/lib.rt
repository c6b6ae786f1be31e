// The lines of a comparison as text, put into a lent page: specs/Says has the bytes. A line takes 40 bytes at most, its newline included.
#![tactic(auto)]

ghost use Rattle.std.specs.Prelude.{◌++◌, ◌+◌, ◌≤◌, length};
ghost use Rattle.page.specs.Page.{Puts};
ghost use Rattle.phrases.specs.Phrase.{decimal};
ghost use Rattle.compare_text.specs.Says.{line_text};

use compare_events::Line;

// A text, a number and a text.
fn around(page: &mut [u8], at: usize, head: &[u8], n: u64, tail: &[u8]) -> usize
    requires { at + length head.now + 20 + length tail.now ≤ length page.old }
    ensures puts { Puts page.old at (head.now ++ decimal n ++ tail.now) result page.new }
    ensures upper_bound { result ≤ at + length head.now + 20 + length tail.now }
{
    let p = page::put_text(page, at, head);
    let p = page::put_number(page, p, n);
    page::put_text(page, p, tail)
}

#[tactic(auto, unfolding(crate::specs::Says::line_text))]
pub fn put_line(page: &mut [u8], at: usize, line: Line) -> usize
    requires { at + 40 ≤ length page.old }
    ensures puts { Puts page.old at (line_text line) result page.new }
    ensures upper_bound { result ≤ at + 40 }
{
    match line {
        Line::Differs(n) => around(page, at, b"record ", n, b" differs\n"),
        Line::OnlyFirst(n) => around(page, at, b"record ", n, b" only first\n"),
        Line::OnlySecond(n) => around(page, at, b"record ", n, b" only second\n"),
        Line::Differences(n) => around(page, at, b"differences ", n, b"\n"),
        Line::FirstMalformed(p) => around(page, at, b"first malformed ", p, b"\n"),
        Line::SecondMalformed(p) => around(page, at, b"second malformed ", p, b"\n"),
    }
}
