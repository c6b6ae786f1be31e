// The line that tells what a salvage changed: specs/Says has its bytes. It is given by value, at most 111 bytes, its newline included.
#![tactic(auto)]

ghost use Rattle.std.specs.Prelude.{◌≡◌, ◌++◌, ◌+◌, ◌≤◌, length, take};
ghost use Rattle.page.specs.Page.{Puts};
ghost use Rattle.phrases.specs.Phrase.{decimal};
ghost use Rattle.salvage_text.specs.Says.{changes_line};

// There is no heap, so the text lies in an array, and `bytes` gives as much of it as the line has.
#[derive(Clone, Copy)]
pub struct Line {
    pub text: [u8; 111],
    pub size: usize,
}

impl Line {
    // The line itself, of the text that it lies in.
    pub fn bytes(&self) -> &[u8]
        requires { self.now.size ≤ 111 }
        ensures { result.now ≡ take self.now.size self.now.text }
    {
        &self.text[..self.size]
    }
}

// A text and a number.
fn counted(page: &mut [u8], at: usize, text: &[u8], n: u64) -> usize
    requires { at + length text.now + 20 ≤ length page.old }
    ensures puts { Puts page.old at (text.now ++ decimal n) result page.new }
    ensures upper_bound { result ≤ at + length text.now + 20 }
{
    let p = page::put_text(page, at, text);
    page::put_number(page, p, n)
}

fn put_line(page: &mut [u8], replaced: u64, added: u64, removed: u64, cut: u64) -> usize
    requires { 111 ≤ length page.old }
    ensures { Puts page.old 0 (changes_line replaced added removed cut) result page.new }
{
    let p = counted(page, 0, b"replaced ", replaced);
    let p = counted(page, p, b" added ", added);
    let p = counted(page, p, b" removed ", removed);
    let p = counted(page, p, b" cut ", cut);
    page::put_byte(page, p, b'\n')
}

pub fn line_of(replaced: u64, added: u64, removed: u64, cut: u64) -> Line
    ensures { (take result.size result.text ≡ changes_line replaced added removed cut) × (result.size ≤ 111) }
{
    let mut text = [0u8; 111];
    let size = put_line(&mut text, replaced, added, removed, cut);
    Line { text, size }
}
