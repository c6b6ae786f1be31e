// What the tokens after each verb of the laboratory's protocol ask for: a file for each verb, and the requests that they name. The marks of a
// piece and the map of an opening are read by `line_fields`.
// A number is decimal digits and nothing else, zeros in front allowed; U, W, WINDOW, S and CAP are 0 to 4294967295, and a CAP is
// 4096 at most. A coordinate C may have one `-` before it and has 32 bits. HEX is eight hexadecimal digits, small or large.
// Other tokens are unread: `read` of each verb gives `None`, and whoever reads a line makes `Request::Unread` of it. specs/Verb.antt says what each verb asks for, and of `card` specs/Asked.antt.
#![tactic(auto)]

pub mod card_verb;
pub mod finish;
pub mod list;
pub mod marked;
pub mod piece;
pub mod receiver;
pub mod sample;
pub mod send;
pub mod sender;

ghost use Rattle.std.specs.Prelude.{◌≡◌, length, drop};
ghost use Rattle.text.specs.Token.{tokens, Cuts};
ghost use Rattle.number_lists.specs.Many.{whole_in, many_of};
ghost use Rattle.requests.specs.Verb.{any_number, cap_number, coordinate_fills};

use points::Accord;
use text::number;

#[derive(Clone, Copy)]
pub enum Request {
    // An empty line or a comment.
    Nothing,
    // A line that is none of the protocol's.
    Unread,
    Sender {
        accord: Accord,
    },
    Send {
        word: u32,
        cap: u32,
    },
    // A receiver with the plain window and a free start.
    Plain {
        accord: Accord,
    },
    Free {
        accord: Accord,
        window: u32,
    },
    At {
        accord: Accord,
        window: u32,
        state: u32,
    },
    // The coordinates are at the start of the list that was lent.
    Piece {
        cap: u32,
        count: usize,
    },
    Finish {
        cap: u32,
    },
    // The bits of two floats.
    Sample {
        x: u32,
        y: u32,
    },
    Pending,
    // The words are at the start of the list that was lent for them.
    List {
        cap: u32,
        count: usize,
    },
    // A sample that was never got.
    Missing,
    // The marks and the coordinates are at the start of the lists that were lent for them.
    Marked {
        cap: u32,
        marks: usize,
        count: usize,
    },
    // Whether the card of the line is accepted: its lists are looked at while the line is read.
    Card {
        accepted: bool,
    },
}

// The most words that a line can send.
const MOST_WORDS: usize = 1024;

// The longest output that a line can ask for.
const MOST: u32 = 4096;

pub fn number_of(token: &[u8]) -> Option<u32>
    ensures { result ≡ any_number token.now }
{
    number::decimal(token, u32::MAX)
}

fn cap_of(token: &[u8]) -> Option<u32>
    ensures { result ≡ cap_number token.now }
{
    number::decimal(token, MOST)
}

// The coordinates that stand after the first token, which ends at n: none where the text ends there.
fn coordinates_after(rest: &[u8], n: usize, list: &mut [i32]) -> Option<usize>
    requires { Cuts 32 rest.now n }
    ensures value { result ≡ many_of whole_in (length list.old) (drop 1 (tokens rest.now)) }
    ensures list_after { list.new ≡ coordinate_fills (drop 1 (tokens rest.now)) list.old }
{
    if n == rest.len() {
        return Some(0);
    }
    number_lists::list(&rest[n + 1..], list)
}
