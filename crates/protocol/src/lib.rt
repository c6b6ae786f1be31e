// What a line of the laboratory's protocol asks for.
//
// A line is tokens with one space between each two, and the first is a verb:
//
//     sender U                  receiver U                  piece CAP C C C C ..      sample HEX HEX
//     send W CAP                receiver U WINDOW free      finish CAP                pending
//     list CAP W W ..           receiver U WINDOW at S      marked CAP MARKS C ..     sample missing
//     card MAP U N ..
//
// ` square` at the end of `sender U` and of every `receiver ..` names the square map. An empty line, and one that starts with `#`, asks for
// nothing. Any other line is unread. `read` gives the request of every line, and specs/Request.antt says which it is. What the tokens after
// a verb ask for is the crate `requests`.
#![tactic(auto)]

ghost use Rattle.std.specs.Prelude.{◌≡◌, ◌∷◌, length};
ghost use Rattle.text.specs.Token.{tokens};
ghost use Rattle.requests.specs.Verb.{unless_unread};
ghost use Rattle.requests.specs.Named.{named};
ghost use Rattle.protocol.specs.Request.{verb_of, pending_alone, line_fills, word_fills, mark_fills, Reads};

use requests::Request;
use text::token;

// A token that stands alone.
fn alone(word: &[u8]) -> Request
    ensures { result ≡ pending_alone word.now }
{
    if token::same(word, b"pending") {
        return Request::Pending;
    }
    Request::Unread
}

// A verb and the tokens after it; `None` where they are unread.
#[tactic(auto, unfolding(crate::specs::Request::verb_of))]
fn asked(
    verb: &[u8],
    rest: &[u8],
    coordinates: &mut [i32],
    words: &mut [u32],
    marks: &mut [u8],
) -> Option<Request>
    ensures value { result ≡ unless_unread (verb_of (length coordinates.old) (length words.old) (length marks.old) verb.now (tokens rest.now)) }
    ensures coordinates_after { coordinates.new ≡ line_fills (verb.now ∷ tokens rest.now) coordinates.old }
    ensures words_after { words.new ≡ word_fills (verb.now ∷ tokens rest.now) words.old }
    ensures marks_after { marks.new ≡ mark_fills (verb.now ∷ tokens rest.now) marks.old }
{
    if token::same(verb, b"marked") {
        requests::marked::read(rest, coordinates, marks)
    } else if token::same(verb, b"list") {
        requests::list::read(rest, words)
    } else if token::same(verb, b"piece") {
        requests::piece::read(rest, coordinates)
    } else if token::same(verb, b"send") {
        requests::send::read(rest)
    } else if token::same(verb, b"sample") {
        requests::sample::read(rest)
    } else if token::same(verb, b"finish") {
        requests::finish::read(rest)
    } else if token::same(verb, b"receiver") {
        requests::receiver::read(rest)
    } else if token::same(verb, b"sender") {
        requests::sender::read(rest)
    } else if token::same(verb, b"card") {
        requests::card_verb::read(rest)
    } else {
        None
    }
}

// The request of a line. The coordinates and the marks of a piece and the words of a list go to the start of the list that is lent for
// them; a line that turns out to be unread may have put some there.
pub fn read(line: &[u8], coordinates: &mut [i32], words: &mut [u32], marks: &mut [u8]) -> Request
    ensures { Reads line.now (named coordinates.old words.old marks.old)
        result (named coordinates.new words.new marks.new) }
{
    if line.is_empty() || line[0] == b'#' {
        return Request::Nothing;
    }
    let n = token::before(line, b' ');
    if n == line.len() {
        return alone(line);
    }
    asked(&line[..n], &line[n + 1..], coordinates, words, marks).unwrap_or(Request::Unread)
}
