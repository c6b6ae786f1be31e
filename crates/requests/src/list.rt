// `list CAP W W ..`: the number of an output, and then nothing or words, which go to the start of the list that is lent.
ghost use Rattle.std.specs.Prelude.{◌≡◌, length};
ghost use Rattle.text.specs.Token.{tokens};
ghost use Rattle.requests.specs.Verb.{unless_unread, list_of, list_fills};

use crate::Request;
use text::token;

pub fn read(rest: &[u8], words: &mut [u32]) -> Option<Request>
    ensures value { result ≡ unless_unread (list_of (length words.old) (tokens rest.now)) }
    ensures words_after { words.new ≡ list_fills (tokens rest.now) words.old }
{
    let n = token::before(rest, b' ');
    let cap = crate::cap_of(&rest[..n])?;
    if n == rest.len() {
        return Some(Request::List { cap, count: 0 });
    }
    let count = number_lists::list(&rest[n + 1..], words)?;
    if count > crate::MOST_WORDS {
        return None;
    }
    Some(Request::List { cap, count })
}
