// `send W CAP`: a word, and the length of an output. The word is any number; the sender says which words there are.
ghost use Rattle.std.specs.Prelude.{◌≡◌};
ghost use Rattle.text.specs.Token.{tokens};
ghost use Rattle.requests.specs.Verb.{unless_unread, send_of};

use crate::Request;
use text::token;

pub fn read(rest: &[u8]) -> Option<Request>
    ensures { result ≡ unless_unread (send_of (tokens rest.now)) }
{
    let n = token::before(rest, b' ');
    if n == rest.len() {
        return None;
    }
    let word = crate::number_of(&rest[..n])?;
    let cap = crate::cap_of(&rest[n + 1..])?;
    Some(Request::Send { word, cap })
}
