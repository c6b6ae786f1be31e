// `sample HEX HEX`: the bits of two floats; `sample missing`: none. The digits are read by `text`.
ghost use Rattle.std.specs.Prelude.{◌≡◌};
ghost use Rattle.text.specs.Token.{tokens};
ghost use Rattle.requests.specs.Verb.{unless_unread, sample_of};

use crate::Request;
use text::{number, token};

pub fn read(rest: &[u8]) -> Option<Request>
    ensures { result ≡ unless_unread (sample_of (tokens rest.now)) }
{
    let n = token::before(rest, b' ');
    if n == rest.len() {
        if token::same(rest, b"missing") {
            return Some(Request::Missing);
        }
        return None;
    }
    let x = number::hex(&rest[..n])?;
    let y = number::hex(&rest[n + 1..])?;
    Some(Request::Sample { x, y })
}
