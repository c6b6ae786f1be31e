// `finish CAP`: one number, the length of an output. The numbers are read by `text`.
ghost use Rattle.std.specs.Prelude.{◌≡◌};
ghost use Rattle.text.specs.Token.{tokens};
ghost use Rattle.requests.specs.Verb.{unless_unread, finish_of};

use crate::Request;

pub fn read(rest: &[u8]) -> Option<Request>
    ensures { result ≡ unless_unread (finish_of (tokens rest.now)) }
{
    let cap = crate::cap_of(rest)?;
    Some(Request::Finish { cap })
}
