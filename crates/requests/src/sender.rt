// `sender U` and `sender U square`: one number, the width, and the map. It is any number; the sender says which widths there are.
ghost use Rattle.std.specs.Prelude.{◌≡◌};
ghost use Rattle.text.specs.Token.{tokens};
ghost use Rattle.requests.specs.Verb.{unless_unread, sender_of};

use crate::Request;
use line_fields::map_names;
use points::Accord;

pub fn read(rest: &[u8]) -> Option<Request>
    ensures { result ≡ unless_unread (sender_of (tokens rest.now)) }
{
    let read = map_names::number_and_map(rest)?;
    Some(Request::Sender {
        accord: Accord {
            map: read.map,
            u: read.number,
        },
    })
}
