// `piece CAP C C C C ..`: the number of an output, and then nothing or coordinates, which go to the start of the list that is lent.
ghost use Rattle.std.specs.Prelude.{◌≡◌, length};
ghost use Rattle.text.specs.Token.{tokens};
ghost use Rattle.requests.specs.Verb.{unless_unread, piece_of, piece_fills};

use crate::Request;
use text::token;

// The coordinates are put into the list even where the cap is none.
pub fn read(rest: &[u8], coordinates: &mut [i32]) -> Option<Request>
    ensures value { result ≡ unless_unread (piece_of (length coordinates.old) (tokens rest.now)) }
    ensures coordinates_after { coordinates.new ≡ piece_fills (tokens rest.now) coordinates.old }
{
    let n = token::before(rest, b' ');
    let count = crate::coordinates_after(rest, n, coordinates);
    let cap = crate::cap_of(&rest[..n])?;
    let count = count?;
    Some(Request::Piece { cap, count })
}
