// `marked CAP MARKS C C C C ..`: the number of an output, the marks of the symbols, and then coordinates as of a piece. The marks are read
// by `line_fields::marks`; they and the coordinates go to the start of the lists that are lent.
ghost use Rattle.std.specs.Prelude.{◌≡◌, length, drop};
ghost use Rattle.text.specs.Token.{tokens};
ghost use Rattle.requests.specs.Verb.{unless_unread, marked_after, coordinate_fills, marks_after, marked_of, marked_fills, marks_of};

use crate::Request;
use line_fields::marks;
use text::token;

// What stands after the cap: the marks, and then nothing or coordinates. They are put into the lists even where the cap is none.
fn after_cap(
    cap: Option<u32>,
    rest: &[u8],
    coordinates: &mut [i32],
    marks: &mut [u8],
) -> Option<Request>
    ensures value { result ≡ unless_unread (marked_after (length coordinates.old) (length marks.old) cap (tokens rest.now)) }
    ensures coordinates_after { coordinates.new ≡ coordinate_fills (drop 1 (tokens rest.now)) coordinates.old }
    ensures marks_after { marks.new ≡ marks_after (tokens rest.now) marks.old }
{
    let n = token::before(rest, b' ');
    let row = marks::read(&rest[..n], marks);
    let count = crate::coordinates_after(rest, n, coordinates);
    let cap = cap?;
    let marks = row?;
    let count = count?;
    Some(Request::Marked { cap, marks, count })
}

pub fn read(rest: &[u8], coordinates: &mut [i32], marks: &mut [u8]) -> Option<Request>
    ensures value { result ≡ unless_unread (marked_of (length coordinates.old) (length marks.old) (tokens rest.now)) }
    ensures coordinates_after { coordinates.new ≡ marked_fills (tokens rest.now) coordinates.old }
    ensures marks_after { marks.new ≡ marks_of (tokens rest.now) marks.old }
{
    let n = token::before(rest, b' ');
    if n == rest.len() {
        return None;
    }
    let cap = crate::cap_of(&rest[..n]);
    after_cap(cap, &rest[n + 1..], coordinates, marks)
}
