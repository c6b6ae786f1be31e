// What is looked at of a piece before a machine hears any of it: whether it fits, the mark of each symbol, and each symbol as it was received,
// with the place of its first coordinate out of range. No receiver is needed for it; `pieces` and the doors ask here.
#![tactic(auto)]

ghost use Rattle.std.specs.Prelude.{◌≡◌, ◌+◌, ◌≤◌, get_or, length};
ghost use Rattle.nearest.specs.Found.{heard_as};
ghost use Rattle.receiver_meaning.specs.Told.{fault_at, fault_of};
ghost use Rattle.receiver_meaning.specs.Piece.{point_from, fits_with, marks_of};
ghost use Rattle.piece_input.specs.Marks.{is_marked, marks_in};
ghost use Rattle.piece_input.specs.Looks.{symbol_in, place_below, Looks};

use distance::Spot;
use nearest::Received;

// Whether so many coordinates make whole symbols, and the marks, where the piece has any, are one for each.
pub fn fits(marks: Option<&[u8]>, count: usize) -> bool
    ensures { result ≡ fits_with (is_marked marks.entry) (marks_in marks.entry) count }
{
    if count % 4 != 0 {
        return false;
    }
    match marks {
        None => true,
        Some(marks) => count / 4 == marks.len() && lists::bytes_up_to(marks, 3),
    }
}

// The mark of the symbol j: 0, nothing missing, where there is none.
pub fn mark_at(marks: Option<&[u8]>, j: usize) -> u8
    ensures { result ≡ get_or (marks_of (is_marked marks.entry) (marks_in marks.entry)) j 0 }
{
    match marks {
        None => 0,
        Some(marks) => marks.get(j).copied().unwrap_or(0),
    }
}

// A received point. The coordinates of a missing one are not looked at.
fn point(missing: bool, x: i32, y: i32) -> Received
    ensures { result ≡ point_from missing x y }
{
    if missing {
        Received::Missing
    } else {
        Received::Heard(Spot { x, y })
    }
}

// The place of a point's first coordinate out of range; a missing point has none.
fn fault_at(h: Received) -> Option<u32>
    ensures { result ≡ place_below 2 (fault_at h) }
{
    let Received::Heard(s) = h else {
        return None;
    };
    if !nearest::is_coordinate(s.x) {
        return Some(0);
    }
    if !nearest::is_coordinate(s.y) {
        return Some(1);
    }
    None
}

// The place of the first coordinate of a symbol out of range.
fn fault(first: Received, second: Received) -> Option<u32>
    ensures { result ≡ place_below 4 (fault_of (heard_as first second)) }
{
    if let Some(place) = fault_at(first) {
        return Some(place);
    }
    match fault_at(second) {
        Some(place) => Some(2 + place),
        None => None,
    }
}

// The two points of a symbol, and the place of its first coordinate out of range.
#[derive(Clone, Copy)]
pub struct Looked {
    pub first: Received,
    pub second: Received,
    pub place: Option<u32>,
}

// The symbol of a piece from the place i on, with its mark.
pub fn look(mark: u8, samples: &[i32], i: usize) -> Looked
    requires { i + 4 ≤ length samples.now }
    ensures { Looks (symbol_in mark samples.now i) result }
{
    let first = point(mark % 2 == 1, samples[i], samples[i + 1]);
    let second = point(2 <= mark, samples[i + 2], samples[i + 3]);
    Looked {
        first,
        second,
        place: fault(first, second),
    }
}
