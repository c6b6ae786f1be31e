// How far a received point is from a point of the table, and the quarter turn back.
//
// The point with label l is an A point turned clockwise l times, so its distance from a received point is that of the A point
// from the received point turned back l times. A search for all labels reads the A points alone and turns no candidate.
ghost use Rattle.std.specs.Prelude.{◌≡◌, ◌≤◌, nat_abs};
ghost use Rattle.points.specs.Turn.{Small};
ghost use Rattle.distance.specs.Distance.{SpotInRange, difference, square, distance};
ghost use Rattle.round_search.specs.Key.{turned_back};

use distance::Spot;
use points::Point;

// The square of the signed difference of r from the point coordinate c, which stands at 128·c. Sixteen bits hold the
// difference, so that a search takes eight at a time.
fn squared(r: i32, c: i32) -> u32
    requires { (nat_abs r ≤ 8192) × (nat_abs c ≤ 39) }
    ensures { result ≡ square (difference r c) }
{
    let a = r as i16;
    let b = c as i16;
    let d = i32::from(a - 128 * b);
    (d * d) as u32
}

pub fn distance_from(h: Spot, p: Point) -> u32
    requires { SpotInRange h × Small p }
    ensures { result ≡ distance h p }
{
    squared(h.x, p.x) + squared(h.y, p.y)
}

pub fn turned_back(h: Spot) -> Spot
    requires { SpotInRange h }
    ensures { (result ≡ turned_back h) × SpotInRange result }
{
    Spot { x: -h.y, y: h.x }
}
