// The point with a label and a number on either map, round or square.
//
// Both ends agree on the map and on the width (`points::Accord`). Everything above speaks of a map by the laws of specs/PointMap, which
// both meet, so that nothing is said twice. A caller makes the round map's table once by `points::table::a_points` and lends it.
//
// The contract is an equation of the result with one definition, so any two results that it allows are equal.
#![tactic(auto)]

pub mod square;

ghost use Rattle.std.specs.Prelude.{◌≡◌, true, ◌^◌, ◌<◌};
ghost use Rattle.points.specs.Points.{coordinates};
ghost use Rattle.points.specs.Agreed.{has_width};
ghost use Rattle.maps.specs.PointMap.{point_on};

use points::{Map, Point};

// The point with label l and number w.
pub fn point_on(t: &[i8; 512], map: Map, u: u32, l: u32, w: u32) -> Point
    requires { (t.now ≡ coordinates) × (has_width map u ≡ true) × (l < 4) × (w < 2 ^ u) }
    ensures { result ≡ point_on map u l w }
{
    match map {
        Map::Round => points::point_of(t, l, w as usize),
        Map::Square => square::point_of(u, l, w),
    }
}
