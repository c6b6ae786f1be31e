// The nearest point of each label on the square map, for what a receiver hears.
//
// A label's points stand on a lattice of their own, 512 line units apart on each axis, so the nearest is found on each axis alone,
// by rounding and clamping, and needs no table. Ties fall to the smaller number. A number is woven of a field for each axis, each the
// place of its coordinate in two's complement, and grows with both: of two places equally near, that with the smaller field is taken. It
// is the lower one, but for the two places around 0, where the lower one is negative, has the field of ones, and loses.
//
// The contract of `search` is an equation of the result with one definition, so any two results that it allows are equal.
#![tactic(auto)]

ghost use Rattle.std.specs.Prelude.{◌≡◌, true, ◌≤◌, ◌<◌, nat_abs};
ghost use Rattle.maps.specs.SquareMap.{is_width};
ghost use Rattle.distance.specs.Distance.{SpotInRange};
ghost use Rattle.distance.specs.Found.{found_by};
ghost use Rattle.square_search.specs.Found.{square_distance};
ghost use Rattle.square_search.specs.Axis.{origin_of, rounded_of, stop_of, stops_of, SmallStop, joined_of};

use distance::{Candidate, Found, Spot};

// The nearest place on an axis: its bits in the number, two places apart, and its squared distance.
#[derive(Clone, Copy)]
struct Stop {
    s: u32,
    d: u32,
}

// The nearest places on an axis of the labels with the bit 0 there, and of those with the bit 1.
#[derive(Clone, Copy)]
struct Stops {
    zero: Stop,
    one: Stop,
}

// How far r lies from the place 0 of a label whose bit on this axis is 0.
fn origin(r: i32) -> u32
    requires { nat_abs r ≤ 8192 }
    ensures { result ≡ origin_of r }
{
    (r + 8576) as u32
}

// The nearest place, where place t stands at 512·t: halves go down, but between 16 and 17 up.
fn rounded(g: u32) -> u32
    requires { g ≤ 16768 }
    ensures { result ≡ rounded_of g }
{
    if g == 8448 { 17 } else { (g + 255) >> 9 }
}

// The nearest place of a label with the bit e on this axis, of 2^m places, to what lies g from its place 0.
fn nearest_stop(m: u32, e: u32, g: u32) -> Stop
    requires { (m < 5) × (e < 2) × (g ≤ 16768) }
    ensures { result ≡ stop_of m e g }
{
    let side = 1u32 << m;
    let lo = 17 - ((side + e) >> 1);
    let t = rounded(g).clamp(lo, lo + (side - 1));
    let s = maps::square::spread_out((t + 15) & (side - 1));
    let far = g.abs_diff(t << 9);
    Stop { s, d: far * far }
}

// The nearest places to the received coordinate r.
fn both_stops(m: u32, r: i32) -> Stops
    requires { (m < 5) × (nat_abs r ≤ 8192) }
    ensures { result ≡ stops_of m r }
{
    let g = origin(r);
    Stops {
        zero: nearest_stop(m, 0, g),
        one: nearest_stop(m, 1, g - 256),
    }
}

// The point with these two places.
fn joined(x: Stop, y: Stop) -> Candidate
    requires { SmallStop x × SmallStop y }
    ensures { result ≡ joined_of x y }
{
    Candidate {
        w: ((x.s << 1) + y.s) as u8,
        d: x.d + y.d,
    }
}

// The nearest number of each label, and its squared distance: A has the bits 0 and 0 on the axes, C 0 and 1, B 1 and 1, D 1 and 0.
pub fn search(u: u32, h: Spot) -> Found
    requires { (is_width u ≡ true) × SpotInRange h }
    ensures { result ≡ found_by u (square_distance u) h }
{
    let m = u >> 1;
    let xs = both_stops(m, h.x);
    let ys = both_stops(m, h.y);
    Found::of(
        joined(xs.zero, ys.zero),
        joined(xs.zero, ys.one),
        joined(xs.one, ys.one),
        joined(xs.one, ys.zero),
    )
}
