// The square map: the even-width grid of source document 003, 6.9.4.1, by the bits of its points.
//
// With b = u + 2 bits v, x has the two's complement bits v(b-1), v(b-3), .., v1, 1 and y has v(b-2), .., v0, 1. The label is in
// v1 and v0, A 00, C 01, B 11, D 10, and the number is the rest. A map by shifts and masks needs no table, and neither does its
// inverse.
//
// `point_of` answers the one point that its contract names. `place_of` answers the label and the number of which `point_of` makes the
// point that was given, and no other pair makes it (proofs/SquareLaws, `one_place`).
ghost use Rattle.std.specs.Prelude.{◌≡◌, true, ◌+◌, ◌^◌, ◌<◌, nat_abs};
ghost use Rattle.maps.specs.SquareMap.{is_width, square_of, OnGrid};
ghost use Rattle.maps.specs.SquareBits.{gathered, spread, coordinate, field_of};
ghost use Rattle.maps.specs.SquareInverse.{IsPlace};

use points::Point;

// A label and a number.
#[derive(Clone, Copy)]
pub struct Place {
    pub l: u32,
    pub w: u32,
}

// The even bits of v, moved together.
fn gather(v: u32) -> u32
    requires { v < 1024 }
    ensures { result ≡ gathered v }
{
    let single = v & 0x155;
    let pairs = (single | (single >> 1)) & 0x333;
    let fours = (pairs | (pairs >> 2)) & 0x30f;
    (fours | (fours >> 4)) & 0x1f
}

// The bits of k, moved two places apart.
pub fn spread_out(k: u32) -> u32
    requires { k < 32 }
    ensures { result ≡ spread k }
{
    let fours = (k | (k << 4)) & 0x10f;
    let pairs = (fours | (fours << 2)) & 0x133;
    (pairs | (pairs << 1)) & 0x155
}

// The coordinate with the m + 1 bits k and a 1 behind them, in two's complement: the highest bit counts negative.
fn coordinate_of(m: u32, k: u32) -> i32
    requires { (m < 5) × (k < 2 ^ (m + 1)) }
    ensures { result ≡ coordinate m k }
{
    let plain = (k << 1) | 1;
    let sign = (k >> m) << (m + 2);
    plain as i32 - sign as i32
}

// The m + 1 bits of a coordinate, without the 1 behind them.
fn field(m: u32, z: i32) -> u32
    requires { (m < 5) × (nat_abs z < 2 ^ (m + 1)) }
    ensures { result ≡ field_of m z }
{
    (((z + 64) as u32) >> 1) & ((2u32 << m) - 1)
}

// The point with label l and number w. A label's bits v1 and v0 are its number in Gray's code: 0, 1, 3, 2.
pub fn point_of(u: u32, l: u32, w: u32) -> Point
    requires { (is_width u ≡ true) × (l < 4) × (w < 2 ^ u) }
    ensures { result ≡ square_of u l w }
{
    let v = (w << 2) | (l ^ (l >> 1));
    let m = u >> 1;
    let x = gather(v >> 1);
    let y = gather(v);
    Point {
        x: coordinate_of(m, x),
        y: coordinate_of(m, y),
    }
}

// The label and the number of a point of the grid.
pub fn place_of(u: u32, p: Point) -> Place
    requires { (is_width u ≡ true) × OnGrid u p }
    ensures { IsPlace u p result }
{
    let m = u >> 1;
    let x = spread_out(field(m, p.x));
    let y = spread_out(field(m, p.y));
    let v = (x << 1) | y;
    let low = v & 3;
    Place {
        l: low ^ (low >> 1),
        w: v >> 2,
    }
}
