// The points of the line: what both ends agree on, the first 256 A points, the quarter turn, and the round map's point with a label
// and a number. The square map stands in crate square, and crate maps has both.
//
// All coordinates are odd, and twice those of the paper. Label l has the A points turned clockwise l times: A 0, C 1, B 2,
// D 3. A caller makes the table once by `table::a_points` and lends it to `point_of`, the only way to a point.
#![tactic(auto)]

pub mod table;

ghost use Rattle.std.specs.Prelude.{◌≡◌, ◌<◌};
ghost use Rattle.points.specs.Agreed.{is_accord};
ghost use Rattle.points.specs.Points.{coordinates, a_point};
ghost use Rattle.points.specs.Turn.{turned, point_of, Small};

// Which points a line has.
#[derive(Clone, Copy)]
pub enum Map {
    Round,
    Square,
}

// What both ends of a line must agree on before the first word: the map, and the width u, the number of bits in w1 and in w2.
#[derive(Clone, Copy)]
pub struct Accord {
    pub map: Map,
    pub u: u32,
}

// Whether there is such a line.
pub fn is_accord(a: Accord) -> bool
    ensures { result ≡ is_accord a }
{
    let u = a.u;
    match a.map {
        Map::Round => u <= 8,
        Map::Square => u <= 8 && u % 2 == 0,
    }
}

#[derive(Clone, Copy)]
pub struct Point {
    pub x: i32,
    pub y: i32,
}

// The A point number w.
pub fn a_point(t: &[i8; 512], w: usize) -> Point
    requires { (t.now ≡ coordinates) × (w < 256) }
    ensures { result ≡ a_point w }
{
    let x = t[w * 2];
    let y = t[w * 2 + 1];
    Point {
        x: i32::from(x),
        y: i32::from(y),
    }
}

// A quarter turn clockwise: (x, y) goes to (y, -x).
pub fn quarter_turn(p: Point) -> Point
    requires { Small p }
    ensures { result ≡ turned p }
{
    Point { x: p.y, y: -p.x }
}

// The point with label l and number w: A point w, turned clockwise l times.
pub fn point_of(t: &[i8; 512], l: u32, w: usize) -> Point
    requires { (t.now ≡ coordinates) × (w < 256) }
    ensures { result ≡ point_of l w }
{
    let mut p = a_point(t, w);
    for _ in 0..l {
        p = quarter_turn(p);
    }
    p
}
