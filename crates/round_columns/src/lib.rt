// The nearest A points by places and columns: a quick search for all four labels on the round map.
//
// The A points stand 512 line units apart. If a point of the width stands at the nearest place, halves towards the middle, where the
// smaller number is, that is the nearest. Else the received point is outside, and it is seen from the middle point (1, 1) along its longer
// side. Then the nearest point is in one of the four outermost columns of the width, in the nearest row of that: a point further in is
// beaten by one a column further out, in the same row or in the row below. So a label takes one look-up, and four columns where that does
// not answer, wherever the point was received; the plain loop looks at up to 256 points.
//
// A label's points are the A points turned, so the received point is turned back instead: four coordinates, x, -x, y and -y, serve
// all labels. Coordinates are counted from 95 units below zero, so that the middle point stands at 12288 = 24 · 512 and nothing is
// negative. The contract is an equation of the result with `near_keys` (specs/Near), so any two results that it allows are equal.
#![tactic(auto)]

ghost use Rattle.std.specs.Prelude.{◌≡◌, ◌+◌, ◌-◌, ◌*◌, ◌≤◌, ◌<◌, nat_abs};
ghost use Rattle.round_places.specs.Places.{listed, Wide, number_at};
ghost use Rattle.round_columns.specs.Near.{near_keys};
ghost use Rattle.round_columns.specs.Cells.{count_of, Counted, side_of, Sided, Seen, Viewed, InColumn, Outside};
ghost use Rattle.round_columns.specs.Cells.{LeastKey, are_near, Near, place_of};

// A key for each label, distance plus number: A, C, B and D are 0, 1, 2 and 3. Four fields and no array, since the contracts speak of each
// label by its name.
#[derive(Clone, Copy)]
pub struct Keys {
    pub a: u32,
    pub c: u32,
    pub b: u32,
    pub d: u32,
}

// A coordinate as seen from the middle point: 1 for left or down, and how far.
#[derive(Clone, Copy)]
pub struct Side {
    pub back: u32,
    pub far: u32,
}

// A received point as seen from the middle point, at the width u: the view along its longer side, what one column and one row of that view are
// in the table, onwards and back, and how far the point is along the longer side and beside it.
#[derive(Clone, Copy)]
pub struct View {
    pub u: u32,
    pub o: u32,
    pub ahead: u32,
    pub back: u32,
    pub rise: u32,
    pub fall: u32,
    pub far: u32,
    pub short: u32,
}

// A received coordinate counted from 95 units below zero.
fn counted(z: i32) -> u32
    requires { nat_abs z ≤ 8192 }
    ensures { result ≡ count_of z }
{
    (z + 12160) as u32
}

fn side_of(v: u32) -> Side
    requires { Counted v }
    ensures { (result ≡ side_of v) × Sided result }
{
    if v < 12288 {
        return Side {
            back: 1,
            far: 12288 - v,
        };
    }
    Side {
        back: 0,
        far: v - 12288,
    }
}

fn seen(u: u32, x: Side, y: Side) -> View
    requires { Sided x × Sided y }
    ensures { Seen u x y result }
{
    let plain = View {
        u,
        o: 4 * x.back + 2 * y.back,
        ahead: 19 * (1 - x.back),
        back: 19 * x.back,
        rise: 1 - y.back,
        fall: y.back,
        far: x.far,
        short: y.far,
    };
    if y.far <= x.far {
        return plain;
    }
    View {
        o: plain.o + 1,
        ahead: plain.rise,
        back: plain.fall,
        rise: plain.ahead,
        fall: plain.back,
        far: plain.short,
        short: plain.far,
        ..plain
    }
}

// The number in column m and row e.
fn number_in(t: &[u8; 521], s: View, m: u32, e: u32) -> u32
    requires { (t.now ≡ listed) × Viewed s × (m < 10) × (e < 10) }
    ensures { result ≡ number_at s.o m e }
{
    round_places::number(
        t,
        180 + (s.ahead * m + s.rise * e) - (s.back * m + s.fall * e),
    )
}

// The key of the nearest row of the rim's i-th column, halves to the smaller.
fn column(t: &[u8; 521], s: View, i: u32) -> u32
    requires { (t.now ≡ listed) × Viewed s × (i < 4) }
    ensures { InColumn s i result }
{
    let k = round_places::rim(t, s.u, s.o, i);
    let m = k / 16;
    let e = ((s.short + 255) / 512).min(k % 16);
    let a = s.far.abs_diff(512 * m);
    let b = s.short.abs_diff(512 * e);
    a * a + b * b + number_in(t, s, m, e)
}

// The least key where the nearest place shows no point of the width: that of the rim.
fn outer(t: &[u8; 521], u: u32, x: u32, y: u32) -> u32
    requires { (t.now ≡ listed) × Wide u × Counted x × Counted y × Outside u x y }
    ensures { LeastKey u x y result }
{
    let s = seen(u, side_of(x), side_of(y));
    let mut best = column(t, s, 0);
    for i in 1..4 {
        best = best.min(column(t, s, i));
    }
    best
}

// The nearest place of a count, halves towards the middle.
fn placed(v: u32) -> u32
    requires { Counted v }
    ensures { result ≡ place_of v }
{
    if v < 12288 {
        (v + 256) / 512
    } else {
        (v + 255) / 512
    }
}

// The least key of a point that is near: that of the nearest place, if its number shows a point of the width.
fn near_key(t: &[u8; 521], u: u32, x: u32, y: u32) -> u32
    requires { (t.now ≡ listed) × Wide u × Near x × Near y }
    ensures { LeastKey u x y result }
{
    let m = placed(x);
    let e = placed(y);
    let w = round_places::number(t, m * 19 + e - 300);
    if w + 2 < 1u32 << u {
        let a = x.abs_diff(512 * m);
        let b = y.abs_diff(512 * e);
        return a * a + b * b + w;
    }
    outer(t, u, x, y)
}

// Whether the table has the nearest places of the counts and of what they are counted from on the other side: none is more than 4736
// = 37 · 128 off zero.
fn are_near(x: u32, y: u32) -> bool
    ensures { result ≡ are_near x y }
{
    x.abs_diff(12160) < 4737 && y.abs_diff(12160) < 4737
}

// For each label the key, distance plus number, of the point of width u that is nearest to (x, y), the smaller number of equals.
pub fn nearest_keys(t: &[u8; 521], u: u32, x: i32, y: i32) -> Keys
    requires { (t.now ≡ listed) × Wide u × (nat_abs x ≤ 8192) × (nat_abs y ≤ 8192) }
    ensures { result ≡ near_keys u x y }
{
    let px = counted(x);
    let py = counted(y);
    let nx = 24320 - px;
    let ny = 24320 - py;
    // Two literals, and no function handed to one: `near_key` and `outer` require different things of a count.
    if are_near(px, py) {
        return Keys {
            a: near_key(t, u, px, py),
            c: near_key(t, u, ny, px),
            b: near_key(t, u, nx, ny),
            d: near_key(t, u, py, nx),
        };
    }
    Keys {
        a: outer(t, u, px, py),
        c: outer(t, u, ny, px),
        b: outer(t, u, nx, ny),
        d: outer(t, u, py, nx),
    }
}
