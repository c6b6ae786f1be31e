// The search, by keys: a candidate's key is its distance plus its number.
//
// The point coordinate c stands at 128·c, which moves a square by a multiple of 256, so all distances from one received point
// leave the same remainder modulo 256. Numbers are below 256. So keys stand in the order of the distances, and of equal
// distances in the order of the numbers: the least key is the nearest point with the tie rule in it, found by one comparison,
// and distance and number can be read off it.
//
// At widths below 5 every candidate is tried, four labels at a time; from there on the columns find the same keys quicker (crate round_columns).
ghost use Rattle.std.specs.Prelude.{◌≡◌, ◌≤◌, ◌<◌, ◌^◌};
ghost use Rattle.points.specs.Turn.{Small};
ghost use Rattle.round_places.specs.Places.{listed};
ghost use Rattle.distance.specs.Distance.{SpotInRange};
ghost use Rattle.round_search.specs.Key.{keys_from, lesser_keys, least_keys, candidate_of};

use crate::line;
use distance::{Candidate, Spot};
use points::Point;
use round_columns::Keys;

// The keys of the points that p becomes by no, one, two and three turns, with the number w. The received point is turned
// back instead.
fn keys_from(h: Spot, p: Point, w: u32) -> Keys
    requires { SpotInRange h × Small p × (w < 256) }
    ensures { result ≡ keys_from h p w }
{
    let h1 = line::turned_back(h);
    let h2 = line::turned_back(h1);
    let h3 = line::turned_back(h2);
    Keys {
        a: line::distance_from(h, p) + w,
        c: line::distance_from(h1, p) + w,
        b: line::distance_from(h2, p) + w,
        d: line::distance_from(h3, p) + w,
    }
}

fn lesser_keys(x: Keys, y: Keys) -> Keys
    ensures { result ≡ lesser_keys x y }
{
    Keys {
        a: x.a.min(y.a),
        c: x.c.min(y.c),
        b: x.b.min(y.b),
        d: x.d.min(y.d),
    }
}

// The least keys of the numbers below n. The search begins with number 0 and meets it again, so that the loop runs over all
// n numbers, a power of two, and the machine takes several at once.
fn least_keys(t: &[u8; 521], h: Spot, n: usize) -> Keys
    requires { (t.now ≡ listed) × SpotInRange h × (n ≤ 16) }
    ensures { result ≡ least_keys h n }
{
    let mut best = keys_from(h, round_places::near_point(t, 0), 0);
    for k in 0..n {
        best = lesser_keys(best, keys_from(h, round_places::near_point(t, k), k as u32));
    }
    best
}

// The least keys of the numbers below 2^u.
pub fn keys_below(t: &[u8; 521], u: u32, h: Spot) -> Keys
    requires { (t.now ≡ listed) × (u ≤ 8) × SpotInRange h }
    ensures { result ≡ least_keys h (2 ^ u) }
{
    if u < 5 {
        return least_keys(t, h, 1usize << u);
    }
    round_columns::nearest_keys(t, u, h.x, h.y)
}

// The number and the distance of a key, where `rest` is the remainder that all distances leave.
pub fn read_off(key: u32, rest: u32) -> Candidate
    requires { rest ≤ key }
    ensures { result ≡ candidate_of key rest }
{
    let w = (key - rest) % 256;
    Candidate {
        w: w as u8,
        d: key - w,
    }
}
