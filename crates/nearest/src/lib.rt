// The nearest point of each label and the best symbol of each subset, for what a receiver hears.
//
// A received point is heard, with two coordinates in line units, or missing; the point coordinate c stands at 128·c. `search` gives,
// for each of the four labels, the number of the nearest point, its squared distance and what that counts for; of equals the smaller
// number. Each map has a search of its own (crates round_search, square_search). A missing point is as near to every point, at
// distance 0, so its number is 0 and nothing is searched for it.
// `weigh` gives, for a received symbol and each of the eight subsets, the best symbol: its cost, a sum of counted distances, and
// its I3', with the numbers of its points in the rows of `search`. Both types of a subset are weighed, always. A caller makes
// the chart once and lends it.
//
// Each contract here is an equation of the result with one definition, so any two results that it allows are equal.
#![tactic(auto)]

ghost use Rattle.std.specs.Prelude.{◌≡◌, true};
ghost use Rattle.points.specs.Agreed.{has_width, is_accord};
ghost use Rattle.round_places.specs.Places.{listed};
ghost use Rattle.trellis.specs.Measure.{counted};
ghost use Rattle.distance.specs.Distance.{SpotInRange};
ghost use Rattle.distance.specs.Found.{found_by};
ghost use Rattle.nearest.specs.Line.{is_coordinate, map_distance, InRange};
ghost use Rattle.nearest.specs.Found.{chart_of, nearest_of, nearest_to, heard_as, weighed_of};

use distance::{Found, Spot};
use points::{Accord, Map};
use subset_types::Choices;

// A received point. No Option of a spot: what is Heard and what is Missing are words of the demands, and the theorems on missing points
// (`InRange`, `line_distance`) speak of these two cases.
#[derive(Clone, Copy)]
pub enum Received {
    Heard(Spot),
    Missing,
}

// The most that the distance of one point counts for in any sum, however far off the point was received.
pub const CAP: u32 = 262144;

// For each label the number of the nearest point, its squared distance and what that counts for. Rows over the labels and no list of structs,
// since each row is lent whole to those who read only it.
#[derive(Clone, Copy)]
pub struct Nearest {
    pub w: [u8; 4],
    pub d: [u32; 4],
    pub counted: [u32; 4],
}

// For each subset, by its number 4·Y0 + 2·I1 + I2', what its best symbol counts for and that symbol's I3'; for each label the
// number of the nearest point to the first and to the second received point. Rows for the same reason.
#[derive(Clone, Copy)]
pub struct Weighed {
    pub costs: [u32; 8],
    pub i3: [u8; 8],
    pub w1: [u8; 4],
    pub w2: [u8; 4],
}

// What a search needs, made once by `chart` and lent to every search: nobody else looks into it.
pub type Chart = [u8; 521];

pub fn chart(k: Accord) -> Chart
    ensures { result ≡ chart_of k }
{
    round_places::table()
}

// Whether x is a received coordinate: from -8192 to 8192, both included.
pub fn is_coordinate(x: i32) -> bool
    ensures { result ≡ is_coordinate x }
{
    -8192 <= x && x <= 8192
}

// What a squared distance counts for.
pub fn counted_of(d: u32) -> u32
    ensures { result ≡ counted d }
{
    d.min(CAP)
}

// The nearest number below 2^u of each label and its distance, on either map: only the round map reads the table.
fn search_on(t: &Chart, map: Map, u: u32, h: Spot) -> Found
    requires { (t.now ≡ listed) × (has_width map u ≡ true) × SpotInRange h }
    ensures { result ≡ found_by u (map_distance map u) h }
{
    match map {
        Map::Round => round_search::search(t, u, h),
        Map::Square => square_search::search(u, h),
    }
}

// The same, and what each distance counts for. The nearest is found by the true distance, so the cap is met by the four that were
// found and not by each candidate.
fn search_heard(t: &Chart, k: Accord, h: Spot) -> Nearest
    requires { (t.now ≡ chart_of k) × (is_accord k ≡ true) × SpotInRange h }
    ensures { result ≡ nearest_to k h }
{
    let f = search_on(t, k.map, k.u, h);
    Nearest {
        w: f.w,
        d: f.d,
        counted: [
            counted_of(f.d[0]),
            counted_of(f.d[1]),
            counted_of(f.d[2]),
            counted_of(f.d[3]),
        ],
    }
}

// For a point that was heard, its search; for a missing one nothing is searched.
pub fn search(t: &Chart, k: Accord, h: Received) -> Nearest
    requires { (t.now ≡ chart_of k) × (is_accord k ≡ true) × InRange h }
    ensures { result ≡ nearest_of k h }
{
    match h {
        Received::Heard(p) => search_heard(t, k, p),
        Received::Missing => Nearest {
            w: [0u8; 4],
            d: [0u32; 4],
            counted: [0u32; 4],
        },
    }
}

// The best symbol of each subset for a received symbol: the smaller sum of counted distances, then the smaller I3', then for each
// point the smaller distance and then the smaller number.
pub fn weigh(t: &Chart, k: Accord, first: Received, second: Received) -> Weighed
    requires { (t.now ≡ chart_of k) × (is_accord k ≡ true) × InRange first × InRange second }
    ensures { result ≡ weighed_of k (heard_as first second) }
{
    let a = search(t, k, first);
    let b = search(t, k, second);
    let Choices { costs, i3 } = subset_types::nearer_types(a.counted, b.counted);
    // Each row is taken out first: a field that is an array is not proved as a part of a literal.
    let w1 = a.w;
    let w2 = b.w;
    Weighed { costs, i3, w1, w2 }
}
