// One symbol of the sequence that a signal card chose: six numbers, Y0, I1, I2', I3', w1 and w2. Whether it can be sent and carries its
// state to the next, and what its two points count for where a symbol was heard.
//
// The points are read off the map by the symbol's own labels and numbers, so that nothing is searched. A caller makes the round map's
// table once by `points::table::a_points` and lends it. Each contract is an equation of the result with one definition, so any two
// results that it allows are equal.
#![tactic(auto)]

ghost use Rattle.std.specs.Prelude.{◌≡◌, true, ◌+◌, ◌^◌, ◌≤◌, ◌<◌, length};
ghost use Rattle.wei.specs.Symbol.{Valid};
ghost use Rattle.points.specs.Agreed.{is_accord};
ghost use Rattle.points.specs.Points.{coordinates};
ghost use Rattle.trellis.specs.Measure.{counted};
ghost use Rattle.distance.specs.Distance.{SpotInRange};
ghost use Rattle.nearest.specs.declared.Received.TheVariants as received;
ghost use Rattle.nearest.specs.Line.{line_distance, line_measure};
ghost use Rattle.nearest.specs.Found.{heard_as};
ghost use Rattle.card_symbol.specs.Chosen.{chosen_at, symbol_of, is_valid, carries};

use distance::Spot;
use points::Accord;

// The six numbers of a symbol, whatever a card sent.
#[derive(Clone, Copy)]
pub struct Chosen {
    pub y0: u32,
    pub i1: u32,
    pub i2: u32,
    pub i3: u32,
    pub w1: u32,
    pub w2: u32,
}

// The six numbers from the place `at` on.
pub fn chosen_at(symbols: &[u32], at: usize) -> Chosen
    requires { at + 6 ≤ length symbols.now }
    ensures { result ≡ chosen_at symbols.now at }
{
    Chosen {
        y0: symbols[at],
        i1: symbols[at + 1],
        i2: symbols[at + 2],
        i3: symbols[at + 3],
        w1: symbols[at + 4],
        w2: symbols[at + 5],
    }
}

// Whether the symbol can be sent at the width u: four bits, and two numbers of u bits.
#[tactic(auto, using(wei::proofs::Words::none_above), unfolding(crate::specs::Chosen::is_valid))]
pub fn is_valid(u: u32, c: Chosen) -> bool
    requires { u ≤ 8 }
    ensures { result ≡ is_valid u (symbol_of c) }
{
    c.y0 < 2 && c.i1 < 2 && c.i2 < 2 && c.i3 < 2 && c.w1 >> u == 0 && c.w2 >> u == 0
}

// Whether the symbol can be sent and carries the state s to the state t.
#[tactic(auto, using(crate::proofs::Tests::bits_in), unfolding(crate::specs::Chosen::carries))]
pub fn carries(u: u32, s: u32, t: u32, c: Chosen) -> bool
    requires { u ≤ 8 }
    ensures { result ≡ carries u s t (symbol_of c) }
{
    is_valid(u, c) && s < 16 && c.y0 == s & 1 && wei::state::next(s, c.i1, c.i2) == t
}

// What a heard point counts for, where the point with the label l and the number w was sent.
#[tactic(auto, using(maps::proofs::Apart::small_at), unfolding(nearest::specs::Line::line_distance))]
fn point_far(table: &[i8; 512], k: Accord, l: u32, w: u32, h: Spot) -> u32
    requires { (table.now ≡ coordinates) × (is_accord k ≡ true) × (l < 4) × (w < 2 ^ k.u) × SpotInRange h }
    ensures { result ≡ counted (line_distance k (received.Heard h) l w) }
{
    let p = maps::point_on(table, k.map, k.u, l, w);
    nearest::counted_of(round_search::line::distance_from(h, p))
}

// What a heard symbol counts for, where the symbol c was sent.
#[tactic(auto, using(wei::proofs::Labels::second_below), unfolding(trellis::specs::Measure::counted, trellis::specs::Measure::far_of, trellis::specs::Measure::first_far, trellis::specs::Measure::second_far, wei::specs::Symbol::last_label))]
pub fn far(table: &[i8; 512], k: Accord, first: Spot, second: Spot, c: Chosen) -> u32
    requires { (table.now ≡ coordinates) × (is_accord k ≡ true) × SpotInRange first × SpotInRange second × Valid k.u (symbol_of c) }
    ensures { result ≡ (line_measure k).far (heard_as (received.Heard first) (received.Heard second)) (symbol_of c) }
{
    let l = wei::label::labels(2 * c.i3 + c.i2, c.y0, c.i1);
    point_far(table, k, l.first, c.w1, first) + point_far(table, k, l.second, c.w2, second)
}
