// One word makes one symbol: its two points, the turn and the state after it, and the four coordinates put into an output.
//
// It leans on the code's rules (crate wei) and on the table of points, which the caller makes once and lends. Whether there is such
// a word, and whether the output has room, is the sender's to test.
#![tactic(auto)]

ghost use Rattle.std.specs.Prelude.{◌≡◌, true, ◌≤◌, ◌<◌, length, set};
ghost use Rattle.wei.specs.State.{next_state};
ghost use Rattle.wei.specs.Symbol.{first_label, symbol_of};
ghost use Rattle.points.specs.Points.{coordinates};
ghost use Rattle.points.specs.Agreed.{is_accord};
ghost use Rattle.maps.specs.PointMap.{first_at, second_at};

use points::{Accord, Point};

// A symbol's two points, and the turn and the state after it.
#[derive(Clone, Copy)]
pub struct Symbol {
    pub turn: u32,
    pub state: u32,
    pub first: Point,
    pub second: Point,
}

#[tactic(auto, using(crate::proofs::Parts::parts_in, wei::proofs::Labels::second_below))]
pub fn make(table: &[i8; 512], k: Accord, state: u32, turn: u32, word: u32) -> Symbol
    requires { (table.now ≡ coordinates) × (is_accord k ≡ true) × (state < 16) × (turn < 4) }
    ensures { let y = symbol_of k.u state turn word in
        result ≡ record { turn = first_label y; state = next_state state y.i1 y.i2; first = first_at k y; second = second_at k y } }
{
    let p = wei::word::unpack(k.u, word);
    let turn = wei::label::turn_on(turn, p.i2, p.i3);
    let l = wei::label::labels(turn, state & 1, p.i1);
    Symbol {
        turn,
        state: wei::state::next(state, p.i1, turn & 1),
        first: maps::point_on(table, k.map, k.u, l.first, p.w1),
        second: maps::point_on(table, k.map, k.u, l.second, p.w2),
    }
}

// The four coordinates go to the first four places.
pub fn put(out: &mut [i32], p: Point, q: Point)
    requires { 4 ≤ length out.old }
    ensures { out.new ≡ set (set (set (set out.old 0 p.x) 1 p.y) 2 q.x) 3 q.y }
{
    out[..4].copy_from_slice(&[p.x, p.y, q.x, q.y]);
}
