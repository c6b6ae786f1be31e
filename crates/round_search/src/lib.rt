// The nearest point of each label on the round map, for what a receiver hears.
//
// Keys carry number and distance (see `key`), and the A points alone are read (see `line`). A caller makes the table once by
// `round_places::table` and lends it. The contract of `search` is an equation of the result with one definition, so any two
// results that it allows are equal.
#![tactic(auto)]

mod key;
pub mod line;

ghost use Rattle.std.specs.Prelude.{◌≡◌, ◌≤◌};
ghost use Rattle.round_places.specs.Places.{listed};
ghost use Rattle.distance.specs.Distance.{SpotInRange};
ghost use Rattle.distance.specs.Found.{found_by};
ghost use Rattle.round_search.specs.Key.{round_distance};

use distance::{Found, Spot};

// The nearest number below 2^u of each label, and its distance: `rest` is the remainder that all distances from h leave modulo
// 256, as that of number 0 shows.
pub fn search(t: &[u8; 521], u: u32, h: Spot) -> Found
    requires { (t.now ≡ listed) × (u ≤ 8) × SpotInRange h }
    ensures { result ≡ found_by u round_distance h }
{
    let rest = line::distance_from(h, round_places::near_point(t, 0)) % 256;
    let keys = key::keys_below(t, u, h);
    Found::of(
        key::read_off(keys.a, rest),
        key::read_off(keys.c, rest),
        key::read_off(keys.b, rest),
        key::read_off(keys.d, rest),
    )
}
