// Add, compare and select over the sums of the sixteen states. `advance` gives what each state keeps, its new sum less the least one, and
// the step into each state (`ways`), where a state that nothing reaches follows a reached one (`follow`). Every function equals a
// definition of specs/ on the same numbers; what is asked of the sums by themselves is the crate `sums`.
#![tactic(auto)]

mod follow;
mod ways;

ghost use Rattle.std.specs.Prelude.{◌≡◌, ◌-◌, ◌/◌, get_or};
ghost use Rattle.sums.specs.Sums.{lowest};
ghost use Rattle.select.specs.Select.{sixteen, sum_at, lowered, step_at};
ghost use Rattle.select.specs.Ways.{Summable, sums_in, steps_in};

use std::array;
use sums::STEPS;

// What the states keep, and the step into each.
#[derive(Clone, Copy)]
pub struct Selected {
    pub sums: [u32; 16],
    pub steps: [u8; 16],
}

// The sums of all ways, less the least of them.
fn sums_less(keys: &[u32; 16], low: u32) -> [u32; 16]
    requires { low ≡ lowest (sums_in keys.now) }
    ensures { result ≡ sixteen (λ s. get_or keys.now s 0 / 128 - low) }
{
    array::from_fn(|s| keys[s] / STEPS - low)
}

// The steps of all ways.
fn steps_in(keys: &[u32; 16]) -> [u8; 16]
    ensures { result ≡ steps_in keys.now }
{
    array::from_fn(|s| (keys[s] % STEPS) as u8)
}

// One symbol: the new sums less the least, and the step into each state; into one that nothing reaches, the step into the first reached
// one. All states are reached but in the first two symbols after a named start, so one test spares the sixteen.
pub fn advance(sums: &[u32; 16], costs: &[u32; 8]) -> Selected
    requires { Summable sums.now costs.now }
    ensures { result ≡ record { sums = sixteen (lowered (sixteen (sum_at sums.now costs.now))); steps = sixteen (step_at sums.now costs.now) } }
{
    let keys = ways::select(sums, costs);
    let low = sums::lowest(&keys) / STEPS;
    if sums::all_reached(&keys) {
        return Selected {
            sums: sums_less(&keys, low),
            steps: steps_in(&keys),
        };
    }
    Selected {
        sums: follow::kept(&keys, low),
        steps: follow::followers(&keys),
    }
}
