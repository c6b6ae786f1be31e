// What becomes of a symbol where some state is not reached: in the first two symbols after a named start, and in no other. Such a state
// keeps LIMIT, whatever cost came to it, and follows the first reached one: it is as if it were that state, so that whoever moves or
// compares all sixteen need ask of none whether it is reached.
ghost use Rattle.std.specs.Prelude.{◌≡◌, cond, ◌-◌, ◌/◌, ◌%◌, ◌≤◌, ◌<◌, ltb};
ghost use Rattle.sums.specs.Sums.{limit, lowest};
ghost use Rattle.select.specs.Select.{sixteen, lowered, head_of, live_of};
ghost use Rattle.select.specs.Ways.{sums_in, steps_in, followed_step};

use std::array;
use sums::{LIMIT, STEPS};

// The first reached state; 0 where none is reached.
fn first_live(keys: &[u32; 16]) -> usize
    ensures { (result ≡ head_of (live_of (sums_in keys.now))) × (result < 16) }
{
    keys.iter()
        .position(|key| *key / STEPS < LIMIT)
        .unwrap_or(0)
}

// The step of a reached state, or else the other one.
fn step_if_reached(key: u32, other: u8) -> u8
    ensures { result ≡ cond (ltb (key / 128) limit) (key % 128) other }
{
    if key / STEPS < LIMIT {
        (key % STEPS) as u8
    } else {
        other
    }
}

// For each state the step into it; where nothing reaches it, the step into the first reached one.
pub fn followers(keys: &[u32; 16]) -> [u8; 16]
    ensures { result ≡ sixteen (followed_step (sums_in keys.now) (steps_in keys.now)) }
{
    let head = first_live(keys);
    let other = (keys[head] % STEPS) as u8;
    array::from_fn(|s| step_if_reached(keys[s], other))
}

// The sum of a reached state less the least, or else LIMIT.
fn sum_if_reached(key: u32, low: u32) -> u32
    requires { low ≤ key / 128 }
    ensures { result ≡ cond (ltb (key / 128) limit) (key / 128 - low) limit }
{
    if key / STEPS < LIMIT {
        key / STEPS - low
    } else {
        LIMIT
    }
}

// For each state what it keeps, where `low` is the least sum.
pub fn kept(keys: &[u32; 16], low: u32) -> [u32; 16]
    requires { low ≡ lowest (sums_in keys.now) }
    ensures { result ≡ sixteen (lowered (sums_in keys.now)) }
{
    array::from_fn(|s| sum_if_reached(keys[s], low))
}
