// Questions to sixteen numbers, the sums of the states or what select makes of them: where the least stands and what it is, and whether
// all are small enough. One symbol asks for the least and whether all states are reached, finish asks for the end state, and a receiver
// that is handed in is asked for its sums. Each answer equals a definition of specs/Sums.
#![tactic(auto)]

ghost use Rattle.std.specs.Prelude.{◌≡◌, ◌<◌};
ghost use Rattle.lists.specs.UpTo.{all_up_to};
ghost use Rattle.sums.specs.Sums.{end_of, lowest};

// What a state keeps that nothing reaches: 2^21. The sums of reached states, and these with one more cost, stay below.
pub const LIMIT: u32 = 2_097_152;

// A key of select is STEPS times a sum, and a step below it.
pub const STEPS: u32 = 128;

// The state with the least sum, the smallest of equals.
pub fn end_state(sums: &[u32; 16]) -> usize
    ensures { (result ≡ end_of sums.now) × (result < 16) }
{
    let mut best = 0;
    for s in 1..16 {
        if sums[s] < sums[best] {
            best = s;
        }
    }
    best
}

// The least of the numbers.
pub fn lowest(numbers: &[u32; 16]) -> u32
    ensures { result ≡ lowest numbers.now }
{
    let mut low = numbers[0];
    for s in 1..16 {
        low = low.min(numbers[s]);
    }
    low
}

// Whether no sum is above `top`. `bytes_up_to` of lists is as short a line over bytes: one generic function for both would be no plainer.
pub fn all_up_to(sums: &[u32; 16], top: u32) -> bool
    ensures { result ≡ all_up_to top sums.now }
{
    sums.iter().all(|sum| *sum <= top)
}

// Whether all states are reached, by the keys of select. The key of a state that nothing reaches has bit 28 or a
// higher one set, so one comparison does for all sixteen.
pub fn all_reached(keys: &[u32; 16]) -> bool
    ensures { result ≡ all_up_to 268435455 keys.now }
{
    let mut bits = 0;
    for key in keys {
        bits |= key;
    }
    bits < STEPS * LIMIT
}
