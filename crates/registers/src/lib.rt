// The subsets of the pending symbols, kept for each state on its own best way. Three words stand for a state, 192 bits, three to a
// symbol and the newest lowest. How many of the oldest pending symbols all states agree on is read off the bits in which the words of
// the states before differ: nothing is walked.
//
// A step is 8 times the state before and the 4D subset, as `select` selects it. A symbol moves the registers of all states on (`shift`): a
// state takes over the words of the state that its best way comes from, each with three bits more. Where few symbols are pending only the
// words that hold them are moved: one for up to 20, as on a quiet line.
#![tactic(auto)]

ghost use Rattle.std.specs.Prelude.{◌≡◌, ◌<◌, ◌≤◌, ◌+◌, ◌-◌, ◌*◌, ◌/◌, ◌%◌, ◌^◌, get_or};
ghost use Rattle.lists.specs.Tabled.{tabled};
ghost use Rattle.registers.specs.Registers.{came_from, bit_in, subset_in, words_before, same_at, oldest, apart_of, lowest, parted_of, above_of, reach_of, longer, moved_of};
ghost use Rattle.registers.specs.Put.{put_word};

use std::array;

// The state before, of a step.
fn came_from(step: u8) -> usize
    ensures { (result ≡ came_from step) × (result < 16) }
{
    usize::from(step / 8 % 16)
}

// Word b of the states before all sixteen.
pub fn words_before(registers: &[u64; 48], steps: &[u8; 16], b: usize) -> [u64; 16]
    requires { b < 3 }
    ensures { result ≡ words_before registers.now steps.now b }
{
    array::from_fn(|s| registers[16 * b + came_from(steps[s])])
}

// The bits in which sixteen words differ.
fn apart(ways: &[u64; 16]) -> u64
    ensures { result ≡ apart_of ways.now }
{
    let mut bits = 0;
    for word in ways {
        bits |= word ^ ways[0];
    }
    bits
}

// The lowest n bits.
fn lowest_of(bits: u64, n: usize) -> u64
    ensures { result ≡ lowest bits n }
{
    if n < 64 { bits & ((1 << n) - 1) } else { bits }
}

// How many of the lowest n bits reach up to the highest in which the words differ; 0 where they do not differ.
fn parted(ways: &[u64; 16], n: usize) -> usize
    ensures { (result ≡ parted_of ways.now n) × (result ≤ 64) }
{
    64 - lowest_of(apart(ways), n).leading_zeros() as usize
}

// How far the differences reach where a word stands above `base` bits: as far as those below it where it has none.
fn above(high: usize, base: usize, low: usize) -> usize
    requires { (high ≤ 64) × (base ≤ 128) }
    ensures { result ≡ above_of high base low }
{
    if high == 0 { low } else { base + high }
}

// How many of the lowest n bits of the states before reach up to the highest in which they differ; `ways` is their first word.
fn reach(registers: &[u64; 48], steps: &[u8; 16], ways: &[u64; 16], n: usize) -> usize
    requires { ways.now ≡ words_before registers.now steps.now 0 }
    ensures { result ≡ reach_of registers.now steps.now n }
{
    if n <= 64 {
        return parted(ways, n);
    }
    let middle = words_before(registers, steps, 1);
    if n <= 128 {
        return above(parted(&middle, n - 64), 64, parted(ways, 64));
    }
    let high = words_before(registers, steps, 2);
    let low = above(parted(&middle, 64), 64, parted(ways, 64));
    above(parted(&high, n - 128), 128, low)
}

// How many of the oldest pending symbols the states before all sixteen agree on; `ways` is their first word. The symbol in hand is not
// asked: nobody agrees on it.
pub fn agreed(registers: &[u64; 48], steps: &[u8; 16], ways: &[u64; 16], pending: usize) -> usize
    requires { (pending ≤ 64) × (ways.now ≡ words_before registers.now steps.now 0) }
    ensures { result ≡ oldest (same_at registers.now steps.now) pending }
{
    let up = reach(registers, steps, ways, 3 * pending);
    pending - (up + 2) / 3
}

// A bit of a state.
fn bit_in(registers: &[u64; 48], s: usize, i: usize) -> usize
    requires { (s < 16) × (i < 192) }
    ensures { (result ≡ bit_in registers.now s i) × (result < 2) }
{
    ((registers[16 * (i / 64) + s] >> (i % 64)) % 2) as usize
}

// The subset that the state s has at an age: of the symbol that so many came after.
pub fn subset_at(registers: &[u64; 48], s: usize, age: usize) -> usize
    requires { (s < 16) × (age < 64) }
    ensures { (result ≡ subset_in registers.now s age) × (result < 8) }
{
    let i = 3 * age;
    4 * bit_in(registers, s, i + 2) + 2 * bit_in(registers, s, i + 1) + bit_in(registers, s, i)
}

// A word with N bits more. As many of the highest are forgotten.
pub fn longer_by<const N: u32>(word: u64, bits: u64) -> u64
    requires { (N < 64) × (bits < 2 ^ N) }
    ensures { result ≡ word % 2 ^ (64 - N) * 2 ^ N + bits }
{
    (word << N) | bits
}

// Word b of all states, where the words before and those below them are given.
fn move_word(registers: &mut [u64; 48], b: usize, ways: &[u64; 16], below: &[u64; 16])
    requires { b < 3 }
    ensures { registers.new ≡ put_word b (λ s. longer (get_or ways.now s 0) (get_or below.now s 0 / 2 ^ 61 % 8)) registers.old }
{
    for s in 0..16 {
        registers[16 * b + s] = longer_by::<3>(ways[s], below[s] >> 61);
    }
}

// What stands below the first words: the subset of each step, as the highest bits of a word.
fn subsets_in(steps: &[u8; 16]) -> [u64; 16]
    ensures { result ≡ tabled (λ s. get_or steps.now s 0 % 8 * 2 ^ 61) 16 }
{
    array::from_fn(|s| u64::from(steps[s] % 8) << 61)
}

// All sixteen states by one symbol, where n are pending with it; `ways` is the first word of the states before. The highest word goes
// first, for it needs the one below as it was.
pub fn shift(registers: &mut [u64; 48], steps: &[u8; 16], ways: &[u64; 16], n: usize)
    requires { ways.now ≡ words_before registers.old steps.now 0 }
    ensures { registers.new ≡ moved_of n registers.old steps.now }
{
    if n > 21 {
        let middle = words_before(registers, steps, 1);
        if n > 42 {
            let high = words_before(registers, steps, 2);
            move_word(registers, 2, &high, &middle);
        }
        move_word(registers, 1, &middle, ways);
    }
    move_word(registers, 0, ways, &subsets_in(steps));
}
