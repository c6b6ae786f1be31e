// Tables IV-2, IV-5 and IV-6 of 000, the last with the one repair of 01 in row 1110: what is printed there, beside what the rules give.
// A row is one number: its bits, left to right as they are printed.
ghost use Rattle.std.specs.Prelude.{◌<◌};

use crate::say;
use std::io::Stdout;

// Table IV-2, a row for each of the bits Y0 I1 I2' I3': the two labels of its column "4D TYPE", A as 00, B as 10, C as 01, D as 11.
const LABELS: [u64; 16] = [
    0b00_00, 0b10_10, 0b01_01, 0b11_11, 0b00_10, 0b10_00, 0b01_11, 0b11_01, 0b00_01, 0b10_11,
    0b01_10, 0b11_00, 0b00_11, 0b10_01, 0b01_00, 0b11_10,
];

// Table IV-5, a row for each state: the next states at the inputs I1 I2' = 00, 01, 10, 11.
const NEXT: [u64; 16] = [
    0b0000_0010_0001_0011,
    0b0100_0110_0101_0111,
    0b1001_1011_1000_1010,
    0b1101_1111_1100_1110,
    0b0010_0000_0011_0001,
    0b0110_0100_0111_0101,
    0b1011_1001_1010_1000,
    0b1111_1101_1110_1100,
    0b0001_0011_0000_0010,
    0b0101_0111_0100_0110,
    0b1000_1010_1001_1011,
    0b1100_1110_1101_1111,
    0b0011_0001_0010_0000,
    0b0111_0101_0110_0100,
    0b1010_1000_1011_1001,
    0b1110_1100_1111_1101,
];

// Table IV-6, a row for each state: the four states that lead there, each followed by the subset Y0 I1 I2' of the step.
const BEFORE: [u64; 16] = [
    0b0000_000_0100_001_1000_010_1100_011,
    0b0000_010_0100_011_1000_000_1100_001,
    0b0000_001_0100_000_1000_011_1100_010,
    0b0000_011_0100_010_1000_001_1100_000,
    0b0001_100_0101_101_1001_110_1101_111,
    0b0001_110_0101_111_1001_100_1101_101,
    0b0001_101_0101_100_1001_111_1101_110,
    0b0001_111_0101_110_1001_101_1101_100,
    0b0010_010_0110_011_1010_000_1110_001,
    0b0010_000_0110_001_1010_010_1110_011,
    0b0010_011_0110_010_1010_001_1110_000,
    0b0010_001_0110_000_1010_011_1110_010,
    0b0011_110_0111_111_1011_100_1111_101,
    0b0011_100_0111_101_1011_110_1111_111,
    0b0011_111_0111_110_1011_101_1111_100,
    0b0011_101_0111_100_1011_111_1111_110,
];

// The k-th bit.
fn bit(n: u32, k: u32) -> u32
    requires { k < 32 }
    ensures { result < 2 }
{
    (n >> k) & 1
}

// The two labels in one number.
fn pair(first: u32, second: u32) -> u64 {
    u64::from(first) << 2 | u64::from(second)
}

// The labels of row r by the rule modulo 4, and in the four bits below them those of the table of types.
fn types(r: u32) -> u64 {
    let y0 = bit(r, 3);
    let i1 = bit(r, 2);
    let i2 = bit(r, 1);
    let i3 = bit(r, 0);
    let ruled = wei::label::labels(2 * i3 + i2, y0, i1);
    let listed = wei::label::labels_listed(y0, i1, i2, i3);
    pair(ruled.first, ruled.second) << 4 | pair(listed.first, listed.second)
}

fn labels(to: Stdout, r: u32)
    requires { r < 16 }
{
    let should = LABELS[r as usize];
    let is = types(r);
    say::bits(
        to,
        b"bits 0000  should be @,@  by rule @,@  by table @,@",
        u64::from(r) << 12 | should << 8 | is,
        16,
    );
    say::verdict(to, is == (should << 4 | should));
}

// The row of a state: what should be and what is have k bits each. What the two tables of states differ in, the form, the rows and what
// is asked of `wei`, is all that stands below.
fn row(to: Stdout, form: &[u8], s: u32, should: u64, is: u64, k: u32)
    requires { k < 30 }
{
    say::bits(to, form, (u64::from(s) << k | should) << k | is, 4 + 2 * k);
    say::verdict(to, is == should);
}

// The state after s, with I1 and I2'.
fn next(s: u32, i1: u32, i2: u32) -> u64
    requires { (s < 16) × (i1 < 2) × (i2 < 2) }
{
    u64::from(wei::state::next(s, i1, i2))
}

fn next_states(to: Stdout, s: u32)
    requires { s < 16 }
{
    let is = next(s, 0, 0) << 12 | next(s, 0, 1) << 8 | next(s, 1, 0) << 4 | next(s, 1, 1);
    row(
        to,
        b"state 0000  should lead to 0000 0000 0000 0000  leads to 0000 0000 0000 0000",
        s,
        NEXT[s as usize],
        is,
        16,
    );
}

// The k-th state that leads to t, and the subset of the step.
fn step(t: u32, k: u32) -> u64
    requires { (t < 16) × (k < 4) }
{
    let s = wei::state::before_state(t, k);
    let c = wei::state::subset_between(s, t);
    u64::from(s) << 3 | u64::from(c)
}

fn states_before(to: Stdout, t: u32)
    requires { t < 16 }
{
    let is = step(t, 0) << 21 | step(t, 1) << 14 | step(t, 2) << 7 | step(t, 3);
    row(
        to,
        b"state 0000  should come from 0000,000 0000,000 0000,000 0000,000  comes from 0000,000 0000,000 0000,000 0000,000",
        t,
        BEFORE[t as usize],
        is,
        28,
    );
}

pub fn all(to: Stdout) {
    say::text(
        to,
        b"Table IV-2: the labels of the two points, by the bits Y0 I1 I2' I3'\n",
    );
    for r in 0..16 {
        labels(to, r);
    }
    say::text(
        to,
        b"\nTable IV-5: the next states at I1 I2' = 00, 01, 10, 11\n",
    );
    for s in 0..16 {
        next_states(to, s);
    }
    say::text(
        to,
        b"\nTable IV-6, row 1110 repaired: the states before a state, and the subset Y0 I1 I2' of the step\n",
    );
    for t in 0..16 {
        states_before(to, t);
    }
}
