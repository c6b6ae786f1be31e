// The sample rows of 01: what is heard of a float, and the number given back, as digits of one number: a 1 for a minus, then four of the
// whole number, and the number given back.
use crate::say;
use std::io::Stdout;

// A whole number with its sign; 9999 stands for those that no row has.
fn value(x: i32) -> u64 {
    match x {
        0 => 0x0_0000,
        2 => 0x0_0002,
        -2 => 0x1_0002,
        8192 => 0x0_2000,
        _ => 9999,
    }
}

fn heard(v: f32) -> u64 {
    match samples::hear_coordinate(v) {
        Some(x) => value(x) << 4,
        None => 5,
    }
}

fn row(to: Stdout, name: &[u8], v: f32, should: u64) {
    say::text(to, name);
    say::row(to, b"-~ number #", should, heard(v), 21);
}

pub fn all(to: Stdout) {
    say::text(
        to,
        b"\nSamples: 128 times a float, halves to the even neighbour\n",
    );
    row(to, b"float 1/256", 0.00390625, 0x0_0000_0);
    row(to, b"float 3/256", 0.01171875, 0x0_0002_0);
    row(to, b"float -3/256", -0.01171875, 0x1_0002_0);
    row(to, b"float 64.00390625", 64.00390625, 0x0_2000_0);
    row(to, b"float 64.0625", 64.0625, 0x0_0000_5);
}
