// The receiver's rows of 01: symbols taken, words written and the number that each piece and each finish gives back, and the output
// that was five nines before, a digit each of one number.
use crate::say;
use machine::Receiver;
use openings::Start;
use points::{Accord, Map};
use reasons::Why;
use std::io::Stdout;

fn fresh(window: u32) -> Receiver {
    let r = openings::open_receiver(
        Accord {
            map: Map::Round,
            u: 0,
        },
        window,
        Start::Free,
    );
    r.receiver
}

// A count as four bits; 15 stands for those that no row has.
fn digit(n: u64) -> u64 {
    n.min(15)
}

fn output(out: [u32; 5]) -> u64 {
    out.iter().fold(0, |n, w| n << 4 | digit(u64::from(*w)))
}

fn row(to: Stdout, taken: usize, written: usize, why: Result<(), Why>, out: [u32; 5], should: u64) {
    let counts = digit(taken as u64) << 28 | digit(written as u64) << 24;
    let is = counts | digit(u64::from(reasons::number(why))) << 20 | output(out);
    say::row(
        to,
        b"# taken # written number # output # # # # #",
        should,
        is,
        32,
    );
}

// Hears a piece, prints the row, and gives the receiver after it.
fn heard(to: Stdout, rx: Receiver, samples: &[i32], should: u64) -> Receiver {
    let mut out = [9u32; 5];
    let r = receiver::hear(rx, samples, &mut out);
    row(to, r.taken, r.written, r.why, out, should);
    r.receiver
}

fn finished(to: Stdout, rx: Receiver, should: u64) {
    let mut out = [9u32; 5];
    let r = receiver::finish(rx, &mut out);
    say::text(to, b"finish");
    row(to, r.taken, r.written, r.why, out, should);
}

// A piece that a fresh receiver hears in a window of 64, and the finish after it.
fn piece(to: Stdout, name: &[u8], samples: &[i32], should: u64, then: u64) {
    say::text(to, name);
    let rx = heard(to, fresh(64), samples, should);
    finished(to, rx, then);
}

// Five (A,A) are allowed and come back; four and then (A,C) are not, and the answer has (A,A) for the last.
pub fn all(to: Stdout) {
    say::text(
        to,
        b"\nThe receiver, u 0, free start, points at 128 times their coordinates\n",
    );
    let zeros = [0i32; 4];
    let twice = [128i32; 8];
    let five = [128i32; 20];
    let mut last = five;
    last[19] = -128;
    piece(to, b"all zeros once", &zeros, 0x1_0_0_99999, 0x0_1_0_09999);
    say::text(to, b"(A,A) twice, window 1");
    heard(to, fresh(1), &twice, 0x1_0_6_99999);
    piece(
        to,
        b"(A,A) twice, window 64",
        &twice,
        0x2_0_0_99999,
        0x0_2_0_00999,
    );
    piece(to, b"(A,A) five times", &five, 0x5_0_0_99999, 0x0_5_0_00000);
    piece(
        to,
        b"(A,A) four times, then (A,C)",
        &last,
        0x5_0_0_99999,
        0x0_5_0_00000,
    );
}
