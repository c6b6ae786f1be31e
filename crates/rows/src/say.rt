// Rows on standard output. A form is a text with holes, which are filled from the bits of one number, left to right: `0` is one bit, `@`
// the two of a label, `#` the four of a count, `~` the sixteen of a larger one, `-` a minus if the bit is set, `+` the four of a
// coordinate, which is negative from 8 on.
ghost use Rattle.std.specs.Prelude.{◌<◌};

use std::io::{Print, Stdout};

// What cannot be written is not told: the rows are short.
pub fn text(to: Stdout, t: &[u8]) {
    let _ = to.write_all(t);
}

// What a byte of a form stands for, where it is a hole.
#[derive(Clone, Copy)]
enum Hole {
    Bit,
    Label,
    Count,
    Large,
    Minus,
    Coordinate,
}

fn hole_of(b: u8) -> Option<Hole> {
    match b {
        b'0' => Some(Hole::Bit),
        b'@' => Some(Hole::Label),
        b'#' => Some(Hole::Count),
        b'~' => Some(Hole::Large),
        b'-' => Some(Hole::Minus),
        b'+' => Some(Hole::Coordinate),
        _ => None,
    }
}

// How many bits fill it.
fn width(hole: Hole) -> u32 {
    match hole {
        Hole::Bit | Hole::Minus => 1,
        Hole::Label => 2,
        Hole::Count | Hole::Coordinate => 4,
        Hole::Large => 16,
    }
}

fn letter(label: u64) -> u8 {
    match label {
        0 => b'A',
        1 => b'C',
        2 => b'B',
        _ => b'D',
    }
}

fn byte(to: Stdout, b: u8) {
    let t = [b];
    text(to, &t);
}

pub fn count(to: Stdout, n: u64) {
    let _ = to.print(n);
}

// Fills a hole from the low bits of n.
fn fill(to: Stdout, hole: Hole, n: u64) {
    match hole {
        Hole::Bit => count(to, n & 1),
        Hole::Label => byte(to, letter(n & 3)),
        Hole::Count => count(to, n & 15),
        Hole::Large => count(to, n & 65535),
        Hole::Minus => minus(to, n & 1),
        Hole::Coordinate => coordinate(to, n & 15),
    }
}

fn minus(to: Stdout, n: u64) {
    if n == 1 {
        byte(to, b'-');
    }
}

fn coordinate(to: Stdout, n: u64) {
    minus(to, n >> 3);
    if n < 8 {
        count(to, n);
    } else if n < 16 {
        count(to, 16 - n);
    }
}

// A coordinate as the four bits of a `+`; 8 stands for those that no row has.
pub fn four_bits(x: i32) -> u64 {
    match x {
        0 => 0,
        1 => 1,
        3 => 3,
        -1 => 15,
        -3 => 13,
        _ => 8,
    }
}

// A form filled with the lowest k bits of n.
pub fn bits(to: Stdout, form: &[u8], n: u64, k: u32)
    requires { k < 64 }
{
    let mut left = k;
    for &b in form {
        match hole_of(b) {
            Some(hole) => {
                left = left.saturating_sub(width(hole));
                fill(to, hole, n >> left);
            }
            None => byte(to, b),
        }
    }
}

// Ends a row.
pub fn verdict(to: Stdout, ok: bool) {
    if ok {
        text(to, b"  ok\n");
    } else {
        text(to, b"  DIFFERS\n");
    }
}

// What should be and what is, k bits each, in one form.
pub fn row(to: Stdout, form: &[u8], should: u64, is: u64, k: u32)
    requires { k < 64 }
{
    text(to, b"  should be ");
    bits(to, form, should, k);
    text(to, b"  is ");
    bits(to, form, is, k);
    verdict(to, should == is);
}
