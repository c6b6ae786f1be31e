// The sender's rows of 01: the four coordinates that each word gives, the state after it and the number given back, a digit each of one
// number: F is -1 and D is -3.
use crate::say;
use sender::Sender;
use std::io::Stdout;

fn fresh(u: u32) -> Sender {
    let r = sender::open_sender(points::Accord {
        map: points::Map::Round,
        u,
    });
    r.sender
}

fn points(out: [i32; 4]) -> u64 {
    out.iter().fold(0, |n, x| n << 4 | say::four_bits(*x))
}

fn asked(to: Stdout, u: u32, word: u32) {
    say::bits(to, b"u # word ", u64::from(u), 4);
    say::count(to, u64::from(word));
}

// Sends a word into four zeros, prints the row, and gives the sender after it.
fn row(to: Stdout, s: Sender, word: u32, should: u64) -> Sender {
    let mut out = [0i32; 4];
    let r = sender::send(s, word, &mut out);
    asked(to, s.accord.u, word);
    say::row(
        to,
        b"(+,+)(+,+) state 0000 number #",
        should,
        points(out) << 8 | u64::from(r.sender.state) << 4 | u64::from(sender::number(r.why)),
        24,
    );
    r.sender
}

pub fn all(to: Stdout) {
    say::text(to, b"\nThe sender, from fresh, into four zeros\n");
    let s = row(to, fresh(0), 1, 0x11FF_1_0);
    row(to, s, 0, 0x111F_4_0);
    let s = row(to, fresh(0), 2, 0x1F1F_2_0);
    let s = row(to, s, 0, 0x1F1F_B_0);
    row(to, s, 0, 0x1FFF_E_0);
    let s = row(to, fresh(0), 4, 0xFFFF_0_0);
    row(to, s, 8, 0x0000_0_4);
    let s = row(to, fresh(1), 8, 0xD111_0_0);
    row(to, s, 32, 0x0000_0_4);
}
