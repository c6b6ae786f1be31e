// The square map's first points: of each label those with the numbers 0 to 3 at u 2, beside what 02's rule gives by hand. A coordinate
// is a digit of one number: F is -1 and D is -3.
ghost use Rattle.std.specs.Prelude.{◌<◌};

use crate::say;
use std::io::Stdout;

fn point(l: u32, w: u32) -> u64
    requires { (l < 4) × (w < 4) }
{
    let p = maps::square::point_of(2, l, w);
    say::four_bits(p.x) << 4 | say::four_bits(p.y)
}

fn row(to: Stdout, l: u32, should: u64)
    requires { l < 4 }
{
    let is = point(l, 0) << 24 | point(l, 1) << 16 | point(l, 2) << 8 | point(l, 3);
    say::bits(to, b"label @", u64::from(l), 2);
    say::row(to, b"(+,+)(+,+)(+,+)(+,+)", should, is, 32);
}

pub fn all(to: Stdout) {
    say::text(
        to,
        b"\nThe square map, u 2: the points with the numbers 0 to 3\n",
    );
    row(to, 0, 0x11_1D_D1_DD);
    row(to, 1, 0x13_1F_D3_DF);
    row(to, 2, 0x33_3F_F3_FF);
    row(to, 3, 0x31_3D_F1_FD);
}
