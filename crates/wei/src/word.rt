// Words of 3 + 2u bits, packed and unpacked by shifts and masks: bit 0 is I1, bit 1 is I2, bit 2 is I3, the next u bits are
// w1, the next u bits are w2.
ghost use Rattle.std.specs.Prelude.{◌≡◌, ◌≤◌};
ghost use Rattle.wei.specs.Word.{is_word, unpacked, packed, InRange};

// A word's parts.
#[derive(Clone, Copy)]
pub struct Parts {
    pub i1: u32,
    pub i2: u32,
    pub i3: u32,
    pub w1: u32,
    pub w2: u32,
}

// Whether no bit stands at or above 3 + 2u.
pub fn is_word(u: u32, word: u32) -> bool
    requires { u ≤ 8 }
    ensures { result ≡ is_word u word }
{
    word >> (3 + u + u) == 0
}

pub fn unpack(u: u32, word: u32) -> Parts
    requires { u ≤ 8 }
    ensures { result ≡ unpacked u word }
{
    let mask = (1u32 << u) - 1;
    Parts {
        i1: word & 1,
        i2: (word >> 1) & 1,
        i3: (word >> 2) & 1,
        w1: (word >> 3) & mask,
        w2: (word >> (3 + u)) & mask,
    }
}

pub fn pack(u: u32, p: Parts) -> u32
    requires { (u ≤ 8) × InRange u p }
    ensures { result ≡ packed u p }
{
    p.i1 | (p.i2 << 1) | (p.i3 << 2) | (p.w1 << 3) | (p.w2 << (3 + u))
}
