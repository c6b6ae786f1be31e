// The encoder's state W1 W2 W3 W4 as the number 8·W1 + 4·W2 + 2·W3 + W4, its bits by shifts and masks.
ghost use Rattle.std.specs.Prelude.{◌≡◌, ◌<◌};
ghost use Rattle.wei.specs.State.{next_state, before, between};

// The state after s, with I1 and I2'.
pub fn next(s: u32, i1: u32, i2: u32) -> u32
    requires { (s < 16) × (i1 < 2) × (i2 < 2) }
    ensures { result ≡ next_state s i1 i2 }
{
    let w1 = s >> 3;
    let w2 = (s >> 2) & 1;
    let w3 = (s >> 1) & 1;
    let w4 = s & 1;
    (w3 << 3) | (w4 << 2) | ((w2 ^ i2) << 1) | (w1 ^ w3 ^ i1)
}

// The k-th of the four states that lead to t, in rising order.
pub fn before_state(t: u32, k: u32) -> u32
    requires { (t < 16) × (k < 4) }
    ensures { result ≡ before t k }
{
    (k << 2) | (t >> 2)
}

// The 4D subset of the step from s to t: Y0 is W4 of s, and the two states fix I1 and I2'.
pub fn subset_between(s: u32, t: u32) -> u32
    requires { (s < 16) × (t < 16) }
    ensures { result ≡ between s t }
{
    let i1 = (t ^ (s >> 3) ^ (s >> 1)) & 1;
    let i2 = ((t >> 1) ^ (s >> 2)) & 1;
    ((s & 1) << 2) | (i1 << 1) | i2
}
