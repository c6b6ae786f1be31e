// Labels A 0, C 1, B 2, D 3; the turn q = 2·I3' + I2'; the pair of labels of a symbol.
ghost use Rattle.std.specs.Prelude.{◌≡◌, ◌≤◌, ◌<◌};
ghost use Rattle.wei.specs.Label.{turn_on, turn_since, second_label, pair_of, type_of};

// The labels of a symbol's two points.
#[derive(Clone, Copy)]
pub struct LabelPair {
    pub first: u32,
    pub second: u32,
}

// The new turn: the old one plus 2·I3 + I2, modulo 4.
pub fn turn_on(q: u32, i2: u32, i3: u32) -> u32
    requires { (q < 4) × (i2 < 2) × (i3 < 2) }
    ensures { result ≡ turn_on q i2 i3 }
{
    (q + 2 * i3 + i2) & 3
}

// The turn before a line that was joined later: nobody there knows it. A number like the others and no None: a state keeps it as a word
// among its words, and `unknown` of specs/Label, on which theorems rest, is this number.
pub const UNKNOWN: u32 = 4;

// The 2·I3 + I2 between two turns (IV-5); 0 where the one before is not known.
pub fn turn_since(old: u32, new: u32) -> u32
    requires { (old ≤ 4) × (new < 4) }
    ensures { result ≡ turn_since old new }
{
    if old == UNKNOWN {
        return 0;
    }
    (new + 4 - old) & 3
}

// The labels by the rule modulo 4: first q, second q + Y0 + 2·I1.
pub fn labels(q: u32, y0: u32, i1: u32) -> LabelPair
    requires { (q < 4) × (y0 < 2) × (i1 < 2) }
    ensures { result ≡ pair_of q (second_label q y0 i1) }
{
    LabelPair {
        first: q,
        second: (q + y0 + 2 * i1) & 3,
    }
}

// The sixteen 4D types in the order of Y0 I1 I2' I3', two labels each.
const TYPES: [(u32, u32); 16] = [
    (0, 0),
    (2, 2),
    (1, 1),
    (3, 3),
    (0, 2),
    (2, 0),
    (1, 3),
    (3, 1),
    (0, 1),
    (2, 3),
    (1, 2),
    (3, 0),
    (0, 3),
    (2, 1),
    (1, 0),
    (3, 2),
];

// The labels by the table of types, which the rule modulo 4 must equal.
pub fn labels_listed(y0: u32, i1: u32, i2: u32, i3: u32) -> LabelPair
    requires { ((y0 < 2) × (i1 < 2)) × ((i2 < 2) × (i3 < 2)) }
    ensures { result ≡ type_of y0 i1 i2 i3 }
{
    let row = (8 * y0 + 4 * i1 + 2 * i2 + i3) as usize;
    let (first, second) = TYPES[row];
    LabelPair { first, second }
}
