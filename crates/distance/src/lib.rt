// Where a point was heard, and what a search finds for it: what the searches of both maps share, whichever way they go.
//
// How far a spot is from a point, and which number of a label is nearest, is said in specs/Distance and specs/Found.
#![tactic(auto)]

ghost use Rattle.std.specs.Prelude.{◌≡◌, [], ◌∷◌};

// Where a point was heard, in line units. A type beside `points::Point`, whose coordinates are 128 times as wide.
#[derive(Clone, Copy)]
pub struct Spot {
    pub x: i32,
    pub y: i32,
}

// A number and its squared distance.
#[derive(Clone, Copy)]
pub struct Candidate {
    pub w: u8,
    pub d: u32,
}

// For each label the number of the nearest point, and its squared distance: in rows, as a receiver keeps the numbers and sums the
// distances row by row.
#[derive(Clone, Copy)]
pub struct Found {
    pub w: [u8; 4],
    pub d: [u32; 4],
}

impl Found {
    // What was found for the labels A, C, B and D.
    pub fn of(a: Candidate, c: Candidate, b: Candidate, d: Candidate) -> Found
        ensures { result ≡ record { w = a.w ∷ c.w ∷ b.w ∷ d.w ∷ []; d = a.d ∷ c.d ∷ b.d ∷ d.d ∷ [] } }
    {
        Found {
            w: [a.w, c.w, b.w, d.w],
            d: [a.d, c.d, b.d, d.d],
        }
    }
}
