// The numbers that a signal card says are the least sums into each state, row by row: sixteen for the start and sixteen after each
// symbol, one row after another in a list.
//
// If those of the start are 0, and none is more than a number of the row before and what the step between costs, then no sequence has a
// smaller sum than the number of the state that it ends in, whoever made the numbers and however large they are. Nothing is ever added
// to a number of the card's, so nothing can pass 64 bits. A row is compared whole, with no branch at a number that fails. Each contract is an equation of the result with one definition of specs/Rows,
// so any two results that it allows are equal.
#![tactic(auto)]

ghost use Rattle.std.specs.Prelude.{◌≡◌, ◌+◌, ◌≤◌, ◌<◌, leb, length};
ghost use Rattle.card_sums.specs.Rows.{way_holds, holds, starts_at_zero, none_below};

// How many numbers a row has, one for each state.
pub const ROW: usize = 16;

// Whether v is at most w and d together.
fn within(v: u64, w: u64, d: u32) -> bool
    ensures { result ≡ leb v (w + d) }
{
    let by = u64::from(d);
    v < by || v - by <= w
}

// Whether the number of t in the row after that at `at` is at most that of the k-th state before it and what the step between costs.
fn way_holds(numbers: &[u64], at: usize, costs: &[u32; 8], t: u32, k: u32) -> bool
    requires { (at + 32 ≤ length numbers.now) × (t < 16) × (k < 4) }
    ensures { result ≡ way_holds numbers.now at costs.now t k }
{
    let s = wei::state::before_state(t, k);
    let by = wei::state::subset_between(s, t) as usize;
    let from = at + s as usize;
    let to = at + ROW + t as usize;
    within(numbers[to], numbers[from], costs[by])
}

// The same for the four states before each of the sixteen: whether the row after that at `at` can be one of least sums, if that at `at` is
// and a step's subset costs what `costs` says.
pub fn holds(numbers: &[u64], at: usize, costs: &[u32; 8]) -> bool
    requires { at + 32 ≤ length numbers.now }
    ensures { result ≡ holds numbers.now at costs.now }
{
    let mut all = true;
    for way in 0..64 {
        all &= way_holds(numbers, at, costs, way / 4, way % 4);
    }
    all
}

// Whether the numbers of the start are 0.
pub fn starts_at_zero(numbers: &[u64]) -> bool
    requires { 16 ≤ length numbers.now }
    ensures { result ≡ starts_at_zero numbers.now }
{
    let mut all = true;
    for s in 0..ROW {
        all &= numbers[s] == 0;
    }
    all
}

// Whether no number of the row at `at` is below the sum.
pub fn none_below(numbers: &[u64], at: usize, sum: u64) -> bool
    requires { at + 16 ≤ length numbers.now }
    ensures { result ≡ none_below numbers.now at sum }
{
    let mut all = true;
    for t in 0..ROW {
        all &= sum <= numbers[at + t];
    }
    all
}
