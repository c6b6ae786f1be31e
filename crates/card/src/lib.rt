// The check of another maker's decoder: a signal card hands over the sequence that it chose for a list of symbols, and sixteen numbers for
// the start and after each symbol that it says are the least sums into each state.
//
// Nothing is decoded here. Numbers that are 0 at the start, and of which none is more than a number of the row before and the least that a
// step between counts for, lie below the sum of every allowed sequence; so a sequence whose own sum no number of the last row is below is
// nearest, whoever found it and however its ties fell. True least sums are such numbers. One pass goes through the list, with the weighing
// that the receiver uses, and nothing is kept over symbols but the sum so far. What was handed over may be anything.
#![tactic(auto)]

ghost use Rattle.std.specs.Prelude.{◌≡◌, true, ◌+◌, ◌≤◌, length};
ghost use Rattle.points.specs.Agreed.{is_accord};
ghost use Rattle.points.specs.Points.{coordinates as a_coordinates};
ghost use Rattle.nearest.specs.Found.{chart_of};
ghost use Rattle.card.specs.Card.{count_of};
ghost use Rattle.card.specs.Check.{lengths_fit, fits, Has, pair_at, in_range, step_of, follows};
ghost use Rattle.card.specs.Promise.{card_of, card_in, Checks};

use distance::Spot;
use nearest::{Chart, Received};
use points::Accord;

// What a card was given and what it hands over, lent from call to call.
#[derive(Clone, Copy)]
struct Card<'a> {
    coordinates: &'a [i32],
    states: &'a [u32],
    symbols: &'a [u32],
    numbers: &'a [u64],
}

// Whether these are the lengths of the lists of n symbols, 1 to 64.
#[tactic(auto, unfolding(crate::specs::Check::lengths_fit))]
fn lengths_fit(n: usize, coordinates: usize, states: usize, symbols: usize, numbers: usize) -> bool
    ensures { result ≡ lengths_fit n coordinates states symbols numbers }
{
    1 <= n
        && n <= 64
        && coordinates == 4 * n
        && states == n + 1
        && symbols == 6 * n
        && numbers == 16 * (n + 1)
}

// A symbol as it was heard: its two points.
#[derive(Clone, Copy)]
pub struct Pair {
    pub first: Spot,
    pub second: Spot,
}

// The symbol whose four coordinates stand from the place `at` on.
fn pair_at(coordinates: &[i32], at: usize) -> Pair
    requires { at + 4 ≤ length coordinates.now }
    ensures { result ≡ pair_at coordinates.now at }
{
    Pair {
        first: Spot {
            x: coordinates[at],
            y: coordinates[at + 1],
        },
        second: Spot {
            x: coordinates[at + 2],
            y: coordinates[at + 3],
        },
    }
}

// Whether all four coordinates are in range.
#[tactic(auto, unfolding(crate::specs::Check::in_range))]
fn in_range(h: Pair) -> bool
    ensures { result ≡ in_range h }
{
    nearest::is_coordinate(h.first.x)
        && nearest::is_coordinate(h.first.y)
        && nearest::is_coordinate(h.second.x)
        && nearest::is_coordinate(h.second.y)
}

// The i-th symbol: what was heard is in range, what the card chose carries its state to the next, and no number of the row after it is more
// than a number of the row before and what the step between counts for at least.
#[tactic(auto, unfolding(crate::specs::Check::step_of, crate::specs::Check::step_holds))]
fn take_step(chart: &Chart, table: &[i8; 512], k: Accord, c: Card<'_>, i: usize) -> Option<u32>
    requires chart_value { (chart.now ≡ chart_of k) × (table.now ≡ a_coordinates) × (is_accord k ≡ true) }
    requires has { Has (card_in c) i }
    ensures { result ≡ step_of k (card_in c.entry) i }
{
    let heard = pair_at(c.coordinates, 4 * i);
    if !in_range(heard) {
        return None;
    }
    let chosen = card_symbol::chosen_at(c.symbols, 6 * i);
    if !card_symbol::carries(k.u, c.states[i], c.states[i + 1], chosen) {
        return None;
    }
    let weighed = nearest::weigh(
        chart,
        k,
        Received::Heard(heard.first),
        Received::Heard(heard.second),
    );
    if !card_sums::holds(c.numbers, 16 * i, &weighed.costs) {
        return None;
    }
    Some(card_symbol::far(table, k, heard.first, heard.second, chosen))
}

// All n symbols, one after another, and the end: no number of the last row is below the sum.
#[tactic(auto, using(crate::proofs::Following::fails))]
fn follow(k: Accord, c: Card<'_>, n: usize) -> bool
    requires { (is_accord k ≡ true) × (fits (card_in c) ≡ true) × (n ≡ count_of (card_in c)) }
    ensures { result ≡ follows k (card_in c.entry) n }
{
    let chart = nearest::chart(k);
    let table = points::table::a_points();
    let mut sum = 0;
    for i in 0..n {
        let Some(far) = take_step(&chart, &table, k, c, i) else {
            return false;
        };
        sum += u64::from(far);
    }
    card_sums::none_below(c.numbers, 16 * n, sum)
}

// Whether the card's sequence is accepted.
#[tactic(auto, using(crate::proofs::Tests::row_there))]
pub fn check(
    k: Accord,
    coordinates: &[i32],
    states: &[u32],
    symbols: &[u32],
    numbers: &[u64],
) -> bool
    ensures { Checks k (card_of coordinates.now states.now symbols.now numbers.now) result }
{
    let n = coordinates.len() / 4;
    if !lengths_fit(
        n,
        coordinates.len(),
        states.len(),
        symbols.len(),
        numbers.len(),
    ) {
        return false;
    }
    if !points::is_accord(k) || !card_sums::starts_at_zero(numbers) {
        return false;
    }
    follow(
        k,
        Card {
            coordinates,
            states,
            symbols,
            numbers,
        },
        n,
    )
}
