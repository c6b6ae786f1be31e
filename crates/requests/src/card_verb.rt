// What the tokens after the verb `card` ask for: `card MAP U N`, then 4N coordinates, N + 1 states, 6N numbers of symbols and 16(N + 1)
// numbers, the lists of a card that another maker's decoder hands over.
//
// The lists are looked at while the line is read and are kept nowhere, so the request holds the verdict of the check alone (crate `card`).
// The lists are read by `line_fields`; specs/Asked.antt says which lines there are. The file is not named after the verb alone, since `card` is a crate.
ghost use Rattle.std.specs.Prelude.{◌≡◌, ◌≤◌, length};
ghost use Rattle.text.specs.Token.{tokens};
ghost use Rattle.line_fields.specs.Fields.{tokens_at};
ghost use Rattle.requests.specs.Asked.{map_of, sizes, card_in, verdict_on, checked_of, asked_of};
ghost use Rattle.requests.specs.Verb.{unless_unread};

use crate::Request;
use points::{Accord, Map};
use text::token;

fn map_of(token: &[u8]) -> Option<Map>
    ensures { result ≡ map_of token.now }
{
    if token::same(token, b"round") {
        return Some(Map::Round);
    }
    if token::same(token, b"square") {
        return Some(Map::Square);
    }
    None
}

// The check of a card whose four lists, each as long as what is lent for it, stand from the place `at` to the end of the line.
fn verdict(
    s: &[u8],
    at: usize,
    k: Accord,
    coordinates: &mut [i32],
    states: &mut [u32],
    symbols: &mut [u32],
    numbers: &mut [u64],
) -> Option<Request>
    ensures { result ≡ unless_unread (verdict_on k (card_in (sizes (length coordinates.old) (length states.old) (length symbols.old) (length numbers.old))
        (tokens_at s.now at))) }
{
    let a = line_fields::numbers(s, at, coordinates)?;
    let b = line_fields::numbers(s, a, states)?;
    let c = line_fields::numbers(s, b, symbols)?;
    let d = line_fields::numbers(s, c, numbers)?;
    if d <= s.len() {
        return None;
    }
    Some(Request::Card {
        accepted: card::check(k, coordinates, states, symbols, numbers),
    })
}

// The check of a card of n symbols, whose lists stand from the place `at` on.
fn checked(s: &[u8], at: usize, k: Accord, n: usize) -> Option<Request>
    requires { n ≤ 64 }
    ensures { result ≡ unless_unread (checked_of k n (tokens_at s.now at)) }
{
    let mut coordinates = [0i32; 256];
    let mut states = [0u32; 65];
    let mut symbols = [0u32; 384];
    let mut numbers = [0u64; 1040];
    verdict(
        s,
        at,
        k,
        &mut coordinates[..4 * n],
        &mut states[..n + 1],
        &mut symbols[..6 * n],
        &mut numbers[..16 * (n + 1)],
    )
}

pub fn read(rest: &[u8]) -> Option<Request>
    ensures { result ≡ unless_unread (asked_of (tokens rest.now)) }
{
    let n = token::before(rest, b' ');
    let map = map_of(&rest[..n])?;
    let mut head = [0u32; 2];
    let at = line_fields::numbers(rest, n + 1, &mut head)?;
    let [u, count] = head;
    if 64 < count {
        return None;
    }
    checked(rest, at, Accord { map, u }, count as usize)
}
