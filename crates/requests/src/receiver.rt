// What the tokens after the verb `receiver` ask for: `receiver U`, `receiver U WINDOW free` or `receiver U WINDOW at S`, a width alone, or
// a window and a start after it, and ` square` at the end for the square map. specs/Verb.antt says what the verb asks for.
ghost use Rattle.std.specs.Prelude.{◌≡◌};
ghost use Rattle.text.specs.Token.{tokens};
ghost use Rattle.requests.specs.Verb.{unless_unread, state_of, start_of, window_of, receiver_of};

use crate::Request;
use line_fields::map_names;
use points::Accord;
use text::token;

// The state after `at`.
fn state(u: u32, window: u32, rest: &[u8]) -> Option<Request>
    ensures { result ≡ unless_unread (state_of u window (tokens rest.now)) }
{
    let read = map_names::number_and_map(rest)?;
    Some(Request::At {
        accord: Accord { map: read.map, u },
        window,
        state: read.number,
    })
}

// `free`, or `at` and a state.
fn start(u: u32, window: u32, rest: &[u8]) -> Option<Request>
    ensures { result ≡ unless_unread (start_of u window (tokens rest.now)) }
{
    let n = token::before(rest, b' ');
    if token::same(&rest[..n], b"free") {
        let map = map_names::map_after(rest, n)?;
        return Some(Request::Free {
            accord: Accord { map, u },
            window,
        });
    }
    if n == rest.len() {
        return None;
    }
    if !token::same(&rest[..n], b"at") {
        return None;
    }
    state(u, window, &rest[n + 1..])
}

fn window(u: u32, rest: &[u8]) -> Option<Request>
    ensures { result ≡ unless_unread (window_of u (tokens rest.now)) }
{
    let n = token::before(rest, b' ');
    if n == rest.len() {
        return None;
    }
    let window = crate::number_of(&rest[..n])?;
    start(u, window, &rest[n + 1..])
}

// Nothing or a map after the width is the plain opening; else more than one token follows, or one that is none.
pub fn read(rest: &[u8]) -> Option<Request>
    ensures { result ≡ unless_unread (receiver_of (tokens rest.now)) }
{
    let n = token::before(rest, b' ');
    let u = crate::number_of(&rest[..n])?;
    if let Some(map) = map_names::map_after(rest, n) {
        return Some(Request::Plain {
            accord: Accord { map, u },
        });
    }
    window(u, &rest[n + 1..])
}
