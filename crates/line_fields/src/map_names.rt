// The map that a line names at the end of an opening: nothing is the round map, `square` the square one.
//
// Which tokens name a map is specs/Names.antt. Each contract is an equation of the result with one definition, so any two results that
// it allows are equal.
ghost use Rattle.std.specs.Prelude.{◌≡◌, drop};
ghost use Rattle.text.specs.Token.{tokens, Cuts};
ghost use Rattle.line_fields.specs.Names.{map_named, numbered_of};

use points::Map;
use text::{number, token};

#[derive(Clone, Copy)]
pub struct Numbered {
    pub map: Map,
    pub number: u32,
}

// The map that the tokens after the first name, which ends at n.
pub fn map_after(rest: &[u8], n: usize) -> Option<Map>
    requires { Cuts 32 rest.now n }
    ensures { result ≡ map_named (drop 1 (tokens rest.now)) }
{
    if n == rest.len() {
        return Some(Map::Round);
    }
    if token::same(&rest[n + 1..], b"square") {
        return Some(Map::Square);
    }
    None
}

// A number, and the map after it.
pub fn number_and_map(rest: &[u8]) -> Option<Numbered>
    ensures { result ≡ numbered_of (tokens rest.now) }
{
    let n = token::before(rest, b' ');
    let number = number::decimal(&rest[..n], u32::MAX)?;
    let map = map_after(rest, n)?;
    Some(Numbered { map, number })
}
