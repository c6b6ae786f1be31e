// Tokens: the parts of a line that stand between single spaces.
ghost use Rattle.std.specs.Prelude.{◌≡◌};
ghost use Rattle.text.specs.Token.{Cuts, same_bytes};

// How many bytes stand before the first that is b, or all of them where there is none.
pub fn before(s: &[u8], b: u8) -> usize
    ensures { Cuts b s.now result }
{
    s.iter().position(|&x| x == b).unwrap_or(s.len())
}

// Whether the two are the same bytes.
pub fn same(a: &[u8], b: &[u8]) -> bool
    ensures { result ≡ same_bytes a.now b.now }
{
    a == b
}
