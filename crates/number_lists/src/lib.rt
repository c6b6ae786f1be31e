// The numbers that the tokens of a text write, read into a list that is lent: whole numbers, or numbers of 32 or 64 bits. The tokens and the numbers are those of `text`;
// specs/Many.antt says which numbers there are, and what the list holds where a token writes none.
#![tactic(auto)]

ghost use Rattle.std.specs.Prelude.{◌≡◌, ℕ, List, Option};
ghost use Rattle.number_lists.specs.Many.{whole_in, number_in, wide_in, Lists};

use text::{number, token};

// A number that a token can write.
pub trait Written: Copy {
    ghost written: { List ℕ → Option Self };

    // The number that the token writes, if it writes one.
    fn read(token: &[u8]) -> Option<Self>
        ensures { result ≡ written token.now };
}

// Whole numbers of 32 bits.
impl Written for i32 {
    ghost written = { whole_in };

    fn read(token: &[u8]) -> Option<i32> {
        number::signed(token)
    }
}

// Numbers of 0 to 4294967295.
impl Written for u32 {
    ghost written = { number_in };

    fn read(token: &[u8]) -> Option<u32> {
        number::decimal(token, u32::MAX)
    }
}

// Numbers of 64 bits.
impl Written for u64 {
    ghost written = { wide_in };

    fn read(token: &[u8]) -> Option<u64> {
        number::wide(token)
    }
}

// How many numbers all tokens of s write, into the first places of the list that is lent. Where a token is no such number,
// or there are more of them than places, it is `None`, and those before it have been put there.
pub fn list<N: Written>(s: &[u8], list: &mut [N]) -> Option<usize>
    ensures { Lists N.written s.now list.old result list.new }
{
    let mut from = 0;
    for k in 0..list.len() {
        let end = from + token::before(&s[from..], b' ');
        list[k] = N::read(&s[from..end])?;
        if end == s.len() {
            return Some(k + 1);
        }
        from = end + 1;
    }
    None
}
