// Numbers as a token writes them: digits and nothing else, before a whole number one minus. A token that writes none gives `None`.
ghost use Rattle.std.specs.Prelude.{◌≡◌, ◌≤◌, pos, neg_ℤ};
ghost use Rattle.text.specs.Number.{digit_of, number_of, whole_of, hex_of};

// The worth of a digit, 0 to 15.
pub fn digit(b: u8) -> Option<u64>
    ensures { result ≡ digit_of b }
{
    match b {
        b'0'..=b'9' => Some(u64::from(b - b'0')),
        b'A'..=b'F' => Some(u64::from(b - b'A') + 10),
        b'a'..=b'f' => Some(u64::from(b - b'a') + 10),
        _ => None,
    }
}

// The number that the digits of this base write, at least one and any number of zeros in front, if there is no other byte and the
// number is at most `most`.
fn digits(s: &[u8], base: u64, most: u64) -> Option<u64>
    requires { (1 ≤ base) × (base ≤ 16) }
    ensures { result ≡ number_of base most s.now }
{
    if s.is_empty() {
        return None;
    }
    let mut n: u64 = 0;
    for &b in s {
        let d = digit(b)?;
        if base <= d {
            return None;
        }
        n = n.checked_mul(base)?.checked_add(d)?;
        if most < n {
            return None;
        }
    }
    Some(n)
}

// The same where 32 bits hold it.
fn short(s: &[u8], base: u64, most: u32) -> Option<u32>
    requires { (1 ≤ base) × (base ≤ 16) }
    ensures { result ≡ number_of base most s.now }
{
    Some(digits(s, base, u64::from(most))? as u32)
}

pub fn decimal(s: &[u8], most: u32) -> Option<u32>
    ensures { result ≡ number_of 10 most s.now }
{
    short(s, 10, most)
}

// Decimal digits of any number that 64 bits hold.
pub fn wide(s: &[u8]) -> Option<u64>
    ensures { result ≡ number_of 10 18446744073709551615 s.now }
{
    digits(s, 10, u64::MAX)
}

// Exactly eight digits.
pub fn hex(s: &[u8]) -> Option<u32>
    ensures { result ≡ hex_of s.now }
{
    if s.len() != 8 {
        return None;
    }
    short(s, 16, u32::MAX)
}

// 0 less n.
fn minus(n: u32) -> i32
    requires { n ≤ 2147483648 }
    ensures { result ≡ neg_ℤ (pos n) }
{
    (-i64::from(n)) as i32
}

// A whole number of 32 bits, with or without a minus; -0 is 0.
pub fn signed(s: &[u8]) -> Option<i32>
    ensures { result ≡ whole_of s.now }
{
    match s.strip_prefix(b"-") {
        Some(size) => Some(minus(decimal(size, 2147483648)?)),
        None => Some(decimal(s, 2147483647)? as i32),
    }
}
