// Lists that a loop goes through from the front, place by place: those that it fills (specs/Tabled, and what one more store makes of them,
// proofs/Filled), those of which it asks whether any number is above a bound (specs/UpTo, proofs/UpTo), and those whose rest is lent to a
// call (proofs/Lent). The functions ask it of bytes, and copy words.
#![tactic(auto)]

ghost use Rattle.std.specs.Prelude.{◌≡◌, ◌++◌, ◌≤◌, length, drop};
ghost use Rattle.lists.specs.UpTo.{all_up_to};

// Whether no byte is above `most`. `all_up_to` of sums is as short a line over sums: one generic function for both would be no plainer.
pub fn bytes_up_to(list: &[u8], most: u8) -> bool
    ensures { result ≡ all_up_to most list.now }
{
    list.iter().all(|x| *x <= most)
}

// Copies all of `from` to the front of `to`.
pub fn copy(from: &[u64], to: &mut [u64])
    requires { length from.now ≤ length to.old }
    ensures { to.new ≡ from.now ++ drop (length from.now) to.old }
{
    to[..from.len()].copy_from_slice(from);
}
