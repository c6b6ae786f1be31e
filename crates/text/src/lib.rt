// Text that programs read in lines: tokens of a line, and the numbers that they write.
//
// A line is a slice of bytes. `token::before` says how long its first token is, tokens being separated by one space;
// `number::decimal`, `number::signed` and `number::hex` read one token that is nothing but a number.
#![tactic(auto)]

pub mod number;
pub mod token;
