// Fields of a text, one after another, each of so many tokens: the numbers that they write are read from a place on into a list that is
// lent, as many as it has places. The marks of a piece are read in `marks`, the map at the end of an opening in `map_names`.
//
// A place is where a token begins; past the text's end no token is left. The tokens, and the numbers that they write, are those of `text`
// and `number_lists`; specs/Fields.antt says what is read, and each contract settles the answer and, where there is one, the list.
#![tactic(auto)]

pub mod map_names;
pub mod marks;

ghost use Rattle.std.specs.Prelude.{length};
ghost use Rattle.line_fields.specs.Fields.{Gives};

use number_lists::Written;
use text::token;

// The place after the field, if there are so many tokens from `at` on and each writes a number.
pub fn numbers<N: Written>(s: &[u8], at: usize, list: &mut [N]) -> Option<usize>
    ensures { Gives N.written s.now at (length list.old) result list.new }
{
    let mut from = at;
    for k in 0..list.len() {
        if s.len() < from {
            return None;
        }
        let end = from + token::before(&s[from..], b' ');
        list[k] = N::read(&s[from..end])?;
        from = end + 1;
    }
    Some(from)
}
