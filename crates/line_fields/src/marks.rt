// The marks of a piece as a line writes them: a row of digits 0 to 3, one for each symbol, or `-` for none. They go to the start of a list
// that is lent. specs/Row.antt says which rows there are; the bytes of a token are those of `text`.
ghost use Rattle.std.specs.Prelude.{◌≡◌, true, ◌++◌, ◌≤◌, length, drop};
ghost use Rattle.line_fields.specs.Row.{all_marks, marks_of, is_row, Row};

use text::token;

// The most symbols that a line can mark.
const MOST: usize = 1024;

fn are_marks(row: &[u8]) -> bool
    ensures { result ≡ all_marks row.now }
{
    row.iter().all(|&b| matches!(b, b'0'..=b'3'))
}

fn put(row: &[u8], marks: &mut [u8])
    requires { (all_marks row.now ≡ true) × (length row.now ≤ length marks.old) }
    ensures { marks.new ≡ marks_of row.now ++ drop (length row.now) marks.old }
{
    for i in 0..row.len() {
        marks[i] = row[i] - b'0';
    }
}

// Whether the token is a row of marks, and there is room for them.
fn is_row(token: &[u8], room: usize) -> bool
    ensures { result ≡ is_row room token.now }
{
    let n = token.len();
    if n < 1 || MOST < n || room < n {
        return false;
    }
    are_marks(token)
}

// How many symbols the token marks. Where it is no row of marks, or one too long, the list stays as it was.
pub fn read(token: &[u8], marks: &mut [u8]) -> Option<usize>
    ensures { Row token.now marks.old result marks.new }
{
    if token::same(token, b"-") {
        return Some(0);
    }
    if !is_row(token, marks.len()) {
        return None;
    }
    put(token, marks);
    Some(token.len())
}
