// The edge of the programs: one read, one loop over all chunks, one write, whether a word was given, and the line that tells why a read or a
// write failed. What a file or a pipe holds, and what becomes of bytes that are written, no contract can say; of a reader whose bytes are
// known, `read` and `each_chunk` say which were had. Nothing here allocates.
#![tactic(auto)]

ghost use Rattle.std.specs.Prelude.{◌≡◌, ◌<◌, ◌≤◌, List, length, take, Some, IfSome};
ghost use Rattle.std.specs.List.{FoldsTo};
ghost use Rattle.std.specs.Io.KnownBytes.{Consumes, IsAtEnd};
ghost use Rattle.edge.specs.Chunks.{joined};

use std::env::{Env, FillError};
use std::fmt::InlineText;
use std::io::{Error, Print, Read, Stderr, Stdout};

// The two streams that a program prints on.
#[derive(Clone, Copy)]
pub struct Streams {
    pub out: Stdout,
    pub err: Stderr,
}

// Text for the error stream. Where that fails there is nowhere to tell it.
pub fn note(to: Streams, text: &[u8]) {
    let _ = to.err.write_all(text);
}

// A line on the error stream: what failed, as the caller names it, a colon, and the system's text for it.
pub fn tell(to: Streams, what: &[u8], why: Error) {
    let shown = InlineText::<256>::of(why);
    let text = shown.as_str();
    let name = text
        .split_once(" (os error ")
        .map_or(text, |(name, _)| name);
    note(to, what);
    note(to, b": ");
    note(to, name.as_bytes());
    note(to, b"\n");
}

// Reads once, and answers how many bytes it gave, 0 at the input's end or where the chunk is empty. A read that failed is told, and gives none.
pub fn read<R: Read>(from: &mut R, chunk: &mut [u8], to: Streams, what: &[u8]) -> Option<usize>
    ensures within { IfSome result (λ n. n ≤ length chunk.new) }
    ensures bytes { IfSome result (λ n. Consumes (R.remaining from.old) (R.remaining from.new) (take n chunk.new)) }
    ensures ends { IfSome result (λ n. n ≡ 0 → 0 < length chunk.new → IsAtEnd (R.remaining from.new)) }
{
    match from.read(chunk) {
        Ok(n) => Some(n),
        Err(why) => {
            tell(to, what, why);
            None
        }
    }
}

// All that the reader has, chunk after chunk: each goes to the step with what the chunks before it left. Gives what the last one left, once a
// read gave nothing, which is the reader's end where the chunk has room. Gives none where a read failed, which is told, or where the step left
// nothing. A proved loop has to end, and nothing says that the input does: after 2^64 - 1 reads it gives none too, and no run uses up so many.
pub fn each_chunk<R: Read, T: Copy, F: FnMut(T, &[u8]) -> Option<T>>(
    from: &mut R,
    chunk: &mut [u8],
    to: Streams,
    what: &[u8],
    first: T,
    mut step: F,
) -> Option<T>
    requires first_taken { (b : _) → F.pre step first b }
    requires next_taken { (f : F) (x : T) (b : _) (y : T) (g : F) → F.pre f x b → F.step f x b (Some y) g → (c : _) → F.pre g y c }
    ensures last_taken { IfSome result (λ last. (f : F) × ((b : _) → F.pre f last b)) }
    ensures handed { IfSome result (λ last. (f : F) × (bs : List _) × FoldsTo {P = F × T} (λ p b q. F.step p.0 p.1 b (Some q.1) q.0) (step, first) bs (f, last)
        × Consumes (R.remaining from.old) (R.remaining from.new) (joined bs)) }
    ensures ends { IfSome result (λ last. 0 < length chunk.new → IsAtEnd (R.remaining from.new)) }
{
    let mut now = first;
    for _ in 0..u64::MAX {
        let n = read(from, chunk, to, what)?;
        if n == 0 {
            return Some(now);
        }
        now = step(now, &chunk[..n])?;
    }
    None
}

// Writes all of it to standard output. Where that fails it is told, and the answer is false: a bool, since the error is used up here.
pub fn write(to: Streams, text: &[u8], what: &[u8]) -> bool {
    match to.out.write_all(text) {
        Ok(()) => true,
        Err(why) => {
            tell(to, what, why);
            false
        }
    }
}

// Whether the program was given an argument of this number; 0 is its own name.
pub fn is_given<E: Env>(env: &E, i: usize) -> bool {
    let mut word = [0u8; 1];
    !matches!(env.arg(i, &mut word), Err(FillError::NotPresent))
}

// The error of an argument that was not had: it is missing, or it is longer than the room for it.
pub fn why_not_filled(why: FillError) -> Error {
    match why {
        FillError::NotPresent => Error::from_raw_os_error(22),
        FillError::TooLong => Error::from_raw_os_error(36),
    }
}

// A line on the error stream about the name of a file that is no text: std opens none such.
pub fn wants_text(to: Streams, name: &[u8]) {
    note(to, name);
    note(to, b": the name of a file has to be UTF-8\n");
}
