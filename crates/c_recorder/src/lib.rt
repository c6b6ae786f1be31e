// The recorder for the library: a piece and a finish on a state in words that the caller lends, with their records in lent bytes. As
// `demfizagu_hear` and `demfizagu_finish`, with how many bytes were recorded in the fourth place of `told`.
#![tactic(auto)]

ghost use Rattle.std.specs.Prelude.{◌≡◌, ◌≤◌, length};
ghost use Rattle.reasons.specs.Reason.{given_of};
ghost use Rattle.receiver_meaning.specs.Piece.{marked_piece, piece_of};
ghost use Rattle.piece_input.specs.Marks.{piece_by};
ghost use Rattle.c_recorder.specs.Calls.{told_four, hear_call, finish_call};
ghost use Rattle.c_recorder.specs.Promise.{Records};

use c_states::{Copied, holds_receiver, load_front, load_receiver, store_front, store_receiver};
use reasons::Why;

// What a call came to, in the first four places of `told`. Gives its number.
fn answer(
    told: &mut [u64],
    taken: usize,
    written: usize,
    recorded: usize,
    why: Result<(), Why>,
) -> u32
    requires { 4 ≤ length told.old }
    ensures { (result ≡ (given_of why).number) × (told.new ≡ told_four taken written (given_of why).place recorded told.old) }
{
    let place = u64::from(reasons::place(why));
    told[..4].copy_from_slice(&[taken as u64, written as u64, place, recorded as u64]);
    reasons::number(why)
}

// A piece, with its marks where it has any. The receiver is heard in its parts: its picks stay in the state, and the rest is copied out
// of it, and back where a symbol was taken. The plain call's `hear_piece` (demfizagu) has this form; each tells an answer of its own.
fn hear_piece(
    state: &mut [u64],
    marks: Option<&[u8]>,
    piece: &[i32],
    out: &mut [u32],
    bytes: &mut [u8],
    told: &mut [u64],
) -> u32
    ensures { Records (hear_call state.old (piece_by marks.entry piece.now) out.old bytes.old told.old)
        result state.new out.new bytes.new told.new }
{
    if told.len() < 4 {
        return 8;
    }
    if !holds_receiver(state) {
        return answer(told, 0, 0, 0, Err(Why::Closed));
    }
    let Copied {
        core,
        mut sums,
        mut registers,
    } = load_front(state);
    let a = recorder::hear_piece_lent(
        true,
        core,
        marks,
        piece,
        &mut sums,
        &mut registers,
        &mut state[c_layout::PICKS..c_layout::RECEIVER_WORDS],
        out,
        bytes,
    );
    let n = answer(told, a.taken, a.written, a.recorded, a.why);
    if a.taken == 0 {
        return n;
    }
    let front = Copied {
        core: a.core,
        sums,
        registers,
    };
    store_front(true, front, state);
    n
}

pub fn hear_recorded(
    state: &mut [u64],
    piece: &[i32],
    out: &mut [u32],
    bytes: &mut [u8],
    told: &mut [u64],
) -> u32
    ensures { Records (hear_call state.old (piece_of piece.now) out.old bytes.old told.old)
        result state.new out.new bytes.new told.new }
{
    hear_piece(state, None, piece, out, bytes, told)
}

pub fn hear_marked_recorded(
    state: &mut [u64],
    piece: &[i32],
    marks: &[u8],
    out: &mut [u32],
    bytes: &mut [u8],
    told: &mut [u64],
) -> u32
    ensures { Records (hear_call state.old (marked_piece marks.now piece.now) out.old bytes.old told.old)
        result state.new out.new bytes.new told.new }
{
    hear_piece(state, Some(marks), piece, out, bytes, told)
}

// The state is written back, closed, where the finish was done.
pub fn finish_recorded(
    state: &mut [u64],
    out: &mut [u32],
    bytes: &mut [u8],
    told: &mut [u64],
) -> u32
    ensures { Records (finish_call state.old out.old bytes.old told.old)
        result state.new out.new bytes.new told.new }
{
    if told.len() < 4 {
        return 8;
    }
    let a = recorder::finish(load_receiver(state), out, bytes);
    let n = answer(told, a.taken, a.written, a.recorded, a.why);
    if n != 0 {
        return n;
    }
    store_receiver(a.receiver, state);
    n
}
