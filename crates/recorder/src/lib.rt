// The recorder: the receiver's doors with a lent list of bytes beside the output. Each symbol that is taken leaves its record there, then
// the records of the words that it released; a finish leaves its own, then those of its words. What is refused leaves none. The symbols of a
// piece are `piece`'s.
#![tactic(auto)]

pub mod piece;

ghost use Rattle.std.specs.Prelude.{◌≡◌, Err};
ghost use Rattle.receiver_meaning.specs.Piece.{marked_piece, piece_of};
ghost use Rattle.piece_input.specs.Marks.{piece_by};
ghost use Rattle.receiver.specs.Promise.{parts_of};
ghost use Rattle.recorder.specs.Promise.{OpenTaped, TapesLent, Tapes, FinishTaped};

use crate::piece::Kept;
use machine::{Core, Receiver};
use points::Accord;
use reasons::Why;

// The answer of a recorded call: beside the receiver's own, how many bytes were written.
#[derive(Clone, Copy)]
pub struct Taped {
    pub receiver: Receiver,
    pub taken: usize,
    pub written: usize,
    pub recorded: usize,
    pub why: Result<(), Why>,
}

// The record of an opening, and its number: 8 where the bytes are too short for it, then what the opening itself gives. The start is a
// number, 16 the free one. A refusal writes no byte. `OpenTaped` is over the number that C is given, so a number is the answer.
pub fn record_open(accord: Accord, window: u32, start: u32, bytes: &mut [u8]) -> u32
    ensures { OpenTaped accord window start bytes.old result bytes.new }
{
    if bytes.len() < 4 {
        return 8;
    }
    let o = openings::open_receiver(accord, window, openings::start_at(start));
    let n = reasons::number(o.why);
    if n != 0 {
        return n;
    }
    record_write::put_open(accord, window, start, bytes);
    n
}

fn nothing_kept(core: Core, why: Why) -> Kept
    ensures { result ≡ record { core = core; taken = 0; written = 0; recorded = 0; why = Err why } }
{
    Kept {
        core,
        taken: 0,
        written: 0,
        recorded: 0,
        why: Err(why),
    }
}

// A piece, with its marks where it has any, to a receiver in its parts, whose lists are lent, as `receiver::hear_piece_lent` takes it.
pub fn hear_piece_lent(
    live: bool,
    core: Core,
    marks: Option<&[u8]>,
    samples: &[i32],
    sums: &mut [u32; 16],
    registers: &mut [u64; 48],
    picks: &mut [u64],
    out: &mut [u32],
    bytes: &mut [u8],
) -> Kept
    ensures { TapesLent (parts_of live core sums.old registers.old picks.old) (piece_by marks.entry samples.now)
        out.old bytes.old
        result sums.new registers.new picks.new out.new bytes.new }
{
    if picks.len() != 72 || !openings::parts_fit(live, core, sums) {
        return nothing_kept(core, Why::Closed);
    }
    if !piece_input::fits(marks, samples.len()) {
        return nothing_kept(core, Why::Uneven);
    }
    piece::record_symbols(core, marks, samples, sums, registers, picks, out, bytes)
}

// A piece to a whole receiver, as the receiver's own door lends its arrays. What the two share is the call; each gives an answer of its own.
fn hear_piece(
    mut rx: Receiver,
    marks: Option<&[u8]>,
    samples: &[i32],
    out: &mut [u32],
    bytes: &mut [u8],
) -> Taped
    ensures { Tapes rx (piece_by marks.entry samples.now) out.old bytes.old result out.new bytes.new }
{
    let Kept {
        core,
        taken,
        written,
        recorded,
        why,
    } = hear_piece_lent(
        rx.live,
        rx.core,
        marks,
        samples,
        &mut rx.sums,
        &mut rx.registers,
        &mut rx.picks,
        out,
        bytes,
    );
    Taped {
        receiver: Receiver { core, ..rx },
        taken,
        written,
        recorded,
        why,
    }
}

// A piece of four coordinates to a symbol.
pub fn hear(rx: Receiver, samples: &[i32], out: &mut [u32], bytes: &mut [u8]) -> Taped
    ensures { Tapes rx (piece_of samples.now) out.old bytes.old result out.new bytes.new }
{
    hear_piece(rx, None, samples, out, bytes)
}

// The same with a mark for each symbol. The record of one with a missing point has its mark, and zeros in the places of that point.
pub fn hear_marked(
    rx: Receiver,
    samples: &[i32],
    marks: &[u8],
    out: &mut [u32],
    bytes: &mut [u8],
) -> Taped
    ensures { Tapes rx (marked_piece marks.now samples.now) out.old bytes.old result out.new bytes.new }
{
    hear_piece(rx, Some(marks), samples, out, bytes)
}

fn stopped(rx: Receiver, why: Why) -> Taped
    ensures { result ≡ record { receiver = rx; taken = 0; written = 0; recorded = 0; why = Err why } }
{
    Taped {
        receiver: rx,
        taken: 0,
        written: 0,
        recorded: 0,
        why: Err(why),
    }
}

// The pending words of the answer, their records after that of the finish, and a closed receiver.
pub fn finish(rx: Receiver, out: &mut [u32], bytes: &mut [u8]) -> Taped
    ensures { FinishTaped rx out.old bytes.old result out.new bytes.new }
{
    if !openings::is_open(rx) {
        return stopped(rx, Why::Closed);
    }
    if bytes.len() < 1 + 5 * rx.core.pending {
        return stopped(rx, Why::NoRoom);
    }
    let a = receiver::finish(rx, out);
    if let Err(why) = a.why {
        return stopped(rx, why);
    }
    record_write::put_finish(&out[..a.written], bytes);
    Taped {
        receiver: a.receiver,
        taken: 0,
        written: a.written,
        recorded: 1 + 5 * a.written,
        why: Ok(()),
    }
}
