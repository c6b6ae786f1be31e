// The receiver: turns received pairs of points into words, and says a word only when it is final.
//
// An opening (crate openings) gives a receiver. `hear` takes a piece of coordinates, four to a symbol, writes the words that become
// final straight after one another into the lent output, and gives the receiver back with how many symbols it took, how many words it
// wrote and why it stopped. `hear_marked` takes a piece of which points may be missing: a mark for each symbol says which. `finish`
// writes the pending words of the answer and closes the receiver. A refused symbol leaves the receiver as it was. A closed receiver,
// and any record that is out of range, is answered 9.
#![tactic(auto)]

ghost use Rattle.std.specs.Prelude.{◌≡◌, ◌&&◌, Err};
ghost use Rattle.machine.specs.Machine.{core, sound_core};
ghost use Rattle.lists.specs.UpTo.{all_up_to};
ghost use Rattle.sums.specs.Sums.{limit};
ghost use Rattle.receiver_meaning.specs.Piece.{marked_piece, piece_of};
ghost use Rattle.piece_input.specs.Marks.{piece_by};
ghost use Rattle.receiver.specs.Promise.{lent_live, HearsLent, Hears, Finishes};

use machine::{Core, Receiver};
use pieces::Heard;
use reasons::Why;

#[derive(Clone, Copy)]
pub struct Answer {
    pub receiver: Receiver,
    pub taken: usize,
    pub written: usize,
    pub why: Result<(), Why>,
}

fn stopped(rx: Receiver, why: Why) -> Answer
    ensures { result ≡ record { receiver = rx; taken = 0; written = 0; why = Err why } }
{
    Answer {
        receiver: rx,
        taken: 0,
        written: 0,
        why: Err(why),
    }
}

fn nothing_heard(core: Core, why: Why) -> Heard
    ensures { result ≡ record { core = core; taken = 0; written = 0; why = Err why } }
{
    Heard {
        core,
        taken: 0,
        written: 0,
        why: Err(why),
    }
}

// Whether parts that are lent are those of an open receiver in range.
fn lent_fit(live: bool, core: Core, sums: &[u32; 16], picks: &[u64]) -> bool
    ensures { result ≡ (lent_live live picks.now && (sound_core core && all_up_to limit sums.now)) }
{
    picks.len() == 72 && openings::parts_fit(live, core, sums)
}

// A piece, with its marks where it has any, to a receiver in its parts, whose lists are lent, for a caller that keeps them elsewhere:
// nothing is copied. The picks may be a part of the caller's own words; where these are not 72, they are no receiver's, and the answer
// is that of a closed one.
// Inlined, since a call of its own costs a piece of one symbol 5 parts in 100 more.
#[inline]
pub fn hear_piece_lent(
    live: bool,
    core: Core,
    marks: Option<&[u8]>,
    samples: &[i32],
    sums: &mut [u32; 16],
    registers: &mut [u64; 48],
    picks: &mut [u64],
    out: &mut [u32],
) -> Heard
    ensures { HearsLent live core sums.old registers.old picks.old (piece_by marks.entry samples.now) out.old
        result sums.new registers.new picks.new out.new }
{
    if !lent_fit(live, core, sums, picks) {
        return nothing_heard(core, Why::Closed);
    }
    if !piece_input::fits(marks, samples.len()) {
        return nothing_heard(core, Why::Uneven);
    }
    pieces::hear_symbols(core, marks, samples, sums, registers, picks, out)
}

// A piece to a whole receiver, whose arrays are lent to each symbol.
fn hear_piece(mut rx: Receiver, marks: Option<&[u8]>, samples: &[i32], out: &mut [u32]) -> Answer
    ensures { Hears rx (piece_by marks.entry samples.now) out.old result out.new }
{
    let Heard {
        core,
        taken,
        written,
        why,
    } = hear_piece_lent(
        rx.live,
        rx.core,
        marks,
        samples,
        &mut rx.sums,
        &mut rx.registers,
        &mut rx.picks,
        out,
    );
    Answer {
        receiver: Receiver { core, ..rx },
        taken,
        written,
        why,
    }
}

// A piece of four coordinates to a symbol. Refused as a whole where the receiver is closed or the length is no multiple of 4.
pub fn hear(rx: Receiver, samples: &[i32], out: &mut [u32]) -> Answer
    ensures { Hears rx (piece_of samples.now) out.old result out.new }
{
    hear_piece(rx, None, samples, out)
}

// The same with a mark for each symbol: 0 both points heard, 1 the first missing, 2 the second, 3 both. The coordinates of a missing
// point are there, and are not looked at. Refused as a whole, with 10, also where the marks are not one for each symbol or one is above 3.
pub fn hear_marked(rx: Receiver, samples: &[i32], marks: &[u8], out: &mut [u32]) -> Answer
    ensures { Hears rx (marked_piece marks.now samples.now) out.old result out.new }
{
    hear_piece(rx, Some(marks), samples, out)
}

// The pending words of the answer, and a closed receiver. Refused where there is no room for all of them.
pub fn finish(rx: Receiver, out: &mut [u32]) -> Answer
    ensures { Finishes rx out.old result out.new }
{
    if !openings::is_open(rx) {
        return stopped(rx, Why::Closed);
    }
    let pending = rx.core.pending;
    if out.len() < pending {
        return stopped(rx, Why::NoRoom);
    }
    let s = sums::end_state(&rx.sums);
    machine::write_words(rx.core, &rx.registers, &rx.picks, s, pending, out);
    Answer {
        receiver: openings::closed_receiver(),
        taken: 0,
        written: pending,
        why: Ok(()),
    }
}
