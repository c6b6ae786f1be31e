// The library for C and Rust: both ends over numbers and slices only, their states in words that the caller lends.
//
// Each function reads the state, calls the door that it wraps, and writes the state back where it changed. A state is read as closed
// where it is too short, its tag is another, or the record in it is not sound (crate c_states). Where two functions differ in a map or in marks
// alone, both stay: C has no default for an argument, and calls each by its name.
#![tactic(auto)]

ghost use Rattle.std.specs.Prelude.{◌≡◌, ◌≤◌, length};
ghost use Rattle.points.specs.Agreed.{of_width};
ghost use Rattle.c_layout.specs.Accords.{accord_by};
ghost use Rattle.reasons.specs.Reason.{given_of};
ghost use Rattle.receiver_meaning.specs.Piece.{marked_piece, piece_of};
ghost use Rattle.piece_input.specs.Marks.{piece_by};
ghost use Rattle.openings.specs.Given.{plain_window, start_at};
ghost use Rattle.c_samples.specs.Counts.{told_of};
ghost use Rattle.c_samples.specs.Calls.{sample_call, samples_call, marked_call};
ghost use Rattle.c_samples.specs.Promise.{Samples, Converts};
ghost use Rattle.demfizagu.specs.Calls.{sender_opening, receiver_opening, send_call, send_list_call, hear_call, finish_call, pending_in, open_in};
ghost use Rattle.demfizagu.specs.Promise.{Opens, OpensAs, Sends, SendsList, Answers, ChecksCard};
ghost use Rattle.c_layout.specs.Layout.{sender_length, receiver_length};
ghost use Rattle.recorder.specs.Promise.{OpenTaped};
ghost use Rattle.c_recorder.specs.Calls as taped;
ghost use Rattle.c_recorder.specs.Promise.{Records};
ghost use Rattle.c_states.specs.State.{sender_in, receiver_in};
ghost use Rattle.c_replay_state.specs.Table.{replay_length};
ghost use Rattle.c_replay.specs.Calls.{start_call, feed_call, end_call};
ghost use Rattle.c_replay.specs.Promise.{Starts, Feeds, Ends};
ghost use Rattle.card.specs.Promise.{card_of};

use c_samples::tell;
use c_states::{
    Copied, holds_receiver, load_front, load_receiver, load_sender, store_front, store_receiver,
    store_sender,
};
use openings::{Opened, Start};
use reasons::Why;

pub fn demfizagu_version() -> u32
    ensures { result ≡ 1 }
{
    1
}

pub fn demfizagu_sender_words() -> usize
    ensures { result ≡ sender_length }
{
    c_layout::SENDER_WORDS
}

pub fn demfizagu_receiver_words() -> usize
    ensures { result ≡ receiver_length }
{
    c_layout::RECEIVER_WORDS
}

pub fn demfizagu_sender_open(state: &mut [u64], u: u32) -> u32
    ensures { Opens sender_in (sender_opening state.old (of_width u)) result state.new }
{
    demfizagu_sender_open_map(state, 0, u)
}

// The same on the map with this number: 0 is the round map, 1 the square map.
pub fn demfizagu_sender_open_map(state: &mut [u64], map: u32, u: u32) -> u32
    ensures { Opens sender_in (sender_opening state.old (accord_by map u)) result state.new }
{
    if state.len() < c_layout::SENDER_WORDS {
        return 8;
    }
    let o = sender::open_sender(c_layout::accord_by(map, u));
    store_sender(o.sender, state);
    sender::number(o.why)
}

// Refused, in this order: a closed sender, a bit at or above 3 + 2u, an output shorter than four places.
pub fn demfizagu_send(state: &mut [u64], word: u32, out: &mut [i32]) -> u32
    ensures { Sends (send_call state.old word out.old) result state.new out.new }
{
    let a = sender::send(load_sender(state), word, out);
    let n = sender::number(a.why);
    if n != 0 {
        return n;
    }
    store_sender(a.sender, state);
    n
}

// A list of words, word by word up to the first that is refused. The state is written back where a word was sent.
pub fn demfizagu_send_list(
    state: &mut [u64],
    words: &[u32],
    out: &mut [i32],
    told: &mut [u64],
) -> u32
    ensures { SendsList (send_list_call state.old words.now out.old told.old) result state.new out.new told.new }
{
    if told.len() < 3 {
        return 8;
    }
    let a = sender::send_list(load_sender(state), words, out);
    tell(told, a.sent, 4 * a.sent, 0);
    let n = sender::number(a.why);
    if a.sent == 0 {
        return n;
    }
    store_sender(a.sender, state);
    n
}

// What an opening gave, in a state that is long enough.
fn opened(state: &mut [u64], o: Opened) -> u32
    ensures { OpensAs o state.old result state.new }
{
    if state.len() < c_layout::RECEIVER_WORDS {
        return 8;
    }
    store_receiver(o.receiver, state);
    reasons::number(o.why)
}

pub fn demfizagu_receiver_open(state: &mut [u64], u: u32, window: u32, start: u32) -> u32
    ensures { Opens receiver_in (receiver_opening state.old (of_width u) window (start_at start)) result state.new }
{
    demfizagu_receiver_open_map(state, 0, u, window, start)
}

// The same on the map with this number.
pub fn demfizagu_receiver_open_map(
    state: &mut [u64],
    map: u32,
    u: u32,
    window: u32,
    start: u32,
) -> u32
    ensures { Opens receiver_in (receiver_opening state.old (accord_by map u) window (start_at start)) result state.new }
{
    opened(
        state,
        openings::open_receiver(
            c_layout::accord_by(map, u),
            window,
            openings::start_at(start),
        ),
    )
}

// The plain opening of the receiver.
pub fn demfizagu_receiver_open_plain(state: &mut [u64], u: u32) -> u32
    ensures { Opens receiver_in (receiver_opening state.old (of_width u) plain_window Start.Free) result state.new }
{
    opened(state, openings::open_plain(c_layout::accord_by(0, u)))
}

// What a call came to, in the first three places of `told`. Gives its number.
fn answer(told: &mut [u64], taken: usize, written: usize, why: Result<(), Why>) -> u32
    requires { 3 ≤ length told.old }
    ensures { (result ≡ (given_of why).number) × (told.new ≡ told_of taken written (given_of why).place told.old) }
{
    tell(told, taken, written, reasons::place(why) as usize);
    reasons::number(why)
}

// A piece, with its marks where it has any. The receiver is heard in its parts: its picks, half of it, stay in the state, and the rest
// is copied out of it, and back where a symbol was taken.
fn hear_piece(
    state: &mut [u64],
    marks: Option<&[u8]>,
    piece: &[i32],
    out: &mut [u32],
    told: &mut [u64],
) -> u32
    ensures { Answers (hear_call state.old (piece_by marks.entry piece.now) out.old told.old) result
        state.new out.new told.new }
{
    if told.len() < 3 {
        return 8;
    }
    if !holds_receiver(state) {
        return answer(told, 0, 0, Err(Why::Closed));
    }
    let Copied {
        core,
        mut sums,
        mut registers,
    } = load_front(state);
    let a = receiver::hear_piece_lent(
        true,
        core,
        marks,
        piece,
        &mut sums,
        &mut registers,
        &mut state[c_layout::PICKS..c_layout::RECEIVER_WORDS],
        out,
    );
    let n = answer(told, a.taken, a.written, a.why);
    if a.taken == 0 {
        return n;
    }
    let front = Copied {
        core: a.core,
        sums,
        registers,
    };
    store_front(true, front, state);
    n
}

pub fn demfizagu_hear(state: &mut [u64], piece: &[i32], out: &mut [u32], told: &mut [u64]) -> u32
    ensures { Answers (hear_call state.old (piece_of piece.now) out.old told.old) result state.new out.new told.new }
{
    hear_piece(state, None, piece, out, told)
}

// A mark for each symbol: 0 both points heard, 1 the first missing, 2 the second, 3 both.
pub fn demfizagu_hear_marked(
    state: &mut [u64],
    piece: &[i32],
    marks: &[u8],
    out: &mut [u32],
    told: &mut [u64],
) -> u32
    ensures { Answers (hear_call state.old (marked_piece marks.now piece.now) out.old told.old) result
        state.new out.new told.new }
{
    hear_piece(state, Some(marks), piece, out, told)
}

// The state is written back, closed, where the finish was done.
pub fn demfizagu_finish(state: &mut [u64], out: &mut [u32], told: &mut [u64]) -> u32
    ensures { Answers (finish_call state.old out.old told.old) result state.new out.new told.new }
{
    if told.len() < 3 {
        return 8;
    }
    let a = receiver::finish(load_receiver(state), out);
    let n = answer(told, a.taken, a.written, a.why);
    if n != 0 {
        return n;
    }
    store_receiver(a.receiver, state);
    n
}

// 0 of a sender and of a closed state.
pub fn demfizagu_pending(state: &[u64]) -> u32
    ensures { result ≡ pending_in state.now }
{
    openings::pending(load_receiver(state)) as u32
}

pub fn demfizagu_is_open(state: &[u64]) -> u32
    ensures { result ≡ open_in state.now }
{
    u32::from(openings::is_open(load_receiver(state)) || sender::is_open(load_sender(state)))
}

pub fn demfizagu_sample(x: f32, y: f32, out: &mut [i32]) -> u32
    ensures { Samples (sample_call x y out.old) result out.new }
{
    c_samples::convert_sample(x, y, out)
}

// Refused as a whole where the length is odd.
pub fn demfizagu_samples(floats: &[f32], out: &mut [i32], told: &mut [u64]) -> u32
    ensures { Converts (samples_call floats.now out.old told.old) result out.new told.new }
{
    c_samples::convert_list(floats, out, told)
}

// A mark for each sample: 0 heard, 1 missing. Refused as a whole where the marks do not fit.
pub fn demfizagu_samples_marked(
    floats: &[f32],
    missing: &[u8],
    out: &mut [i32],
    told: &mut [u64],
) -> u32
    ensures { Converts (marked_call floats.now missing.now out.old told.old) result out.new told.new }
{
    c_samples::convert_marked(floats, missing, out, told)
}

// The record of an opening: 8 where the bytes are too short for it, then 1, 2, 3. A refusal writes no byte.
pub fn demfizagu_record_open(u: u32, window: u32, start: u32, bytes: &mut [u8]) -> u32
    ensures { OpenTaped (of_width u) window start bytes.old result bytes.new }
{
    demfizagu_record_open_map(0, u, window, start, bytes)
}

// The same on the map with this number: the square map's opens with kind 6.
pub fn demfizagu_record_open_map(map: u32, u: u32, window: u32, start: u32, bytes: &mut [u8]) -> u32
    ensures { OpenTaped (accord_by map u) window start bytes.old result bytes.new }
{
    recorder::record_open(c_layout::accord_by(map, u), window, start, bytes)
}

pub fn demfizagu_hear_recorded(
    state: &mut [u64],
    piece: &[i32],
    out: &mut [u32],
    bytes: &mut [u8],
    told: &mut [u64],
) -> u32
    ensures { Records (taped.hear_call state.old (piece_of piece.now) out.old bytes.old told.old)
        result state.new out.new bytes.new told.new }
{
    c_recorder::hear_recorded(state, piece, out, bytes, told)
}

pub fn demfizagu_hear_marked_recorded(
    state: &mut [u64],
    piece: &[i32],
    marks: &[u8],
    out: &mut [u32],
    bytes: &mut [u8],
    told: &mut [u64],
) -> u32
    ensures { Records (taped.hear_call state.old (marked_piece marks.now piece.now) out.old bytes.old told.old)
        result state.new out.new bytes.new told.new }
{
    c_recorder::hear_marked_recorded(state, piece, marks, out, bytes, told)
}

pub fn demfizagu_finish_recorded(
    state: &mut [u64],
    out: &mut [u32],
    bytes: &mut [u8],
    told: &mut [u64],
) -> u32
    ensures { Records (taped.finish_call state.old out.old bytes.old told.old)
        result state.new out.new bytes.new told.new }
{
    c_recorder::finish_recorded(state, out, bytes, told)
}

pub fn demfizagu_replay_words() -> usize
    ensures { result ≡ replay_length }
{
    c_replay_state::table::WORDS
}

pub fn demfizagu_replay_start(state: &mut [u64]) -> u32
    ensures { Starts (start_call state.old) result state.new }
{
    c_replay::start(state)
}

// A lump of a capture's bytes, which may be empty and may end inside a record.
pub fn demfizagu_replay_feed(
    state: &mut [u64],
    lump: &[u8],
    line: &mut [u8],
    told: &mut [u64],
) -> u32
    ensures { Feeds state.old lump.now (feed_call state.old lump.now line.old told.old) result
        state.new line.new told.new }
{
    c_replay::feed(state, lump, line, told)
}

pub fn demfizagu_replay_end(state: &mut [u64], line: &mut [u8], told: &mut [u64]) -> u32
    ensures { Ends (end_call state.old line.old told.old) result state.new line.new told.new }
{
    c_replay::end(state, line, told)
}

// The check of another maker's decoder, which chose a sequence for a list of symbols: 1 where it is accepted, else 0. No end is needed.
pub fn demfizagu_check_card(
    map: u32,
    u: u32,
    coordinates: &[i32],
    states: &[u32],
    symbols: &[u32],
    numbers: &[u64],
) -> u32
    ensures { ChecksCard (accord_by map u) (card_of coordinates.now states.now symbols.now numbers.now) result }
{
    u32::from(card::check(
        c_layout::accord_by(map, u),
        coordinates,
        states,
        symbols,
        numbers,
    ))
}
