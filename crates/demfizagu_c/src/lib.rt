// The static library for C: each export calls the function of `demfizagu` that has its name, under the same clauses. A crate is a library for
// Rattle or one for C, so these stand apart from the code that they call; include/demfizagu.h says how to use them.
#![tactic(auto)]

ghost use Rattle.std.specs.Prelude.{◌≡◌};
ghost use Rattle.points.specs.Agreed.{of_width};
ghost use Rattle.c_layout.specs.Accords.{accord_by};
ghost use Rattle.receiver_meaning.specs.Piece.{marked_piece, piece_of};
ghost use Rattle.openings.specs.Given.{plain_window, start_at};
ghost use Rattle.c_samples.specs.Calls.{sample_call, samples_call, marked_call};
ghost use Rattle.c_samples.specs.Promise.{Samples, Converts};
ghost use Rattle.demfizagu.specs.Calls.{sender_opening, receiver_opening, send_call, send_list_call, hear_call, finish_call, pending_in, open_in};
ghost use Rattle.demfizagu.specs.Promise.{Opens, Sends, SendsList, Answers, ChecksCard};
ghost use Rattle.c_layout.specs.Layout.{sender_length, receiver_length};
ghost use Rattle.recorder.specs.Promise.{OpenTaped};
ghost use Rattle.c_recorder.specs.Calls as taped;
ghost use Rattle.c_recorder.specs.Promise.{Records};
ghost use Rattle.c_states.specs.State.{sender_in, receiver_in};
ghost use Rattle.c_replay_state.specs.Table.{replay_length};
ghost use Rattle.c_replay.specs.Calls.{start_call, feed_call, end_call};
ghost use Rattle.c_replay.specs.Promise.{Starts, Feeds, Ends};
ghost use Rattle.card.specs.Promise.{card_of};

use openings::Start;

#[unsafe(no_mangle)]
pub extern "C" fn demfizagu_version() -> u32
    ensures { result ≡ 1 }
{
    demfizagu::demfizagu_version()
}

#[unsafe(no_mangle)]
pub extern "C" fn demfizagu_sender_words() -> usize
    ensures { result ≡ sender_length }
{
    demfizagu::demfizagu_sender_words()
}

#[unsafe(no_mangle)]
pub extern "C" fn demfizagu_receiver_words() -> usize
    ensures { result ≡ receiver_length }
{
    demfizagu::demfizagu_receiver_words()
}

#[unsafe(no_mangle)]
pub extern "C" fn demfizagu_sender_open(state: &mut [u64], u: u32) -> u32
    ensures { Opens sender_in (sender_opening state.old (of_width u)) result state.new }
{
    demfizagu::demfizagu_sender_open(state, u)
}

#[unsafe(no_mangle)]
pub extern "C" fn demfizagu_sender_open_map(state: &mut [u64], map: u32, u: u32) -> u32
    ensures { Opens sender_in (sender_opening state.old (accord_by map u)) result state.new }
{
    demfizagu::demfizagu_sender_open_map(state, map, u)
}

#[unsafe(no_mangle)]
pub extern "C" fn demfizagu_send(state: &mut [u64], word: u32, out: &mut [i32]) -> u32
    ensures { Sends (send_call state.old word out.old) result state.new out.new }
{
    demfizagu::demfizagu_send(state, word, out)
}

#[unsafe(no_mangle)]
pub extern "C" fn demfizagu_send_list(
    state: &mut [u64],
    words: &[u32],
    out: &mut [i32],
    told: &mut [u64],
) -> u32
    ensures { SendsList (send_list_call state.old words.now out.old told.old) result state.new out.new told.new }
{
    demfizagu::demfizagu_send_list(state, words, out, told)
}

#[unsafe(no_mangle)]
pub extern "C" fn demfizagu_receiver_open(state: &mut [u64], u: u32, window: u32, start: u32) -> u32
    ensures { Opens receiver_in (receiver_opening state.old (of_width u) window (start_at start)) result state.new }
{
    demfizagu::demfizagu_receiver_open(state, u, window, start)
}

#[unsafe(no_mangle)]
pub extern "C" fn demfizagu_receiver_open_map(
    state: &mut [u64],
    map: u32,
    u: u32,
    window: u32,
    start: u32,
) -> u32
    ensures { Opens receiver_in (receiver_opening state.old (accord_by map u) window (start_at start)) result state.new }
{
    demfizagu::demfizagu_receiver_open_map(state, map, u, window, start)
}

#[unsafe(no_mangle)]
pub extern "C" fn demfizagu_receiver_open_plain(state: &mut [u64], u: u32) -> u32
    ensures { Opens receiver_in (receiver_opening state.old (of_width u) plain_window Start.Free) result state.new }
{
    demfizagu::demfizagu_receiver_open_plain(state, u)
}

#[unsafe(no_mangle)]
pub extern "C" fn demfizagu_hear(
    state: &mut [u64],
    piece: &[i32],
    out: &mut [u32],
    told: &mut [u64],
) -> u32
    ensures { Answers (hear_call state.old (piece_of piece.now) out.old told.old) result state.new out.new told.new }
{
    demfizagu::demfizagu_hear(state, piece, out, told)
}

#[unsafe(no_mangle)]
pub extern "C" fn demfizagu_hear_marked(
    state: &mut [u64],
    piece: &[i32],
    marks: &[u8],
    out: &mut [u32],
    told: &mut [u64],
) -> u32
    ensures { Answers (hear_call state.old (marked_piece marks.now piece.now) out.old told.old) result
        state.new out.new told.new }
{
    demfizagu::demfizagu_hear_marked(state, piece, marks, out, told)
}

#[unsafe(no_mangle)]
pub extern "C" fn demfizagu_finish(state: &mut [u64], out: &mut [u32], told: &mut [u64]) -> u32
    ensures { Answers (finish_call state.old out.old told.old) result state.new out.new told.new }
{
    demfizagu::demfizagu_finish(state, out, told)
}

#[unsafe(no_mangle)]
pub extern "C" fn demfizagu_pending(state: &[u64]) -> u32
    ensures { result ≡ pending_in state.now }
{
    demfizagu::demfizagu_pending(state)
}

#[unsafe(no_mangle)]
pub extern "C" fn demfizagu_is_open(state: &[u64]) -> u32
    ensures { result ≡ open_in state.now }
{
    demfizagu::demfizagu_is_open(state)
}

#[unsafe(no_mangle)]
pub extern "C" fn demfizagu_sample(x: f32, y: f32, out: &mut [i32]) -> u32
    ensures { Samples (sample_call x y out.old) result out.new }
{
    demfizagu::demfizagu_sample(x, y, out)
}

#[unsafe(no_mangle)]
pub extern "C" fn demfizagu_samples(floats: &[f32], out: &mut [i32], told: &mut [u64]) -> u32
    ensures { Converts (samples_call floats.now out.old told.old) result out.new told.new }
{
    demfizagu::demfizagu_samples(floats, out, told)
}

#[unsafe(no_mangle)]
pub extern "C" fn demfizagu_samples_marked(
    floats: &[f32],
    missing: &[u8],
    out: &mut [i32],
    told: &mut [u64],
) -> u32
    ensures { Converts (marked_call floats.now missing.now out.old told.old) result out.new told.new }
{
    demfizagu::demfizagu_samples_marked(floats, missing, out, told)
}

#[unsafe(no_mangle)]
pub extern "C" fn demfizagu_record_open(u: u32, window: u32, start: u32, bytes: &mut [u8]) -> u32
    ensures { OpenTaped (of_width u) window start bytes.old result bytes.new }
{
    demfizagu::demfizagu_record_open(u, window, start, bytes)
}

#[unsafe(no_mangle)]
pub extern "C" fn demfizagu_record_open_map(
    map: u32,
    u: u32,
    window: u32,
    start: u32,
    bytes: &mut [u8],
) -> u32
    ensures { OpenTaped (accord_by map u) window start bytes.old result bytes.new }
{
    demfizagu::demfizagu_record_open_map(map, u, window, start, bytes)
}

#[unsafe(no_mangle)]
pub extern "C" fn demfizagu_hear_recorded(
    state: &mut [u64],
    piece: &[i32],
    out: &mut [u32],
    bytes: &mut [u8],
    told: &mut [u64],
) -> u32
    ensures { Records (taped.hear_call state.old (piece_of piece.now) out.old bytes.old told.old)
        result state.new out.new bytes.new told.new }
{
    demfizagu::demfizagu_hear_recorded(state, piece, out, bytes, told)
}

#[unsafe(no_mangle)]
pub extern "C" fn demfizagu_hear_marked_recorded(
    state: &mut [u64],
    piece: &[i32],
    marks: &[u8],
    out: &mut [u32],
    bytes: &mut [u8],
    told: &mut [u64],
) -> u32
    ensures { Records (taped.hear_call state.old (marked_piece marks.now piece.now) out.old bytes.old told.old)
        result state.new out.new bytes.new told.new }
{
    demfizagu::demfizagu_hear_marked_recorded(state, piece, marks, out, bytes, told)
}

#[unsafe(no_mangle)]
pub extern "C" fn demfizagu_finish_recorded(
    state: &mut [u64],
    out: &mut [u32],
    bytes: &mut [u8],
    told: &mut [u64],
) -> u32
    ensures { Records (taped.finish_call state.old out.old bytes.old told.old)
        result state.new out.new bytes.new told.new }
{
    demfizagu::demfizagu_finish_recorded(state, out, bytes, told)
}

#[unsafe(no_mangle)]
pub extern "C" fn demfizagu_replay_words() -> usize
    ensures { result ≡ replay_length }
{
    demfizagu::demfizagu_replay_words()
}

#[unsafe(no_mangle)]
pub extern "C" fn demfizagu_replay_start(state: &mut [u64]) -> u32
    ensures { Starts (start_call state.old) result state.new }
{
    demfizagu::demfizagu_replay_start(state)
}

#[unsafe(no_mangle)]
pub extern "C" fn demfizagu_replay_feed(
    state: &mut [u64],
    lump: &[u8],
    line: &mut [u8],
    told: &mut [u64],
) -> u32
    ensures { Feeds state.old lump.now (feed_call state.old lump.now line.old told.old) result
        state.new line.new told.new }
{
    demfizagu::demfizagu_replay_feed(state, lump, line, told)
}

#[unsafe(no_mangle)]
pub extern "C" fn demfizagu_replay_end(state: &mut [u64], line: &mut [u8], told: &mut [u64]) -> u32
    ensures { Ends (end_call state.old line.old told.old) result state.new line.new told.new }
{
    demfizagu::demfizagu_replay_end(state, line, told)
}

#[unsafe(no_mangle)]
pub extern "C" fn demfizagu_check_card(
    map: u32,
    u: u32,
    coordinates: &[i32],
    states: &[u32],
    symbols: &[u32],
    numbers: &[u64],
) -> u32
    ensures { ChecksCard (accord_by map u) (card_of coordinates.now states.now symbols.now numbers.now) result }
{
    demfizagu::demfizagu_check_card(map, u, coordinates, states, symbols, numbers)
}
