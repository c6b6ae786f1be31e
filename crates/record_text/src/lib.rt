// A line of a recording: what it does to the receiver, the records that it leaves at the front of lent bytes, and its answer at the front
// of a lent page. Lines are read by `protocol`, the calls are those of `recorder`, the answers those of `answers`; specs/Note has what is
// written.
#![tactic(auto)]

ghost use Rattle.std.specs.Prelude.{◌≡◌, List, ℕ, ◌≤◌, length};
ghost use Rattle.recorder.specs.Promise.{Is};
ghost use Rattle.receiver_meaning.specs.Piece.{piece_of, marked_piece};
ghost use Rattle.recorder.specs.Taping.{Ran};
ghost use Rattle.recorder.specs.Doors.{taped_hearing, taped_finishing};
ghost use Rattle.requests.specs.Named.{named};
ghost use Rattle.answers.specs.Answer.{unread_line};
ghost use Rattle.protocol.specs.Request.{request_of};
ghost use Rattle.line_buffer.specs.Part.{Gathered};
ghost use Rattle.line_reply.specs.Line.{named_by};
ghost use Rattle.record_text.specs.Note.{start_number, stays, opens, taped, noting, noting_line, Notes};
ghost use Rattle.record_text.specs.Room.{page_room, Ready};

use line_buffer::Part;
use machine::Receiver;
use openings::PLAIN_WINDOW;
use points::Accord;
use recorder::Taped;
use requests::Request;

// What a line left: the receiver, whether an opening is recorded, how many bytes there are of records and of the answer, and whether the
// recording ends here. Flags, since `Notes` says what the others are at every setting of them: the receiver also where the recording ends.
#[derive(Clone, Copy)]
pub struct Noted {
    pub receiver: Receiver,
    pub begun: bool,
    pub recorded: usize,
    pub at: usize,
    pub ends: bool,
}

// The number of a free start.
const FREE: u32 = 16;

// Nothing is recorded, and nothing answered.
fn idle(rx: Receiver, begun: bool, ends: bool) -> Noted
    ensures { result ≡ record { receiver = rx; begun = begun; recorded = 0; at = 0; ends = ends } }
{
    Noted {
        receiver: rx,
        begun,
        recorded: 0,
        at: 0,
        ends,
    }
}

fn unread(rx: Receiver, begun: bool, bytes: &[u8], page: &mut [u8]) -> Noted
    requires { page_room ≤ length page.old }
    ensures { Notes (stays rx begun unread_line) bytes.now page.old result bytes.now page.new }
{
    Noted {
        at: answers::unread(page, 0),
        ..idle(rx, begun, false)
    }
}

// An opening is recorded where it answers 0, and a refused one leaves no record. A capture holds one: a further opening ends the recording.
fn opening(
    rx: Receiver,
    begun: bool,
    accord: Accord,
    window: u32,
    start: u32,
    bytes: &mut [u8],
    page: &mut [u8],
) -> Noted
    requires { page_room ≤ length page.old }
    ensures { Notes (opens rx begun accord window start (length bytes.old)) bytes.old page.old result bytes.new page.new }
{
    if begun {
        return idle(rx, begun, true);
    }
    let n = recorder::record_open(accord, window, start, bytes);
    let o = openings::open_receiver(accord, window, openings::start_at(start));
    let at = answers::number(page, 0, n as u64);
    if n != 0 {
        return Noted {
            at,
            ..idle(o.receiver, false, false)
        };
    }
    Noted {
        recorded: 4,
        at,
        ..idle(o.receiver, true, false)
    }
}

// A named state: 16 is none, and the number of a record's free start, so another that is none stands in for it.
fn start_number(state: u32) -> u32
    ensures { result ≡ start_number state }
{
    if state == FREE { 17 } else { state }
}

// The answer to a recorded call, with the words that it wrote.
fn tell(begun: bool, t: Taped, out: &[u32], page: &mut [u8]) -> Noted
    requires { (t.written ≤ length out.now) × (length out.now ≤ 4096) × (page_room ≤ length page.old) }
    ensures { (ran : Ran) (room bytes b : List ℕ) → Is ran room bytes t out.now b → length b ≡ length bytes
        → Notes (taped begun ran) bytes page.old result b page.new }
{
    let at = answers::heard(page, 0, t.taken, t.why, &out[..t.written]);
    Noted {
        recorded: t.recorded,
        at,
        ..idle(t.receiver, begun, false)
    }
}

fn hear(
    rx: Receiver,
    begun: bool,
    piece: &[i32],
    out: &mut [u32],
    bytes: &mut [u8],
    page: &mut [u8],
) -> Noted
    requires { (length out.old ≤ 4096) × (page_room ≤ length page.old) }
    ensures { Notes (taped begun (taped_hearing rx (piece_of piece.now) (length out.old) (length bytes.old)))
        bytes.old page.old result bytes.new page.new }
{
    let t = recorder::hear(rx, piece, out, bytes);
    tell(begun, t, out, page)
}

fn hear_marked(
    rx: Receiver,
    begun: bool,
    piece: &[i32],
    marks: &[u8],
    out: &mut [u32],
    bytes: &mut [u8],
    page: &mut [u8],
) -> Noted
    requires { (length out.old ≤ 4096) × (page_room ≤ length page.old) }
    ensures { Notes (taped begun (taped_hearing rx (marked_piece marks.now piece.now) (length out.old) (length bytes.old)))
        bytes.old page.old result bytes.new page.new }
{
    let t = recorder::hear_marked(rx, piece, marks, out, bytes);
    tell(begun, t, out, page)
}

fn finish(rx: Receiver, begun: bool, out: &mut [u32], bytes: &mut [u8], page: &mut [u8]) -> Noted
    requires { (length out.old ≤ 4096) × (page_room ≤ length page.old) }
    ensures { Notes (taped begun (taped_finishing rx (length out.old) (length bytes.old)))
        bytes.old page.old result bytes.new page.new }
{
    let t = recorder::finish(rx, out, bytes);
    tell(begun, t, out, page)
}

// `receiver ..`, `piece ..`, `marked ..` and `finish ..` are a receiver's; the other verbs are unread here. A further call of the receiver's
// is one arm more.
pub fn note(
    rx: Receiver,
    begun: bool,
    asked: Request,
    coordinates: &[i32],
    words: &mut [u32],
    marks: &[u8],
    bytes: &mut [u8],
    page: &mut [u8],
) -> Noted
    requires { Ready asked (named coordinates.now words.old marks.now) page.old }
    ensures { Notes (noting rx begun asked (named coordinates.now words.old marks.now) (length bytes.old))
        bytes.old page.old result bytes.new page.new }
{
    match asked {
        Request::Nothing => idle(rx, begun, false),
        Request::Plain { accord } => opening(rx, begun, accord, PLAIN_WINDOW, FREE, bytes, page),
        Request::Free { accord, window } => {
            opening(rx, begun, accord, window, FREE, bytes, page)
        }
        Request::At {
            accord,
            window,
            state,
        } => opening(rx, begun, accord, window, start_number(state), bytes, page),
        Request::Piece { cap, count } => hear(
            rx,
            begun,
            &coordinates[..count],
            &mut words[..cap as usize],
            bytes,
            page,
        ),
        Request::Finish { cap } => finish(rx, begun, &mut words[..cap as usize], bytes, page),
        Request::Marked {
            cap,
            marks: row,
            count,
        } => hear_marked(
            rx,
            begun,
            &coordinates[..count],
            &marks[..row],
            &mut words[..cap as usize],
            bytes,
            page,
        ),
        _ => unread(rx, begun, bytes, page),
    }
}

// What a line within its buffer does. The lists that it is read into last no longer than the line.
fn obey(rx: Receiver, begun: bool, line: &[u8], bytes: &mut [u8], page: &mut [u8]) -> Noted
    requires { page_room ≤ length page.old }
    ensures { Notes (noting rx begun (request_of 4096 4096 1024 line.now) (named_by line.now) (length bytes.old))
        bytes.old page.old result bytes.new page.new }
{
    let mut coordinates = [0i32; 4096];
    let mut words = [0u32; 4096];
    let mut marks = [0u8; 1024];
    let asked = protocol::read(line, &mut coordinates, &mut words, &mut marks);
    note(
        rx,
        begun,
        asked,
        &coordinates,
        &mut words,
        &marks,
        bytes,
        page,
    )
}

// The line that has come to its end.
pub fn line(
    rx: Receiver,
    begun: bool,
    part: Part,
    line: &[u8],
    bytes: &mut [u8],
    page: &mut [u8],
) -> Noted
    requires { (page_room ≤ length page.old) × (part.held ≤ length line.now) }
    ensures { (s : List ℕ) → Gathered line.now part s
        → Notes (noting_line (length line.now) rx begun s (length bytes.old))
        bytes.old page.old result bytes.new page.new }
{
    if part.long {
        return unread(rx, begun, bytes, page);
    }
    obey(rx, begun, &line[..part.held], bytes, page)
}
