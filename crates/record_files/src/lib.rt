// `capture record`: lines of lab's protocol for one receiver in, its capture out, and each line's answer on the error stream. What a line
// does is `record_text`'s; what it wrote is handed out here, the records before the answer that tells of them.
#![tactic(auto)]

ghost use Rattle.std.specs.Prelude.{◌≡◌, ◌≤◌, length, IfSome};

use edge::Streams;
use line_buffer::Part;
use machine::Receiver;
use record_text::Noted;
use std::io::Read;

// The receiver, whether its opening is recorded, and the line so far. A flag, since a receiver answers before its opening too.
#[derive(Clone, Copy)]
struct Progress {
    receiver: Receiver,
    begun: bool,
    part: Part,
}

// The first bytes of some text, to standard output.
fn write_front(to: Streams, text: &[u8], size: usize) -> bool {
    match text.get(..size) {
        Some(front) => edge::write(to, front, b"capture: standard output"),
        None => false,
    }
}

// The same to the error stream.
fn note_front(to: Streams, text: &[u8], size: usize) {
    if let Some(front) = text.get(..size) {
        edge::note(to, front);
    }
}

// The records, then the answer. Whether to read on.
fn put_out(to: Streams, n: Noted, bytes: &[u8], page: &[u8]) -> bool {
    if !write_front(to, bytes, n.recorded) {
        return false;
    }
    if n.ends {
        edge::note(
            to,
            b"capture: a capture holds one receiver: the recording ends before this opening\n",
        );
        return false;
    }
    note_front(to, page, n.at);
    true
}

// The line that has come to its end. Where the recording ends with it there is no more progress.
fn end_line(
    to: Streams,
    t: Progress,
    line: &[u8],
    bytes: &mut [u8],
    page: &mut [u8],
) -> Option<Progress>
    requires { (t.part.held ≤ length line.now) × (length page.old ≡ 98304) }
    ensures { IfSome result (λ p. p.part.held ≡ 0) }
{
    let n = record_text::line(t.receiver, t.begun, t.part, line, bytes, page);
    if !put_out(to, n, bytes, page) {
        return None;
    }
    Some(Progress {
        receiver: n.receiver,
        begun: n.begun,
        part: line_buffer::fresh(),
    })
}

// Line by line; what stands after the last newline is kept. The bytes hold the records of any line: 10 at most for each of 1,024 symbols,
// 5 for each of 4096 words. So no line is refused for want of them.
fn hear_chunk(to: Streams, t: Progress, chunk: &[u8], line: &mut [u8]) -> Option<Progress>
    requires { t.part.held ≤ length line.old }
    ensures { IfSome result (λ p. p.part.held ≤ length line.old) }
{
    let mut bytes = [0u8; 30720];
    let mut page = [0u8; 98304];
    let mut now = t;
    for (i, piece) in chunk.split(|b| *b == b'\n').enumerate() {
        if i > 0 {
            now = end_line(to, now, line, &mut bytes, &mut page)?;
        }
        now.part = line_buffer::gather(now.part, line, piece);
    }
    Some(now)
}

// A last line that no newline follows counts as a line.
fn at_end(to: Streams, t: Progress, line: &mut [u8])
    requires { t.part.held ≤ length line.old }
{
    if t.part.held > 0 || t.part.long {
        hear_chunk(to, t, b"\n", line);
    }
}

// Where a read fails, what was gathered is no line.
pub fn run<R: Read>(input: &mut R, to: Streams) {
    let mut chunk = [0u8; 65536];
    let mut line = [0u8; 65536];
    let first = Progress {
        receiver: openings::closed_receiver(),
        begun: false,
        part: line_buffer::fresh(),
    };
    let what = b"capture: standard input";
    let last = edge::each_chunk(
        input,
        &mut chunk,
        to,
        what,
        first,
        |t, bytes|
            requires { t.part.held ≤ 65536 }
        { hear_chunk(to, t, bytes, &mut line) },
    );
    if let Some(t) = last {
        at_end(to, t, &mut line);
    }
}
