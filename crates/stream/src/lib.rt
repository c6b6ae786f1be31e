// Lines from standard input, or another reader, answers to standard output. Input comes in chunks, and a line may go on from one chunk to the next,
// so `line_buffer` gathers it. Answers are gathered in a page. A pass hears what was read, or as much of it as fills the page well,
// and hands the page to `write`: a person at a terminal sees each answer at once, and a file of many lines costs few writes.
#![tactic(auto)]

ghost use Rattle.std.specs.Prelude.{◌≡◌, false, ◌≤◌, ◌<◌, length, take};
ghost use Rattle.stream.specs.Stream.{streaming, last_line, Moves, Passes, Reads, took as Stream·took};

use edge::Streams;
use line_reply::Lab;
use std::io::Read;
use text::token;

// What became of the lines so far, the place in the chunk up to which it is heard, how many bytes it holds, and whether the input has
// ended: a flag, since `Passes` speaks of the lab after the end too.
#[derive(Clone, Copy)]
struct Progress {
    lab: Lab,
    from: usize,
    to: usize,
    ends: bool,
}

// What was made of a chunk, and how many bytes of it are heard.
#[derive(Clone, Copy)]
struct Heard {
    lab: Lab,
    count: usize,
}

// Hands what the page holds to `write`. That these bytes come out no contract can say; that they are the answers is what the
// contracts below say.
fn flush(to: Streams, lab: Lab, page: &[u8]) -> Lab
    requires { lab.at ≤ length page.now }
    ensures { (result.desk ≡ lab.desk) × (result.part ≡ lab.part) × (result.at ≡ lab.at) }
{
    let is_written = edge::write(to, &page[..lab.at], b"lab: standard output");
    Lab {
        on: lab.on && is_written,
        ..lab
    }
}

// Answers line by line, up to the chunk's end or until a quarter of the page is filled, and keeps what stands after the last newline.
// An answer takes less than 98,304 bytes; so much is free whenever a line is answered.
fn hear_chunk(lab: Lab, chunk: &[u8], line: &mut [u8], page: &mut [u8]) -> Heard
    requires page_len { length page.old ≡ 131072 }
    requires at_bound { (lab.at ≤ 32768) × (lab.part.held ≤ length line.old) }
    ensures at_bound_2 { (result.lab.at ≤ 131072) × (result.lab.part.held ≤ length line.old) }
    ensures count_in_bounds { (result.count ≤ length chunk.now) × (0 < length chunk.now → 0 < result.count) }
    ensures moves { Moves (λ c. streaming (length line.old) c (take result.count chunk.now))
        line.old lab page.old line.new result.lab page.new }
{
    let mut now = lab;
    let mut from = 0;
    // no `for` over the lines: the loop ends where the page is filled, and has to say at which byte
    while from < chunk.len() && now.at <= 32768 {
        let n = token::before(&chunk[from..], b'\n');
        let end = from + n;
        now.part = line_buffer::gather(now.part, line, &chunk[from..end]);
        if end == chunk.len() {
            return Heard {
                lab: now,
                count: end,
            };
        }
        now = line_reply::reply(now, line, page);
        from = end + 1;
    }
    Heard {
        lab: now,
        count: from,
    }
}

// A last line that no newline follows counts as a line.
fn hear_end(lab: Lab, line: &[u8], page: &mut [u8]) -> Lab
    requires page_len { length page.old ≡ 131072 }
    requires at_bound { (lab.at ≤ 32768) × (lab.part.held ≤ length line.now) }
    ensures at_bound_2 { (result.at ≤ 131072) × (result.part.held ≤ length line.now) }
    ensures moves { Moves (last_line (length line.now)) line.now lab page.old line.now result page.new }
{
    if lab.part.held == 0 && !lab.part.long {
        return lab;
    }
    line_reply::reply(lab, line, page)
}

// One pass: a page begun anew, and at its end handed out.
fn answer(to: Streams, last: Progress, chunk: &[u8], line: &mut [u8], page: &mut [u8]) -> Progress
    requires page_len { length page.old ≡ 131072 }
    requires from_le_to { (last.from ≤ last.to) × (last.to ≤ length chunk.now) × (last.lab.part.held ≤ length line.old) }
    ensures from_le_to_2 { (result.from ≤ result.to) × (result.to ≡ last.to) × (result.ends ≡ last.ends) × (result.lab.part.held ≤ length line.old) }
    ensures from_lt_from { last.ends ≡ false → last.from < last.to → last.from < result.from }
    ensures passes { Passes last chunk.now line.old result line.new page.new }
{
    let lab = Lab { at: 0, ..last.lab };
    if last.ends {
        let ended = hear_end(lab, line, page);
        return Progress {
            lab: flush(to, ended, page),
            ..last
        };
    }
    let heard = hear_chunk(lab, &chunk[last.from..last.to], line, page);
    Progress {
        lab: flush(to, heard.lab, page),
        from: last.from + heard.count,
        ..last
    }
}

// What a read that gave `got` leaves to be heard. Only 0 is the input's end: where a read failed, what was gathered of a line is no
// line.
fn took(lab: Lab, got: Option<usize>) -> Progress
    ensures { result ≡ Stream·took lab got }
{
    Progress {
        lab: Lab {
            on: got.is_some(),
            ..lab
        },
        from: 0,
        to: got.unwrap_or(0),
        ends: got == Some(0),
    }
}

// Reads once, where all that was read before is heard.
fn refill<R: Read>(input: &mut R, to: Streams, last: Progress, chunk: &mut [u8]) -> Progress
    requires { (last.from ≤ last.to) × (last.to ≤ length chunk.old) }
    ensures from_le_to { (result.from ≤ result.to) × (result.to ≤ length chunk.old) × (result.lab.desk ≡ last.lab.desk) × (result.lab.part ≡ last.lab.part) }
    ensures reads { Reads last chunk.old result chunk.new }
{
    if last.from < last.to {
        return last;
    }
    let got = edge::read(input, chunk, to, b"lab: standard input");
    took(last.lab, got)
}

// A proved loop has to end, and nothing says that the input does: no run uses up so many passes.
pub fn serve<R: Read>(
    input: &mut R,
    to: Streams,
    chunk: &mut [u8],
    line: &mut [u8],
    page: &mut [u8],
)
    requires { length page.old ≡ 131072 }
{
    let lab = Lab {
        desk: desk::closed(),
        part: line_buffer::fresh(),
        at: 0,
        on: true,
    };
    let mut now = Progress {
        lab,
        from: 0,
        to: 0,
        ends: false,
    };
    for _ in 0..u64::MAX {
        now = refill(input, to, now, chunk);
        now = answer(to, now, chunk, line, page);
        if now.ends || !now.lab.on {
            return;
        }
    }
}
