// `capture show`: a line for each record, as `show_text` puts it, and the malformed place if there is one.
#![tactic(auto)]

use edge::Streams;
use records::Frame;
use std::io::Read;

// The frame after the bytes so far, and how many records there were.
#[derive(Clone, Copy)]
struct Progress {
    frame: Frame,
    records: u64,
}

fn print_record(to: Streams, frame: Frame, n: u64) -> bool {
    let mut line = [0u8; 200];
    let size = show_text::put_record(&mut line, 0, frame, n);
    edge::write(to, &line[..size], b"capture: standard output")
}

fn print_malformed(to: Streams, at: u64) -> bool {
    let mut digits = [0u8; 20];
    let n = io::decimal(at, &mut digits);
    let what = b"capture: standard output";
    edge::write(to, b"offset ", what)
        && edge::write(to, &digits[..n], what)
        && edge::write(to, b" malformed\n", what)
}

// A byte more. Where writing failed there is no more progress, and nothing more is said.
fn byte(to: Streams, t: Progress, b: u8) -> Option<Progress> {
    let frame = records::push(t.frame, b);
    if !show_text::is_whole(frame.stage) {
        return Some(Progress { frame, ..t });
    }
    if !print_record(to, frame, t.records) {
        return None;
    }
    Some(Progress {
        frame,
        records: records::counted(t.records),
    })
}

fn bytes(to: Streams, t: Progress, chunk: &[u8]) -> Option<Progress> {
    let mut now = t;
    for b in chunk {
        now = byte(to, now, *b)?;
    }
    Some(now)
}

// The input has ended: the malformed place, if there is one.
fn over(to: Streams, frame: Frame) {
    if !show_text::is_whole(frame.stage) {
        print_malformed(to, frame.at);
    }
}

pub fn run<R: Read>(from: &mut R, to: Streams) {
    let mut chunk = [0u8; 65536];
    let first = Progress {
        frame: records::start(),
        records: 0,
    };
    let last = edge::each_chunk(from, &mut chunk, to, b"capture: read", first, |t, read| {
        bytes(to, t, read)
    });
    if let Some(t) = last {
        over(to, t.frame);
    }
}
