// `capture replay`: bytes as they come into a replay, and its verdict out. A fault is printed as soon as it is found; what follows is read
// and swallowed, so that whoever writes the capture into a pipe is not broken off.
#![tactic(auto)]

use edge::Streams;
use replay::Replay;
use replay_judge::Verdict;
use std::io::Read;

// The line of a verdict.
fn print(to: Streams, v: Verdict) {
    let line = replay_text::line_of(v);
    let what = b"capture: standard output";
    if edge::write(to, line.bytes(), what) {
        edge::write(to, b"\n", what);
    }
}

// Bytes that were read. A fault is printed at once, and there is nothing left to say.
fn heard(to: Streams, r: Replay, bytes: &[u8]) -> Option<Replay> {
    let after = replay::feed(r, bytes);
    if replay::found(after.frame, after.judge) {
        print(to, replay::end(after));
        return None;
    }
    Some(after)
}

// Where a read fails there is a message, and no verdict.
pub fn run<R: Read>(from: &mut R, to: Streams) {
    let mut chunk = [0u8; 65536];
    let first = Some(replay::start());
    let last = edge::each_chunk(
        from,
        &mut chunk,
        to,
        b"capture: read",
        first,
        |now, bytes| { Some(now.and_then(|r| heard(to, r, bytes))) },
    );
    if let Some(Some(r)) = last {
        print(to, replay::end(r));
    }
}
