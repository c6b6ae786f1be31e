// `capture salvage IN OUT`: bytes as they come into a salvage, and what is salvaged of them to a file beside OUT, OUT.part, which takes OUT's name
// once it is whole and on its device. What no proof can say of a program, which files it reads and writes, is all that stands here; what is
// written is `salvage`'s, the line `salvage_text`'s.
//
// Where anything fails there is a message on the error stream and no line, OUT.part is removed, and OUT is not made. An OUT that exists, whatever
// it is, stays as it was. OUT.part is made anew or not at all, so of two salvages to one OUT the second is refused.
#![tactic(auto)]

ghost use Rattle.std.specs.Prelude.{◌≡◌, ◌+◌, ◌≤◌, IfSome, length};
ghost use Rattle.salvage.specs.Working.{feedings, salvage_at};

use edge::Streams;
use salvage::{Changes, Salvage};
use std::fs::{Files, OpenFile, OpenOptions};
use std::io::{Error, ErrorKind, Read, Write};
use std::{fs, str};

// The salvage so far, how many bytes have come, and whether anything was written: a flag, since no value goes with it.
#[derive(Clone, Copy)]
struct Progress {
    salvage: Salvage,
    fed: u64,
    some: bool,
}

// What failed with a file, by the name it has.
fn tell(to: Streams, path: &str, why: Error) {
    edge::note(to, b"capture: ");
    edge::tell(to, path.as_bytes(), why);
}

// Whether it went well. Where it did not, that is told.
fn went(to: Streams, path: &str, done: Result<(), Error>) -> bool {
    match done {
        Ok(()) => true,
        Err(why) => {
            tell(to, path, why);
            false
        }
    }
}

// Bytes that were read: page after page of what they give to `write`. Where that fails there is no more progress.
fn hear<W: Write>(
    file: &mut W,
    to: Streams,
    t: Progress,
    bytes: &[u8],
    page: &mut [u8],
) -> Option<Progress>
    requires { 335 ≤ length page.old }
    ensures { IfSome result (λ r. salvage_at r.salvage ≡ feedings (salvage_at t.salvage) bytes.now) }
{
    // What changes in the loop, and no more of it.
    let mut salvage = t.salvage;
    let mut some = t.some;
    let mut i = 0;
    // A round takes as many bytes as the page had room for, so there is no step for a `for`.
    while i < bytes.len() {
        let f = salvage::feed(salvage, &bytes[i..], page);
        if !went(to, "write", file.write_all(&page[..f.size])) {
            return None;
        }
        salvage = f.salvage;
        some = some || 0 < f.size;
        i += f.used;
    }
    Some(Progress { salvage, some, ..t })
}

// Once nothing more is kept, bytes are counted and not looked at.
fn is_over(s: Salvage) -> bool {
    replay::found(s.replay.frame, s.replay.judge)
}

// A chunk more.
fn grown<W: Write>(
    file: &mut W,
    to: Streams,
    t: Progress,
    bytes: &[u8],
    page: &mut [u8],
) -> Option<Progress>
    requires { 335 ≤ length page.old }
{
    let now = Progress {
        fed: record_fill::fed_on(t.fed, bytes.len()),
        ..t
    };
    if is_over(now.salvage) {
        return Some(now);
    }
    hear(file, to, now, bytes, page)
}

// All that the reader has, salvaged to the file, if nothing fails.
fn salvage_all<R: Read, W: Write>(from: &mut R, file: &mut W, to: Streams) -> Option<Progress> {
    let mut chunk = [0u8; 65536];
    let mut page = [0u8; 65536];
    let first = Progress {
        salvage: salvage::start(),
        fed: 0,
        some: false,
    };
    edge::each_chunk(from, &mut chunk, to, b"capture: read", first, |t, bytes| {
        grown(file, to, t, bytes, &mut page)
    })
}

fn say(to: Streams, c: Changes) {
    let line = salvage_text::line_of(c.replaced, c.added, c.removed, c.cut);
    edge::write(to, line.bytes(), b"capture: standard output");
}

// What was written is on its device. The file is closed after it; what the closing answers std does not say.
fn make_safe<F: OpenFile + Drop>(file: F, to: Streams) -> bool {
    went(to, "write", file.sync_all())
}

fn remove<F: Files>(files: &F, to: Streams, part: &str) -> bool {
    went(to, part, fs::remove_file(files, part))
}

// Whether there is no file of that name. Where there is, or that cannot be known, there is a message. The system is asked of the name alone:
// nothing is opened, and no link is followed.
fn find_free<F: Files>(files: &F, to: Streams, path: &str) -> bool {
    match fs::symlink_metadata(files, path) {
        Ok(_) => {
            edge::note(to, b"capture: ");
            edge::note(to, path.as_bytes());
            edge::note(to, b": it exists, and is left as it is\n");
            false
        }
        Err(why) if why.kind() == ErrorKind::NotFound => true,
        Err(why) => {
            tell(to, path, why);
            false
        }
    }
}

// The file beside OUT becomes OUT.
fn give_name<F: Files>(files: &F, to: Streams, file: F::File, part: &str, path: &str) -> bool {
    make_safe(file, to)
        && find_free(files, to, path)
        && went(to, path, fs::rename(files, part, path))
}

// OUT is not made.
fn give_up<F: Files>(files: &F, to: Streams, file: F::File, part: &str) -> bool {
    drop(file);
    remove(files, to, part)
}

// Where nothing was written OUT is not made.
fn finish<F: Files>(files: &F, to: Streams, t: Progress, file: F::File, part: &str, path: &str) {
    if !t.some {
        if give_up(files, to, file, part) {
            say(to, salvage::end(t.salvage, t.fed));
        }
        return;
    }
    if give_name(files, to, file, part, path) {
        say(to, salvage::end(t.salvage, t.fed));
    } else {
        remove(files, to, part);
    }
}

fn write_beside<F: Files, R: Read>(files: &F, from: &mut R, to: Streams, part: &str, path: &str) {
    let mut options = OpenOptions::new();
    options.write(true);
    options.create_new(true);
    match options.open(files, part) {
        Ok(mut file) => match salvage_all(from, &mut file, to) {
            Some(t) => finish(files, to, t, file, part, path),
            None => {
                give_up(files, to, file, part);
            }
        },
        Err(why) => tell(to, part, why),
    }
}

fn wants_text(to: Streams, path: &[u8]) {
    edge::note(to, b"capture: ");
    edge::wants_text(to, path);
}

// Beside OUT, under the name OUT.part.
fn salvage_to<F: Files, R: Read>(files: &F, from: &mut R, to: Streams, path: &str)
    requires { length path.now + 5 ≤ 4095 }
{
    let mut part = [0u8; 4096];
    let p = page::put_text(&mut part, 0, path.as_bytes());
    let n = page::put_text(&mut part, p, b".part");
    match str::from_utf8(&part[..n]) {
        Ok(name) => write_beside(files, from, to, name, path),
        Err(_) => wants_text(to, &part[..n]),
    }
}

fn wants_name(to: Streams) {
    edge::note(
        to,
        b"capture: the name of the file to write has 1 to 4090 bytes\n",
    );
}

pub fn run<F: Files, R: Read>(files: &F, from: &mut R, to: Streams, path: &[u8]) {
    if path.is_empty() || path.len() > 4090 {
        wants_name(to);
        return;
    }
    match str::from_utf8(path) {
        Ok(name) => {
            if find_free(files, to, name) {
                salvage_to(files, from, to, name);
            }
        }
        Err(_) => wants_text(to, path),
    }
}
