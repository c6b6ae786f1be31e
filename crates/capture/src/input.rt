// Where the bytes come from, if a word names it: a file. One that cannot be opened is told on the error stream, and there is none then.
use edge::Streams;
use std::env::Env;
use std::fs::Files;
use std::{fs, str};

// The file that word i names, open for reading.
pub fn named<R: Files + Env>(rt: &R, to: Streams, i: usize) -> Option<R::File> {
    let mut path = [0u8; 4096];
    match rt.arg(i, &mut path) {
        Ok(n) => opened(rt, to, &path[..n]),
        Err(why) => {
            let error = edge::why_not_filled(why);
            edge::tell(to, b"capture: the name of the file", error);
            None
        }
    }
}

fn opened<R: Files>(files: &R, to: Streams, path: &[u8]) -> Option<R::File> {
    match str::from_utf8(path) {
        Ok(name) => opened_by(files, to, name),
        Err(_) => {
            edge::note(to, b"capture: ");
            edge::wants_text(to, path);
            None
        }
    }
}

fn opened_by<R: Files>(files: &R, to: Streams, name: &str) -> Option<R::File> {
    match fs::open(files, name) {
        Ok(file) => Some(file),
        Err(why) => {
            edge::note(to, b"capture: ");
            edge::tell(to, name.as_bytes(), why);
            None
        }
    }
}
