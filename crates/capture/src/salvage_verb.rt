// `capture salvage IN OUT`: what can be kept of a damaged capture, with the words that belong there. IN is opened before OUT is looked for; the
// files' reading and writing is `salvage_files`'s.
use crate::{help, input};
use edge::Streams;
use std::env::Env;
use std::fs::Files;

fn wants_two(to: Streams) {
    edge::note(
        to,
        b"capture: salvage wants a file to read and the name of one to write\n\n",
    );
    help::note(to);
}

pub fn run<R: Files + Env>(rt: &R, to: Streams) {
    if !edge::is_given(rt, 3) {
        wants_two(to);
        return;
    }
    let Some(mut from) = input::named(rt, to, 2) else {
        return;
    };
    let mut path = [0u8; 4096];
    match rt.arg(3, &mut path) {
        Ok(n) => salvage_files::run(rt, &mut from, to, &path[..n]),
        Err(why) => {
            let error = edge::why_not_filled(why);
            edge::tell(to, b"capture: the name of the file", error);
        }
    }
}
