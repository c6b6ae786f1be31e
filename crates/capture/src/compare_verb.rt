// `capture compare FIRST SECOND`: two captures, record by record. Both are opened before either is read; what is told of them is `compare_files`'s.
use crate::{help, input};
use edge::Streams;
use std::env::Env;
use std::fs::Files;

fn wants_two(to: Streams) {
    edge::note(to, b"capture: compare wants two files\n\n");
    help::note(to);
}

pub fn run<R: Files + Env>(rt: &R, to: Streams) {
    if !edge::is_given(rt, 3) {
        wants_two(to);
        return;
    }
    let Some(mut first) = input::named(rt, to, 2) else {
        return;
    };
    let Some(mut second) = input::named(rt, to, 3) else {
        return;
    };
    compare_files::run(&mut first, &mut second, to);
}
