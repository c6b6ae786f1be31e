// The program for captures: `capture record`, `capture replay [FILE]`, `capture show [FILE]`, `capture compare FIRST SECOND`,
// `capture salvage IN OUT`, `capture help`. It reads a file or standard input, as it comes, in constant memory. Here stands which word asks for
// what; each word's reading and writing is a crate (`record_files`, `replay_files`, `show_files`, `compare_files`, `salvage_files`), and what is written is said in
// those below them.
#![tactic(auto)]

mod compare_verb;
mod help;
mod input;
mod salvage_verb;

use edge::Streams;
use std::env::Env;
use std::fs::Files;
use std::io::Read;
use text::token;

// What the first word can ask for.
#[derive(Clone, Copy)]
enum Verb {
    Record,
    Replay,
    Show,
    Compare,
    Salvage,
    Help,
}

// What the first word asks for. One that has no room is none of ours. No match on byte strings: its check did not end.
fn asked_verb<E: Env>(env: &E) -> Option<Verb> {
    let mut given = [0u8; 4096];
    let n = env.arg(1, &mut given).ok()?;
    let word = &given[..n];
    if token::same(word, b"record") {
        Some(Verb::Record)
    } else if token::same(word, b"replay") {
        Some(Verb::Replay)
    } else if token::same(word, b"show") {
        Some(Verb::Show)
    } else if token::same(word, b"compare") {
        Some(Verb::Compare)
    } else if token::same(word, b"salvage") {
        Some(Verb::Salvage)
    } else if token::same(word, b"help") {
        Some(Verb::Help)
    } else {
        None
    }
}

// The page on the error stream, its first line naming the word that means nothing here, if it fits.
fn unknown<E: Env>(env: &E, to: Streams, i: usize) {
    let mut word = [0u8; 4096];
    let filled = env.arg(i, &mut word);
    edge::note(to, b"capture: not known here: ");
    if let Ok(n) = filled {
        edge::note(to, &word[..n]);
    }
    edge::note(to, b"\n\n");
    help::note(to);
}

// Each verb says what it wants itself, so `salvage_verb::wants_two` has this form.
fn nothing_asked(to: Streams) {
    edge::note(
        to,
        b"capture: it wants a word: record, replay, show, compare, salvage or help\n\n",
    );
    help::note(to);
}

// This and the next differ in a function over any reader, which runs on a file or on the input: no closure stands for both.
fn asked_replay<R: Files + Env, I: Read>(rt: &R, input: &mut I, to: Streams) {
    if !edge::is_given(rt, 2) {
        replay_files::run(input, to);
        return;
    }
    if let Some(mut file) = input::named(rt, to, 2) {
        replay_files::run(&mut file, to);
    }
}

fn asked_show<R: Files + Env, I: Read>(rt: &R, input: &mut I, to: Streams) {
    if !edge::is_given(rt, 2) {
        show_files::run(input, to);
        return;
    }
    if let Some(mut file) = input::named(rt, to, 2) {
        show_files::run(&mut file, to);
    }
}

// What the words ask for, of the program's arguments, its input and the streams that it prints on. Of a word too many the last that can be
// named is.
fn obey<R: Files + Env, I: Read>(rt: &R, input: &mut I, to: Streams) {
    if !edge::is_given(rt, 1) {
        nothing_asked(to);
        return;
    }
    if edge::is_given(rt, 4) {
        unknown(rt, to, 4);
        return;
    }
    match asked_verb(rt) {
        Some(Verb::Compare) => compare_verb::run(rt, to),
        Some(Verb::Salvage) => salvage_verb::run(rt, to),
        _ if edge::is_given(rt, 3) => unknown(rt, to, 3),
        Some(Verb::Replay) => asked_replay(rt, input, to),
        Some(Verb::Show) => asked_show(rt, input, to),
        Some(Verb::Record | Verb::Help) if edge::is_given(rt, 2) => unknown(rt, to, 2),
        Some(Verb::Record) => record_files::run(input, to),
        Some(Verb::Help) => help::print(to),
        None => unknown(rt, to, 1),
    }
}

fn main(rt: HostRuntime) {
    let to = Streams {
        out: rt.stdout(),
        err: rt.stderr(),
    };
    let mut input = rt.stdin();
    obey(&rt, &mut input, to);
}
