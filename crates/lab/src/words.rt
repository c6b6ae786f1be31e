// The words after the program's name: `help` is the only one. It leans on `help` for the page, and says nothing of standard input.
use crate::help;
use edge::Streams;
use std::env::{Env, FillError};
use text::token;

// The place of the first word that is not `help`, if there is one.
fn other_word<E: Env>(env: &E) -> Option<usize> {
    for i in 1..usize::MAX {
        if !edge::is_given(env, i) {
            return None;
        }
        if !is_help(env, i) {
            return Some(i);
        }
    }
    None
}

// A word that has no room is longer than `help`.
fn is_help<E: Env>(env: &E, i: usize) -> bool {
    let mut word = [0u8; 4096];
    match env.arg(i, &mut word) {
        Ok(n) => token::same(&word[..n], b"help"),
        Err(_) => false,
    }
}

// Names a word that means nothing here, or what fits of it.
fn name<E: Env>(env: &E, to: Streams, i: usize) {
    let mut word = [0u8; 4096];
    let filled = env.arg(i, &mut word);
    edge::note(to, b"lab: the only word that it takes is help, and not: ");
    match filled {
        Ok(n) => edge::note(to, &word[..n]),
        Err(FillError::TooLong) => edge::note(to, &word),
        Err(FillError::NotPresent) => {}
    }
    edge::note(to, b"\n\n");
}

// Says what was asked for, or why not.
pub fn answer<E: Env>(env: &E, to: Streams) {
    if let Some(other) = other_word(env) {
        name(env, to, other);
        let _ = help::show(&to.err);
        return;
    }
    if let Err(why) = help::show(&to.out) {
        edge::tell(to, b"lab: standard output", why);
    }
}
