// How a receiver begins and whether it stands open.
//
// `open_receiver` names what both ends agree on, the window and the start; `open_plain` only the first. A refused opening gives a closed
// receiver. The tests say whether a record is one that the machine can work on: whatever is not is answered like a closed receiver.
#![tactic(auto)]

ghost use Rattle.std.specs.Prelude.{◌≡◌, true, cond, ◌&&◌, Err};
ghost use Rattle.trellis.specs.Words.{first_turn};
ghost use Rattle.machine.specs.Machine.{core, fresh_sums, shut, sound_core, sound};
ghost use Rattle.lists.specs.UpTo.{all_up_to};
ghost use Rattle.sums.specs.Sums.{limit};
ghost use Rattle.openings.specs.Given.{plain_window, start_of, start_fits, start_at};
ghost use Rattle.openings.specs.Opening.{Opens};

use machine::{Core, Receiver};
use points::{Accord, Map};
use reasons::Why;

// Any first state, or the named one: 01's own two words, which theorems name, and so no Option.
#[derive(Clone, Copy)]
pub enum Start {
    Free,
    At(u32),
}

#[derive(Clone, Copy)]
pub struct Opened {
    pub receiver: Receiver,
    pub why: Result<(), Why>,
}

// A closed receiver.
pub fn closed_receiver() -> Receiver
    ensures { result ≡ shut }
{
    Receiver {
        live: false,
        core: fresh_core(
            Accord {
                map: Map::Round,
                u: 0,
            },
            0,
            0,
        ),
        sums: [0u32; 16],
        registers: [0u64; 48],
        picks: [0u64; 72],
    }
}

fn fresh_core(accord: Accord, window: usize, turn: u32) -> Core
    ensures { result ≡ core accord window turn }
{
    Core {
        accord,
        window,
        turn,
        slot: 0,
        pending: 0,
    }
}

// The sums before any symbol: 0 for a state that may stand first, and for every other one more than a reached state can keep.
fn fresh_sums(start: Start) -> [u32; 16]
    requires { start_fits start ≡ true }
    ensures { result ≡ fresh_sums (start_of start) }
{
    match start {
        Start::Free => [0u32; 16],
        Start::At(s) => {
            let mut sums = [sums::LIMIT; 16];
            sums[s as usize] = 0;
            sums
        }
    }
}

// The turn against which the first symbol is measured: not known where the receiver may join a live line.
fn first_turn(start: Start) -> u32
    ensures { result ≡ first_turn (start_of start) }
{
    match start {
        Start::Free => wei::label::UNKNOWN,
        Start::At(_) => 0,
    }
}

// Whether a start is free or names one of the sixteen states.
fn start_fits(start: Start) -> bool
    ensures { result ≡ start_fits start }
{
    matches!(start, Start::Free | Start::At(0..=15))
}

// The start that a number stands for, for callers that have only numbers: 16 is the free one.
pub fn start_at(n: u32) -> Start
    ensures { result ≡ start_at n }
{
    match n {
        16 => Start::Free,
        _ => Start::At(n),
    }
}

fn not_opened(why: Why) -> Opened
    ensures { result ≡ record { receiver = shut; why = Err why } }
{
    Opened {
        receiver: closed_receiver(),
        why: Err(why),
    }
}

// Refused, in this order: a width above 8 or odd on the square map, a window not 1 to 64, a named start above 15.
pub fn open_receiver(accord: Accord, window: u32, start: Start) -> Opened
    ensures { Opens accord window start result }
{
    if !points::is_accord(accord) {
        return not_opened(Why::BadWidth);
    }
    if !(1..=64).contains(&window) {
        return not_opened(Why::BadWindow);
    }
    if !start_fits(start) {
        return not_opened(Why::BadStart);
    }
    Opened {
        receiver: Receiver {
            live: true,
            core: fresh_core(accord, window as usize, first_turn(start)),
            sums: fresh_sums(start),
            registers: [0u64; 48],
            picks: [0u64; 72],
        },
        why: Ok(()),
    }
}

// The window of the plain opening: a named one may have up to 64.
pub const PLAIN_WINDOW: u32 = 32;

// The plain opening names only what both ends agree on: its start is free.
pub fn open_plain(accord: Accord) -> Opened
    ensures { Opens accord plain_window Start.Free result }
{
    open_receiver(accord, PLAIN_WINDOW, Start::Free)
}

// Whether the numbers beside the sums are in range.
fn core_fits(c: Core) -> bool
    ensures { result ≡ sound_core c }
{
    points::is_accord(c.accord)
        && (1..=64).contains(&c.window)
        && c.turn <= 4
        && c.slot < 64
        && c.pending <= c.window
}

// Whether a receiver of these parts is open and in range: no state keeps more than one that nothing reaches.
pub fn parts_fit(live: bool, c: Core, sums: &[u32; 16]) -> bool
    ensures { result ≡ (live && (sound_core c && all_up_to limit sums.now)) }
{
    live && core_fits(c) && sums::all_up_to(sums, sums::LIMIT)
}

// Whether the receiver is open and in range.
pub fn is_open(rx: Receiver) -> bool
    ensures { result ≡ sound rx }
{
    parts_fit(rx.live, rx.core, &rx.sums)
}

// How many symbols are taken and not released; 0 of a closed receiver.
pub fn pending(rx: Receiver) -> usize
    ensures { result ≡ cond (sound rx) rx.core.pending 0 }
{
    if is_open(rx) { rx.core.pending } else { 0 }
}
