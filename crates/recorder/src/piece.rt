// The symbols of a piece as the recorder hears them: each one that is taken leaves its record in lent bytes, then the records of the words
// that it released; what is refused leaves none. It leans on `pieces`, which hears a symbol, and on `record_write`, which writes records; the
// doors test a record and a piece's length before they come here.
//
// A symbol whose records have no room is an 8 and is not taken. The machine itself refuses it: it is lent no more places for words than
// the bytes can record. Only where the symbol's own record has no room is it heard on a copy, since 5 and 6 come first; that ends the
// call.
ghost use Rattle.std.specs.Prelude.{◌≡◌, true, [], ◌%◌, length, Err};
ghost use Rattle.machine.specs.Machine.{sound};
ghost use Rattle.machine.specs.Parts.{whole};
ghost use Rattle.piece_input.specs.Marks.{piece_by};
ghost use Rattle.record_write.specs.Front.{symbol_in};
ghost use Rattle.recorder.specs.Taping.{taping};
ghost use Rattle.recorder.specs.Lent.{Refuses, StepIs, RunsTaped};

use machine::Core;
use reasons::Why;

// How a recorded piece went, where the receiver's arrays are lent: the numbers of the receiver after it stand beside the answer.
#[derive(Clone, Copy)]
pub struct Kept {
    pub core: Core,
    pub taken: usize,
    pub written: usize,
    pub recorded: usize,
    pub why: Result<(), Why>,
}

// How one symbol went.
#[derive(Clone, Copy)]
struct Step {
    core: Core,
    written: usize,
    recorded: usize,
    why: Result<(), Why>,
}

// What is said to a symbol whose own record has no room: 5 or 6 first, as a copy of the receiver says it, and else 8.
fn refusal(
    core: Core,
    mark: u8,
    four: &[i32],
    sums: &[u32; 16],
    registers: &[u64; 48],
    picks: &[u64],
) -> Why
    requires { (sound (whole core sums.now registers.now picks.now) ≡ true) × (length picks.now ≡ 72) × (length four.now ≡ 4) }
    ensures { Refuses (whole core sums.now registers.now picks.now) (symbol_in mark four.now) (Err result) }
{
    let mut s = *sums;
    let mut p = *registers;
    let mut k = [0u64; 72];
    k.copy_from_slice(picks);
    let mut none = [0u32; 1];
    let h = pieces::hear_symbols(
        core,
        Some(&[mark]),
        four,
        &mut s,
        &mut p,
        &mut k,
        &mut none[..0],
    );
    match h.why {
        Ok(()) => Why::NoRoom,
        Err(why) => why,
    }
}

fn not_taken(core: Core, why: Result<(), Why>) -> Step
    ensures { result ≡ record { core = core; written = 0; recorded = 0; why = why } }
{
    Step {
        core,
        written: 0,
        recorded: 0,
        why,
    }
}

// One symbol, and its records.
fn record_symbol(
    core: Core,
    mark: u8,
    four: &[i32],
    sums: &mut [u32; 16],
    registers: &mut [u64; 48],
    picks: &mut [u64],
    out: &mut [u32],
    bytes: &mut [u8],
) -> Step
    requires { (sound (whole core sums.old registers.old picks.old) ≡ true) × (length picks.old ≡ 72) × (length four.now ≡ 4) }
    ensures { StepIs (whole core sums.old registers.old picks.old) (symbol_in mark four.now) out.old bytes.old
        result sums.new registers.new picks.new out.new bytes.new }
{
    let size = record_write::symbol_space(mark, four);
    if bytes.len() < size {
        let why = refusal(core, mark, four, sums, registers, picks);
        return not_taken(core, Err(why));
    }
    // so many words does the output hold, and their records the bytes after the symbol's own
    let room = out.len().min((bytes.len() - size) / 5);
    let h = pieces::hear_symbols(
        core,
        Some(&[mark]),
        four,
        sums,
        registers,
        picks,
        &mut out[..room],
    );
    if h.taken == 0 {
        return not_taken(h.core, h.why);
    }
    record_write::put_taken(mark, four, &out[..h.written], bytes);
    Step {
        core: h.core,
        written: h.written,
        recorded: size + 5 * h.written,
        why: h.why,
    }
}

// The symbols of a piece, with their marks where it has any, one after another, up to the first that is refused.
pub fn record_symbols(
    start: Core,
    marks: Option<&[u8]>,
    samples: &[i32],
    sums: &mut [u32; 16],
    registers: &mut [u64; 48],
    picks: &mut [u64],
    out: &mut [u32],
    bytes: &mut [u8],
) -> Kept
    requires { (sound (whole start sums.old registers.old picks.old) ≡ true) × (length samples.now % 4 ≡ 0) × (length picks.old ≡ 72) }
    ensures { RunsTaped (taping (piece_by marks.entry samples.now).symbols (whole start sums.old registers.old picks.old) 0 [] []
        (length out.old) (length bytes.old)) out.old bytes.old
        result sums.new registers.new picks.new out.new bytes.new }
{
    let symbols = samples.len() / 4;
    let mut core = start;
    let mut written: usize = 0;
    let mut recorded: usize = 0;
    for taken in 0..symbols {
        let mark = piece_input::mark_at(marks, taken);
        let t = record_symbol(
            core,
            mark,
            &samples[4 * taken..4 * taken + 4],
            sums,
            registers,
            picks,
            &mut out[written..],
            &mut bytes[recorded..],
        );
        core = t.core;
        written = written + t.written;
        recorded = recorded + t.recorded;
        if t.why.is_err() {
            return Kept {
                core,
                taken,
                written,
                recorded,
                why: t.why,
            };
        }
    }
    Kept {
        core,
        taken: symbols,
        written,
        recorded,
        why: Ok(()),
    }
}
