// The symbols of a piece, heard by a receiver in its parts, whose arrays are lent: one symbol, and one after another up to the first that is
// refused. A piece may come with marks, a number for each symbol that says which of its points are missing. The crate leans on `piece_input`, which
// has the symbol and its first fault, and on `one_symbol`, which takes a symbol that is in range; the doors of `receiver` test a record and
// whether a piece fits before they come here.
#![tactic(auto)]

ghost use Rattle.std.specs.Prelude.{◌≡◌, true, [], ◌+◌, ◌%◌, ◌≤◌, length};
ghost use Rattle.nearest.specs.Found.{chart_of};
ghost use Rattle.machine.specs.Machine.{sound};
ghost use Rattle.machine.specs.Parts.{whole};
ghost use Rattle.one_symbol.specs.Taken.{TookIs};
ghost use Rattle.piece_input.specs.Marks.{piece_by};
ghost use Rattle.piece_input.specs.Looks.{symbol_in};
ghost use Rattle.pieces.specs.Running.{symbol_at, running};
ghost use Rattle.pieces.specs.Lent.{RunsLent};

use machine::Core;
use nearest::Chart;
use one_symbol::Took;
use reasons::Why;

// The symbol of a piece from the place i on, with its mark. A coordinate out of range is refused before anything is searched.
fn symbol(
    t: &Chart,
    core: Core,
    mark: u8,
    samples: &[i32],
    i: usize,
    sums: &mut [u32; 16],
    registers: &mut [u64; 48],
    picks: &mut [u64],
    out: &mut [u32],
) -> Took
    requires t_value { (t.now ≡ chart_of core.accord) × (i + 4 ≤ length samples.now) }
    requires picks_value { (sound (whole core sums.old registers.old picks.old) ≡ true) × (length picks.old ≡ 72) }
    ensures { TookIs (symbol_at (whole core sums.old registers.old picks.old) (symbol_in mark samples.now i) (length out.old))
        result sums.new registers.new picks.new out.old out.new }
{
    let looked = piece_input::look(mark, samples, i);
    if let Some(place) = looked.place {
        return Took {
            core,
            written: 0,
            why: Err(Why::BadSample(place)),
        };
    }
    one_symbol::take_symbol(
        t,
        core,
        sums,
        registers,
        picks,
        looked.first,
        looked.second,
        out,
    )
}

// How a piece went, where the receiver's arrays are lent: the numbers of the receiver after it stand beside the answer.
#[derive(Clone, Copy)]
pub struct Heard {
    pub core: Core,
    pub taken: usize,
    pub written: usize,
    pub why: Result<(), Why>,
}

// The symbols of a piece, one after another, up to the first that is refused.
pub fn hear_symbols(
    start: Core,
    marks: Option<&[u8]>,
    samples: &[i32],
    sums: &mut [u32; 16],
    registers: &mut [u64; 48],
    picks: &mut [u64],
    out: &mut [u32],
) -> Heard
    requires { (sound (whole start sums.old registers.old picks.old) ≡ true) × (length samples.now % 4 ≡ 0) × (length picks.old ≡ 72) }
    ensures { RunsLent (running (piece_by marks.entry samples.now).symbols
        (whole start sums.old registers.old picks.old) 0 [] (length out.old))
        out.old result sums.new registers.new picks.new out.new }
{
    let chart = nearest::chart(start.accord);
    let symbols = samples.len() / 4;
    let mut core = start;
    let mut written: usize = 0;
    for taken in 0..symbols {
        let mark = piece_input::mark_at(marks, taken);
        let t = symbol(
            &chart,
            core,
            mark,
            samples,
            4 * taken,
            sums,
            registers,
            picks,
            &mut out[written..],
        );
        core = t.core;
        written = written + t.written;
        if t.why.is_err() {
            return Heard {
                core,
                taken,
                written,
                why: t.why,
            };
        }
    }
    Heard {
        core,
        taken: symbols,
        written,
        why: Ok(()),
    }
}
