// The inside of one symbol. `take_symbol` takes a receiver over one received symbol: `look_ahead` weighs the symbol (crate nearest), adds,
// compares and selects (select), and counts how many symbols all live states now agree on (registers). Nothing is stored so far, so a refusal
// leaves all as it was. Then the agreed words are written (machine), sums and picks (picks) are stored, and the registers move on (shift).
//
// The arrays are lent and copied nowhere: a caller that holds a receiver takes it apart once for a whole piece. Every function
// equals a definition of machine/specs on the same numbers, whatever the lists hold.
#![tactic(auto)]

ghost use Rattle.std.specs.Prelude.{◌≡◌, [], ◌+◌, ◌%◌, ◌<◌, length, Err};
ghost use Rattle.nearest.specs.Line.{InRange};
ghost use Rattle.nearest.specs.Found.{chart_of, heard_as};
ghost use Rattle.machine.specs.Machine.{taking};
ghost use Rattle.machine.specs.Parts.{Ready, whole};
ghost use Rattle.one_symbol.specs.Taken.{outlook_of, TookIs};

use machine::Core;
use nearest::{Chart, Received};
use reasons::Why;
use select::Selected;

// What became of a symbol: the numbers of the receiver after it, and how many words it wrote.
#[derive(Clone, Copy)]
pub struct Took {
    pub core: Core,
    pub written: usize,
    pub why: Result<(), Why>,
}

// What a symbol would make of the receiver: what the states keep then, the step into each state and the first word of the state before it, what is
// picked, how many pending symbols are agreed then, and a state whose way begins with them.
#[derive(Clone, Copy)]
pub struct Outlook {
    pub sums: [u32; 16],
    pub steps: [u8; 16],
    pub ways: [u64; 16],
    pub i3: [u8; 8],
    pub numbers: u64,
    pub state: usize,
    pub agreed: usize,
}

// What a symbol would make of the receiver. Nothing is stored: the receiver is only read.
fn look_ahead(
    t: &Chart,
    core: Core,
    sums: &[u32; 16],
    registers: &[u64; 48],
    first: Received,
    second: Received,
) -> Outlook
    requires t_value { (t.now ≡ chart_of core.accord) × InRange first × InRange second }
    requires ready { Ready core sums.now }
    ensures { result ≡ outlook_of (whole core sums.now registers.now []) (heard_as first second) }
{
    let weighed = nearest::weigh(t, core.accord, first, second);
    let Selected { sums, steps } = select::advance(sums, &weighed.costs);
    let ways = registers::words_before(registers, &steps, 0);
    let agreed = registers::agreed(registers, &steps, &ways, core.pending);
    // Taken out first: a field that is an array is not proved as a part of a literal.
    let i3 = weighed.i3;
    Outlook {
        sums,
        steps,
        ways,
        i3,
        numbers: picks::numbers_of(weighed.w1, weighed.w2),
        state: usize::from(steps[0] / 8 % 16),
        agreed,
    }
}

// A refused symbol leaves all as it was.
fn refused(core: Core, why: Why) -> Took
    ensures { result ≡ record { core = core; written = 0; why = Err why } }
{
    Took {
        core,
        written: 0,
        why: Err(why),
    }
}

// The numbers after a symbol is taken, with the turn after its words and with so many pending.
fn moved_on(core: Core, turn: u32, pending: usize) -> Core
    requires { core.slot < 64 }
    ensures { result ≡ record { accord = core.accord; window = core.window; turn = turn; slot = (core.slot + 1) % 64; pending = pending } }
{
    Core {
        turn,
        slot: (core.slot + 1) % 64,
        pending,
        ..core
    }
}

// One symbol. It is refused with number 6 or 8, in this order, and then nothing has been stored; or it is taken, and the words
// that all live states now agree on stand at the front of `out`.
pub fn take_symbol(
    t: &Chart,
    core: Core,
    sums: &mut [u32; 16],
    registers: &mut [u64; 48],
    picks: &mut [u64],
    first: Received,
    second: Received,
    out: &mut [u32],
) -> Took
    requires t_value { (t.now ≡ chart_of core.accord) × InRange first × InRange second }
    requires ready { Ready core sums.old × (length picks.old ≡ 72) }
    ensures { TookIs (taking (whole core sums.old registers.old picks.old) (heard_as first second) (length out.old))
        result sums.new registers.new picks.new out.old out.new }
{
    let o = look_ahead(t, core, sums, registers, first, second);
    let n = o.agreed;
    let kept = core.pending + 1 - n;
    if core.window < kept {
        return refused(core, Why::Full);
    }
    if out.len() < n {
        return refused(core, Why::NoRoom);
    }
    let turn = machine::write_words(core, registers, picks, o.state, n, out);
    // Taken out first: a field that is an array is not proved where it is stored straight.
    let new_sums = o.sums;
    *sums = new_sums;
    registers::shift(registers, &o.steps, &o.ways, core.pending + 1);
    picks::keep(picks, core.slot, o.i3, o.numbers);
    Took {
        core: moved_on(core, turn, kept),
        written: n,
        why: Ok(()),
    }
}
