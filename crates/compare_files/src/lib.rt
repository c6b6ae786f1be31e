// Two files compared: each is read for its form, rewound, and then both are read side by side, in constant memory whatever their length.
// What is told of the bytes is `compare`'s, the lines are `compare_text`'s. Each step has a contract (specs/Steps), and proofs/SideTurns says that from
// the first to the last they tell the comparison of the two files' bytes; which bytes a read gave and a write took no contract can say.
//
// A file that cannot be read or rewound, as a pipe, is told on the error stream before any line is printed.
#![tactic(auto)]

ghost use Rattle.std.specs.Prelude.{◌≡◌, ◌+◌, ◌-◌, ◌≤◌, length, take, drop, IfOk};
ghost use Rattle.compare.specs.Passing.{pass_of};
ghost use Rattle.compare_files.specs.Steps.{shape_of, FormTurn, waiting, Kept, LineSaid, Heeded, SideTurn, second_line, only_line};

use compare::Pass;
use compare_events::{Event, Line};
use edge::Streams;
use record_front::Sign;
use records::Phase;
use std::io::{Error, Read, Seek};

// One file: the place in its chunk from which bytes wait and the one up to which they do, and whether it has ended.
#[derive(Clone, Copy)]
struct Side {
    from: usize,
    to: usize,
    ends: bool,
}

// What a file read for its form is: well formed, or malformed at an offset.
#[derive(Clone, Copy)]
enum Shape {
    Clean,
    Malformed(u64),
}

// How far the page is filled, whether more bytes are wanted, and whether to go on: flags, since `SideTurn` speaks of the page after the last
// line too.
#[derive(Clone, Copy)]
struct Out {
    at: usize,
    waits: bool,
    on: bool,
}

// Both files, how far they are compared, and the page.
#[derive(Clone, Copy)]
struct Both {
    pass: Pass,
    first: Side,
    second: Side,
    out: Out,
}

// Moves the bytes that wait to the front of the chunk, and says how many there are.
fn to_front(chunk: &mut [u8], from: usize, to: usize) -> usize
    requires { (from ≤ to) × (to ≤ length chunk.old) }
    ensures { (result ≡ to - from) × (take result chunk.new ≡ take result (drop from chunk.old)) }
{
    chunk.copy_within(from..to, 0);
    to - from
}

// Reads once, behind the bytes that wait. A read that answers 0 is the file's end.
fn refill<R: Read>(file: &mut R, s: Side, chunk: &mut [u8]) -> Result<Side, Error>
    requires { (s.from ≤ s.to) × (s.to ≤ length chunk.old) }
    ensures from_le_to { IfOk result (λ r. (r.from ≡ 0) × (s.to - s.from ≤ r.to) × (r.to ≤ length chunk.old)) }
    ensures kept { take (s.to - s.from) chunk.new ≡ take (s.to - s.from) (drop s.from chunk.old) }
{
    let held = to_front(chunk, s.from, s.to);
    let n = file.read(&mut chunk[held..])?;
    Ok(Side {
        from: 0,
        to: held + n,
        ends: n == 0,
    })
}

fn fresh() -> Side
    ensures { (result.from ≡ 0) × (result.to ≡ 0) }
{
    Side {
        from: 0,
        to: 0,
        ends: false,
    }
}

// So many bytes are passed, or all that wait.
fn passed(s: Side, n: usize) -> Side
    requires { s.from + n ≤ s.to }
    ensures from_le_to { (result.from ≤ result.to) × (result.to ≡ s.to) }
    ensures from_value { (result.from ≡ s.from + n) × (result.ends ≡ s.ends) }
{
    Side {
        from: s.from + n,
        ..s
    }
}

// How far a file is read for its form, and what it is once that is known.
#[derive(Clone, Copy)]
struct Reading {
    side: Side,
    phase: Phase,
    at: u64,
    shape: Option<Shape>,
}

fn told(sign: Sign, at: u64) -> Option<Shape>
    ensures { result ≡ shape_of sign at }
{
    match sign {
        Sign::Record | Sign::More => None,
        Sign::Gone => Some(Shape::Clean),
        Sign::Bad => Some(Shape::Malformed(at)),
    }
}

// One read of the first reading.
fn read_form<R: Read>(file: &mut R, r: Reading, chunk: &mut [u8]) -> Result<Reading, Error>
    requires { (r.side.from ≤ r.side.to) × (r.side.to ≤ length chunk.old) }
    ensures from_le_to { IfOk result (λ q. (q.side.from ≤ q.side.to) × (q.side.to ≤ length chunk.old)) }
    ensures form_turn { IfOk result (λ q. FormTurn r chunk.old q chunk.new) }
{
    let s = refill(file, r.side, chunk)?;
    let f = compare::form(r.phase, r.at, &chunk[s.from..s.to], s.ends);
    Ok(Reading {
        side: passed(s, f.used),
        phase: f.phase,
        at: f.at,
        shape: told(f.sign, f.at),
    })
}

// The first reading of a file, to its end or its malformed place. A proved loop has to end, and nothing says that a file does: no run
// uses up so many reads.
fn form_of<R: Read>(file: &mut R) -> Result<Shape, Error> {
    let mut chunk = [0u8; 65536];
    let mut now = Reading {
        side: fresh(),
        phase: Phase::Start,
        at: 0,
        shape: None,
    };
    for _ in 0..u64::MAX {
        now = read_form(file, now, &mut chunk)?;
        if let Some(shape) = now.shape {
            return Ok(shape);
        }
    }
    Err(Error::from_raw_os_error(0))
}

// Hands what the page holds to `write`.
fn flush(to: Streams, page: &[u8], at: usize) -> bool
    requires { at ≤ length page.now }
{
    edge::write(to, &page[..at], b"capture: standard output")
}

// A line more on the page, which is handed on with the last line and where no other would find room.
fn say(to: Streams, at: usize, line: Line, ends: bool, page: &mut [u8]) -> Out
    requires { at + 40 ≤ length page.old }
    ensures at_in_bounds { result.at + 40 ≤ length page.old }
    ensures line_said { LineSaid line page.old at result page.new }
{
    let end = compare_text::put_line(page, at, line);
    if !ends && end + 40 <= page.len() {
        return Out {
            at: end,
            waits: false,
            on: true,
        };
    }
    let is_written = flush(to, page, end);
    Out {
        at: 0,
        waits: false,
        on: is_written && !ends,
    }
}

// A side of which less than half a chunk waits is read on, where more bytes are wanted.
fn fed<R: Read>(file: &mut R, s: Side, is_wanted: bool, chunk: &mut [u8]) -> Result<Side, Error>
    requires { (s.from ≤ s.to) × (s.to ≤ length chunk.old) }
    ensures from_le_to { IfOk result (λ r. (r.from ≤ r.to) × (r.to ≤ length chunk.old)) }
    ensures kept { IfOk result (λ r. Kept s chunk.old r chunk.new) }
{
    let waits = s.to - s.from;
    if !is_wanted || s.ends || chunk.len() - waits < waits {
        return Ok(s);
    }
    refill(file, s, chunk)
}

// A file that was well formed a moment ago.
fn changed(to: Streams, at: usize) -> Out
    ensures { result.at ≡ at }
{
    edge::note(to, b"capture: a file was changed while it was read\n");
    Out {
        at,
        waits: false,
        on: false,
    }
}

// What two lumps told: a line goes to the page.
fn heed(to: Streams, event: Event, at: usize, page: &mut [u8]) -> Out
    requires { at + 40 ≤ length page.old }
    ensures at_in_bounds { result.at + 40 ≤ length page.old }
    ensures heeded { Heeded event page.old at result page.new }
{
    match event {
        Event::Same => Out {
            at,
            waits: false,
            on: true,
        },
        Event::Said(line) => say(to, at, line, false, page),
        Event::Last(line) => say(to, at, line, true, page),
        Event::Wait => Out {
            at,
            waits: true,
            on: true,
        },
        Event::Broken => changed(to, at),
    }
}

// Both lumps up to the next line.
fn told_by(b: Both, one: &[u8], two: &[u8]) -> Pass
    requires from_le_to { (b.first.from ≤ b.first.to) × (b.first.to ≤ length one.now) }
    requires from_le_to_2 { (b.second.from ≤ b.second.to) × (b.second.to ≤ length two.now) }
    ensures here_bound { (b.first.from + result.here ≤ b.first.to) × (b.second.from + result.there ≤ b.second.to) }
    ensures value { result ≡ pass_of b.pass (waiting b.first one.now) (waiting b.second two.now) b.first.ends b.second.ends }
{
    compare::next(
        b.pass,
        &one[b.first.from..b.first.to],
        &two[b.second.from..b.second.to],
        b.first.ends,
        b.second.ends,
    )
}

// And the line to the page.
fn look_on(to: Streams, b: Both, one: &[u8], two: &[u8], page: &mut [u8]) -> Both
    requires from_le_to { (b.first.from ≤ b.first.to) × (b.first.to ≤ length one.now) }
    requires from_le_to_2 { (b.second.from ≤ b.second.to) × (b.second.to ≤ length two.now) }
    requires at_in_bounds { b.out.at + 40 ≤ length page.old }
    ensures from_le_to_3 { (result.first.from ≤ result.first.to) × (result.first.to ≤ length one.now) }
    ensures from_le_to_4 { (result.second.from ≤ result.second.to) × (result.second.to ≤ length two.now) }
    ensures at_in_bounds_2 { result.out.at + 40 ≤ length page.old }
    ensures side_turn { SideTurn b one.now two.now page.old result page.new }
{
    let pass = told_by(b, one, two);
    Both {
        pass,
        first: passed(b.first, pass.here),
        second: passed(b.second, pass.there),
        out: heed(to, pass.event, b.out.at, page),
    }
}

// Reads on where more bytes are wanted.
fn read_on<R: Read>(
    first_file: &mut R,
    second_file: &mut R,
    b: Both,
    one: &mut [u8],
    two: &mut [u8],
) -> Result<Both, Error>
    requires from_le_to { (b.first.from ≤ b.first.to) × (b.first.to ≤ length one.old) }
    requires from_le_to_2 { (b.second.from ≤ b.second.to) × (b.second.to ≤ length two.old) }
    ensures from_le_to_3 { IfOk result (λ r. (r.first.from ≤ r.first.to) × (r.first.to ≤ length one.old)) }
    ensures from_le_to_4 { IfOk result (λ r. (r.second.from ≤ r.second.to) × (r.second.to ≤ length two.old)) }
    ensures at_value { IfOk result (λ r. r.out.at ≡ b.out.at) }
    ensures pass_value { IfOk result (λ r. (r.pass ≡ b.pass) × Kept b.first one.old r.first one.new × Kept b.second two.old r.second two.new) }
{
    let first = fed(first_file, b.first, b.out.waits, one);
    // Where both reads fail, the second one's error is told.
    let second = fed(second_file, b.second, b.out.waits, two)?;
    let first = first?;
    Ok(Both {
        pass: b.pass,
        first,
        second,
        out: Out {
            at: b.out.at,
            waits: false,
            on: true,
        },
    })
}

// One turn of the second reading: a line further, and more bytes where they are wanted. The first turn finds none, and wants some.
fn turn<R: Read>(
    first_file: &mut R,
    second_file: &mut R,
    to: Streams,
    b: Both,
    one: &mut [u8],
    two: &mut [u8],
    page: &mut [u8],
) -> Both
    requires from_le_to { (b.first.from ≤ b.first.to) × (b.first.to ≤ length one.old) }
    requires from_le_to_2 { (b.second.from ≤ b.second.to) × (b.second.to ≤ length two.old) }
    requires at_in_bounds { b.out.at + 40 ≤ length page.old }
    ensures from_le_to_3 { (result.first.from ≤ result.first.to) × (result.first.to ≤ length one.old) }
    ensures from_le_to_4 { (result.second.from ≤ result.second.to) × (result.second.to ≤ length two.old) }
    ensures at_in_bounds_2 { result.out.at + 40 ≤ length page.old }
{
    let told = look_on(to, b, one, two, page);
    if !told.out.waits {
        return told;
    }
    match read_on(first_file, second_file, told, one, two) {
        Ok(next) => next,
        Err(why) => {
            edge::tell(to, b"capture: read", why);
            Both {
                out: Out {
                    on: false,
                    ..told.out
                },
                ..told
            }
        }
    }
}

// The second reading: both files side by side.
fn side_by_side<R: Read>(first: &mut R, second: &mut R, to: Streams) {
    let mut one = [0u8; 65536];
    let mut two = [0u8; 65536];
    let mut page = [0u8; 65536];
    let mut now = Both {
        pass: compare::start(),
        first: fresh(),
        second: fresh(),
        out: Out {
            at: 0,
            waits: true,
            on: true,
        },
    };
    for _ in 0..u64::MAX {
        if !now.out.on {
            return;
        }
        now = turn(first, second, to, now, &mut one, &mut two, &mut page);
    }
}

// A file as it was before its first byte was read.
fn rewind<R: Seek>(file: &mut R, to: Streams) -> bool {
    match file.rewind() {
        Ok(()) => true,
        Err(why) => {
            edge::tell(to, b"capture: a file that cannot be read twice", why);
            false
        }
    }
}

// What a file is, with the file rewound; a failure is told.
fn shape_of<R: Read + Seek>(file: &mut R, to: Streams) -> Option<Shape> {
    match form_of(file) {
        Ok(shape) if rewind(file, to) => Some(shape),
        Ok(_) => None,
        Err(why) => {
            edge::tell(to, b"capture: read", why);
            None
        }
    }
}

// The only line.
fn say_alone(to: Streams, line: Line) {
    let mut page = [0u8; 40];
    say(to, 0, line, true, &mut page);
}

// `second malformed P`, or no line yet.
fn second_line(b: Shape) -> Event
    ensures { result ≡ second_line b }
{
    match b {
        Shape::Clean => Event::Same,
        Shape::Malformed(p) => Event::Last(Line::SecondMalformed(p)),
    }
}

// `first malformed P`, or what the second file says.
fn only_line(a: Shape, b: Shape) -> Event
    ensures { result ≡ only_line a b }
{
    match a {
        Shape::Clean => second_line(b),
        Shape::Malformed(p) => Event::Last(Line::FirstMalformed(p)),
    }
}

// The only line, or the second reading.
fn judged<R: Read>(a: Shape, b: Shape, first: &mut R, second: &mut R, to: Streams) {
    match only_line(a, b) {
        Event::Last(line) => say_alone(to, line),
        _ => side_by_side(first, second, to),
    }
}

// Compares the captures of two files. Nothing is printed before both are read for their form and rewound.
pub fn run<R: Read + Seek>(first: &mut R, second: &mut R, to: Streams) {
    let Some(a) = shape_of(first, to) else {
        return;
    };
    let Some(b) = shape_of(second, to) else {
        return;
    };
    judged(a, b, first, second, to);
}
