// The line so far, gathered from the pieces in which the input comes: what stands in the buffer, or that it is too long and is skipped.
#![tactic(auto)]

ghost use Rattle.std.specs.Prelude.{◌≡◌, List, ◌++◌, ℕ, ◌≤◌, length};
ghost use Rattle.line_buffer.specs.Part.{Gathered, no_part};

// The line so far: how many bytes of it are in the buffer, or that it is too long and is skipped. `held` is a number then too, 0, and no
// Option: the contracts of `line_reply` and `stream` bound it whether the line is too long or not.
#[derive(Clone, Copy)]
pub struct Part {
    pub held: usize,
    pub long: bool,
}

// The line so far with some bytes more. One byte too many, and it stays too long to its end.
pub fn gather(part: Part, line: &mut [u8], bytes: &[u8]) -> Part
    requires { part.held ≤ length line.old }
    ensures held_in_bounds { result.held ≤ length line.old }
    ensures by_index { (s : List ℕ) → Gathered line.old part s → Gathered line.new result (s ++ bytes.now) }
{
    if part.long {
        return part;
    }
    if line.len() - part.held < bytes.len() {
        return Part {
            held: 0,
            long: true,
        };
    }
    Part {
        held: page::put_text(line, part.held, bytes),
        long: false,
    }
}

pub fn fresh() -> Part
    ensures { (result.held ≡ 0) × (result ≡ no_part) }
{
    Part {
        held: 0,
        long: false,
    }
}
