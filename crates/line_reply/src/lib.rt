// Lines: the answer to a line that has come to its end. The line so far is `line_buffer`'s.
// What a line asks for is `protocol`'s, what it does is the `desk`'s; specs/Line.antt puts the two together.
#![tactic(auto)]

ghost use Rattle.std.specs.Prelude.{◌≡◌, List, ℕ, ◌+◌, ◌≤◌, length};
ghost use Rattle.answers.specs.Answer.{answer_room};
ghost use Rattle.protocol.specs.Request.{request_of};
ghost use Rattle.desk.specs.Desk.{Acts};
ghost use Rattle.line_buffer.specs.Part.{Gathered};
ghost use Rattle.line_reply.specs.Line.{named_by, answering, Replies};

use desk::{Desk, Done};
use line_buffer::Part;

// The desk, the line so far, how much of the page is filled, and whether the input is to be read on.
#[derive(Clone, Copy)]
pub struct Lab {
    pub desk: Desk,
    pub part: Part,
    pub at: usize,
    pub on: bool,
}

// What a line within its buffer asks for, done. The lists that it is read into last no longer than the line.
// `record_text::obey` has this form: they share the reading, and each acts on another state.
fn obey(desk: Desk, line: &[u8], page: &mut [u8], at: usize) -> Done
    requires { at + answer_room ≤ length page.old }
    ensures { Acts desk (request_of 4096 4096 1024 line.now) (named_by line.now) page.old at result page.new }
{
    let mut coordinates = [0i32; 4096];
    let mut words = [0u32; 4096];
    let mut marks = [0u8; 1024];
    let asked = protocol::read(line, &mut coordinates, &mut words, &mut marks);
    desk::act(desk, asked, page, at, &mut coordinates, &mut words, &marks)
}

// Answers the line that has come to its end.
pub fn reply(lab: Lab, line: &[u8], page: &mut [u8]) -> Lab
    requires { (lab.at + answer_room ≤ length page.old) × (lab.part.held ≤ length line.now) }
    ensures at_bound { (result.at ≤ lab.at + answer_room) × (result.part.held ≡ 0) }
    ensures by_index { (s : List ℕ) → Gathered line.now lab.part s → Replies (answering (length line.now) lab.desk s) lab page.old result page.new }
{
    let part = line_buffer::fresh();
    if lab.part.long {
        return Lab {
            part,
            at: answers::unread(page, lab.at),
            ..lab
        };
    }
    let done = obey(lab.desk, &line[..lab.part.held], page, lab.at);
    Lab {
        desk: done.desk,
        part,
        at: done.at,
        ..lab
    }
}
