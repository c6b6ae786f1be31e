// `pending`: how many symbols the receiver holds undecided. The desk stays as it is.
ghost use Rattle.std.specs.Prelude.{◌+◌, ◌≤◌, length};
ghost use Rattle.answers.specs.Answer.{answer_room};
ghost use Rattle.requests.specs.Named.{none_named};
ghost use Rattle.desk.specs.Desk.{Acts};

use crate::{Desk, Done};
use requests::Request;

pub fn pending(desk: Desk, page: &mut [u8], at: usize) -> Done
    requires { at + answer_room ≤ length page.old }
    ensures { Acts desk Request.Pending none_named page.old at result page.new }
{
    let n = openings::pending(desk.receiver);
    Done {
        desk,
        at: answers::number(page, at, n as u64),
    }
}
