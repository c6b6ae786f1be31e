// A line that is none of the protocol's: the desk stays as it is.
ghost use Rattle.std.specs.Prelude.{◌+◌, ◌≤◌, length};
ghost use Rattle.answers.specs.Answer.{answer_room};
ghost use Rattle.requests.specs.Named.{none_named};
ghost use Rattle.desk.specs.Desk.{Acts};

use crate::{Desk, Done};
use requests::Request;

pub fn unread(desk: Desk, page: &mut [u8], at: usize) -> Done
    requires { at + answer_room ≤ length page.old }
    ensures { Acts desk Request.Unread none_named page.old at result page.new }
{
    Done {
        desk,
        at: answers::unread(page, at),
    }
}
