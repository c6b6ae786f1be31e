// `sender U`, on either map: a sender is opened, and the answer is the number of the opening.
ghost use Rattle.std.specs.Prelude.{◌+◌, ◌≤◌, length};
ghost use Rattle.answers.specs.Answer.{answer_room};
ghost use Rattle.requests.specs.Named.{none_named};
ghost use Rattle.desk.specs.Desk.{Acts};

use crate::{Desk, Done, ends};
use points::Accord;
use requests::Request;

pub fn open_sender(desk: Desk, accord: Accord, page: &mut [u8], at: usize) -> Done
    requires { at + answer_room ≤ length page.old }
    ensures { Acts desk (Request.Sender accord) none_named page.old at result page.new }
{
    let opened = sender::open_sender(accord);
    let p = answers::number(page, at, u64::from(sender::number(opened.why)));
    ends::with_sender(desk, opened.sender, p)
}
