// `card`: whether the card of the line is accepted. The desk stays as it is. The file is not named after the verb alone, since
// `card` is a crate.
ghost use Rattle.std.specs.Prelude.{◌+◌, ◌≤◌, length};
ghost use Rattle.answers.specs.Answer.{answer_room};
ghost use Rattle.requests.specs.Named.{none_named};
ghost use Rattle.desk.specs.Desk.{Acts};

use crate::{Desk, Done};
use requests::Request;

pub fn card(desk: Desk, accepted: bool, page: &mut [u8], at: usize) -> Done
    requires { at + answer_room ≤ length page.old }
    ensures { Acts desk (Request.Card accepted) none_named page.old at result page.new }
{
    Done {
        desk,
        at: answers::card(page, at, accepted),
    }
}
