// `receiver U`, `receiver U WINDOW free` and `receiver U WINDOW at S`, on either map: a receiver is opened, and the answer is the number
// of the opening. The three differ in the start and the window alone.
ghost use Rattle.std.specs.Prelude.{◌≡◌, ◌+◌, ◌≤◌, length};
ghost use Rattle.reasons.specs.Reason.{given_of};
ghost use Rattle.openings.specs.Opening.{Opening};
ghost use Rattle.answers.specs.Answer.{answer_room};
ghost use Rattle.requests.specs.Named.{none_named};
ghost use Rattle.desk.specs.Desk.{opening_gives, Does, Acts};

use crate::{Desk, Done, ends};
use openings::{Opened, Start};
use points::Accord;
use requests::Request;

// What an opening of a receiver gave.
fn opened(desk: Desk, o: Opened, page: &mut [u8], at: usize) -> Done
    requires { at + answer_room ≤ length page.old }
    ensures { (g : Opening) → given_of o.why ≡ given_of g.why → o.receiver ≡ g.receiver
        → Does (opening_gives desk g) answer_room page.old at result page.new }
{
    let p = answers::number(page, at, u64::from(reasons::number(o.why)));
    ends::with_receiver(desk, o.receiver, p)
}

pub fn open_plain(desk: Desk, accord: Accord, page: &mut [u8], at: usize) -> Done
    requires { at + answer_room ≤ length page.old }
    ensures { Acts desk (Request.Plain accord) none_named page.old at result page.new }
{
    opened(desk, openings::open_plain(accord), page, at)
}

pub fn open_free(desk: Desk, accord: Accord, window: u32, page: &mut [u8], at: usize) -> Done
    requires { at + answer_room ≤ length page.old }
    ensures { Acts desk (Request.Free accord window) none_named page.old at result page.new }
{
    let o = openings::open_receiver(accord, window, Start::Free);
    opened(desk, o, page, at)
}

pub fn open_at(
    desk: Desk,
    accord: Accord,
    window: u32,
    state: u32,
    page: &mut [u8],
    at: usize,
) -> Done
    requires { at + answer_room ≤ length page.old }
    ensures { Acts desk (Request.At accord window state) none_named page.old at result page.new }
{
    let o = openings::open_receiver(accord, window, Start::At(state));
    opened(desk, o, page, at)
}
