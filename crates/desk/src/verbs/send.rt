// `send W CAP`: a word is sent into an output of CAP places, which are those at the start of the list lent for coordinates.
ghost use Rattle.std.specs.Prelude.{◌+◌, ◌≤◌, length};
ghost use Rattle.answers.specs.Answer.{answer_room};
ghost use Rattle.requests.specs.Named.{none_named};
ghost use Rattle.desk.specs.Desk.{Acts};

use crate::{Desk, Done, ends};
use requests::Request;

fn sent(desk: Desk, word: u32, out: &mut [i32], page: &mut [u8], at: usize) -> Done
    requires { at + answer_room ≤ length page.old }
    ensures { Acts desk (Request.Send word (length out.old)) none_named page.old at result page.new }
{
    let sent = sender::send(desk.sender, word, out);
    let p = answers::sent(page, at, sender::number(sent.why), out);
    ends::with_sender(desk, sent.sender, p)
}

pub fn send(
    desk: Desk,
    word: u32,
    cap: u32,
    coordinates: &mut [i32],
    page: &mut [u8],
    at: usize,
) -> Done
    requires { (cap ≤ length coordinates.old) × (at + answer_room ≤ length page.old) }
    ensures { Acts desk (Request.Send word cap) none_named page.old at result page.new }
{
    sent(desk, word, &mut coordinates[..cap as usize], page, at)
}
