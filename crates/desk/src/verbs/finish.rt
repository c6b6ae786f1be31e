// `finish CAP`: the receiver's line ends, and the words that wait go into an output of CAP words.
ghost use Rattle.std.specs.Prelude.{◌+◌, ◌≤◌, length};
ghost use Rattle.receiver.specs.Doors.{finishing};
ghost use Rattle.answers.specs.Answer.{answer_room};
ghost use Rattle.requests.specs.Named.{none_named};
ghost use Rattle.desk.specs.Desk.{heard_room, ran_gives, Does, Acts};

use crate::verbs::ran;
use crate::{Desk, Done};
use requests::Request;

fn finished(desk: Desk, out: &mut [u32], page: &mut [u8], at: usize) -> Done
    requires { at + heard_room (length out.old) ≤ length page.old }
    ensures { Does (ran_gives desk (finishing desk.receiver (length out.old))) (heard_room (length out.old)) page.old at result page.new }
{
    let heard = receiver::finish(desk.receiver, out);
    ran::answered(desk, heard, out, page, at)
}

pub fn finish(desk: Desk, cap: u32, words: &mut [u32], page: &mut [u8], at: usize) -> Done
    requires { (cap ≤ length words.old) × (cap ≤ 4096) × (at + answer_room ≤ length page.old) }
    ensures { Acts desk (Request.Finish cap) none_named page.old at result page.new }
{
    finished(desk, &mut words[..cap as usize], page, at)
}
