// What a call of the receiver did, a piece or a finish: its receiver on the desk, and the answer that says how many symbols it took and
// which words it wrote.
ghost use Rattle.std.specs.Prelude.{List, ℕ, ◌+◌, ◌≤◌, length};
ghost use Rattle.receiver.specs.Doors.{Ran};
ghost use Rattle.receiver.specs.Promise.{Is};
ghost use Rattle.desk.specs.Desk.{heard_room, ran_gives, Does};

use crate::{Desk, Done, ends};
use receiver::Answer;

pub fn answered(desk: Desk, a: Answer, out: &[u32], page: &mut [u8], at: usize) -> Done
    requires { (a.written ≤ length out.now) × (at + heard_room (length out.now) ≤ length page.old) }
    ensures { (ran : Ran) (before : List ℕ) → Is ran before a out.now
        → Does (ran_gives desk ran) (heard_room (length out.now)) page.old at result page.new }
{
    let p = answers::heard(page, at, a.taken, a.why, &out[..a.written]);
    ends::with_receiver(desk, a.receiver, p)
}
