// `piece CAP C C C C ..`: the receiver hears the coordinates, which are at the start of the list lent for them, into an output of
// CAP words.
ghost use Rattle.std.specs.Prelude.{[], ◌+◌, ◌≤◌, length};
ghost use Rattle.receiver_meaning.specs.Piece.{piece_of};
ghost use Rattle.receiver.specs.Doors.{hearing};
ghost use Rattle.answers.specs.Answer.{answer_room};
ghost use Rattle.requests.specs.Named.{named};
ghost use Rattle.desk.specs.Desk.{heard_room, ran_gives, Does, Acts};

use crate::verbs::ran;
use crate::{Desk, Done};
use requests::Request;

fn heard(desk: Desk, piece: &[i32], out: &mut [u32], page: &mut [u8], at: usize) -> Done
    requires { at + heard_room (length out.old) ≤ length page.old }
    ensures { Does (ran_gives desk (hearing desk.receiver (piece_of piece.now) (length out.old)))
        (heard_room (length out.old)) page.old at result page.new }
{
    let heard = receiver::hear(desk.receiver, piece, out);
    ran::answered(desk, heard, out, page, at)
}

pub fn hear(
    desk: Desk,
    cap: u32,
    count: usize,
    coordinates: &[i32],
    words: &mut [u32],
    page: &mut [u8],
    at: usize,
) -> Done
    requires { (cap ≤ length words.old) × (cap ≤ 4096) × (count ≤ length coordinates.now) × (at + answer_room ≤ length page.old) }
    ensures { Acts desk (Request.Piece cap count) (named coordinates.now [] []) page.old at result page.new }
{
    heard(
        desk,
        &coordinates[..count],
        &mut words[..cap as usize],
        page,
        at,
    )
}
