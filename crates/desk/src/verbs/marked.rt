// `marked CAP MARKS C C C C ..`: the receiver hears the coordinates with a mark for each symbol, both at the start of the lists lent for
// them, into an output of CAP words. Marks that are not one for each symbol are the receiver's to refuse.
ghost use Rattle.std.specs.Prelude.{[], ◌+◌, ◌≤◌, length};
ghost use Rattle.receiver_meaning.specs.Piece.{marked_piece};
ghost use Rattle.receiver.specs.Doors.{hearing};
ghost use Rattle.answers.specs.Answer.{answer_room};
ghost use Rattle.requests.specs.Named.{named};
ghost use Rattle.desk.specs.Desk.{heard_room, ran_gives, Does, Acts};

use crate::verbs::ran;
use crate::{Desk, Done};
use requests::Request;

fn heard(
    desk: Desk,
    piece: &[i32],
    marks: &[u8],
    out: &mut [u32],
    page: &mut [u8],
    at: usize,
) -> Done
    requires { at + heard_room (length out.old) ≤ length page.old }
    ensures { Does (ran_gives desk (hearing desk.receiver (marked_piece marks.now piece.now) (length out.old)))
        (heard_room (length out.old)) page.old at result page.new }
{
    let heard = receiver::hear_marked(desk.receiver, piece, marks, out);
    ran::answered(desk, heard, out, page, at)
}

pub fn hear(
    desk: Desk,
    cap: u32,
    row: usize,
    count: usize,
    coordinates: &[i32],
    marks: &[u8],
    words: &mut [u32],
    page: &mut [u8],
    at: usize,
) -> Done
    requires { (cap ≤ length words.old) × (cap ≤ 4096) × (row ≤ length marks.now) × (count ≤ length coordinates.now) × (at + answer_room ≤ length page.old) }
    ensures { Acts desk (Request.Marked cap row count) (named coordinates.now [] marks.now) page.old at result page.new }
{
    heard(
        desk,
        &coordinates[..count],
        &marks[..row],
        &mut words[..cap as usize],
        page,
        at,
    )
}
