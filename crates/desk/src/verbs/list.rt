// `list CAP W W ..`: the words, which are at the start of the list lent for them, are sent into an output of CAP places, which are those
// at the start of the list lent for coordinates.
ghost use Rattle.std.specs.Prelude.{[], ◌+◌, ◌≤◌, length};
ghost use Rattle.sender.specs.SendList.{sending_list};
ghost use Rattle.phrases.specs.Phrase.{wholes_room};
ghost use Rattle.answers.specs.Answer.{answer_room};
ghost use Rattle.requests.specs.Named.{named};
ghost use Rattle.desk.specs.Desk.{lent, list_gives, Does, Acts};

use crate::{Desk, Done, ends};
use requests::Request;

fn sent(desk: Desk, words: &[u32], out: &mut [i32], page: &mut [u8], at: usize) -> Done
    requires { at + 44 + wholes_room (length out.old) ≤ length page.old }
    ensures { Does (list_gives desk (sending_list desk.sender words.now (lent (length out.old))))
        (44 + wholes_room (length out.old)) page.old at result page.new }
{
    let sent = sender::send_list(desk.sender, words, out);
    let p = answers::list(
        page,
        at,
        sent.sent,
        sender::number(sent.why),
        &out[..4 * sent.sent],
    );
    ends::with_sender(desk, sent.sender, p)
}

pub fn list(
    desk: Desk,
    cap: u32,
    count: usize,
    words: &[u32],
    coordinates: &mut [i32],
    page: &mut [u8],
    at: usize,
) -> Done
    requires { (cap ≤ length coordinates.old) × (cap ≤ 4096) × (count ≤ length words.now) × (at + answer_room ≤ length page.old) }
    ensures { Acts desk (Request.List cap count) (named [] words.now []) page.old at result page.new }
{
    sent(
        desk,
        &words[..count],
        &mut coordinates[..cap as usize],
        page,
        at,
    )
}
