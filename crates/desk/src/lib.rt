// The desk: one sender and one receiver, and what each request does to them, into a lent page. The desk after a request and its
// answer are those of specs/Desk.antt. Each verb is a file of src/verbs/; here stand the ends, and which verb a request is for.
#![tactic(auto)]

ghost use Rattle.std.specs.Prelude.{◌≡◌};
ghost use Rattle.requests.specs.Named.{named};
ghost use Rattle.desk.specs.Desk.{closed_desk, Acts};
ghost use Rattle.desk.specs.Room.{Ready};

use machine::Receiver;
use requests::Request;
use sender::Sender;

mod ends;
mod verbs;

#[derive(Clone, Copy)]
pub struct Desk {
    pub sender: Sender,
    pub receiver: Receiver,
}

// The desk after a request, and the free place of the page after its answer.
#[derive(Clone, Copy)]
pub struct Done {
    pub desk: Desk,
    pub at: usize,
}

pub fn closed() -> Desk
    ensures { result ≡ closed_desk }
{
    Desk {
        sender: sender::closed_sender(),
        receiver: openings::closed_receiver(),
    }
}

// A new verb is one arm more, after the last.
pub fn act(
    desk: Desk,
    asked: Request,
    page: &mut [u8],
    at: usize,
    coordinates: &mut [i32],
    words: &mut [u32],
    marks: &[u8],
) -> Done
    requires { Ready asked page.old at (named coordinates.old words.old marks.now) }
    ensures { Acts desk asked (named coordinates.old words.old marks.now) page.old at result page.new }
{
    match asked {
        Request::Nothing => Done { desk, at },
        Request::Unread => verbs::unread::unread(desk, page, at),
        Request::Sender { accord } => verbs::open_sender::open_sender(desk, accord, page, at),
        Request::Send { word, cap } => verbs::send::send(desk, word, cap, coordinates, page, at),
        Request::Plain { accord } => verbs::open_receiver::open_plain(desk, accord, page, at),
        Request::Free { accord, window } => {
            verbs::open_receiver::open_free(desk, accord, window, page, at)
        }
        Request::At {
            accord,
            window,
            state,
        } => verbs::open_receiver::open_at(desk, accord, window, state, page, at),
        Request::Piece { cap, count } => {
            verbs::piece::hear(desk, cap, count, coordinates, words, page, at)
        }
        Request::Finish { cap } => verbs::finish::finish(desk, cap, words, page, at),
        Request::Sample { x, y } => verbs::sample::sample(desk, x, y, page, at),
        Request::Pending => verbs::pending::pending(desk, page, at),
        Request::List { cap, count } => {
            verbs::list::list(desk, cap, count, words, coordinates, page, at)
        }
        Request::Missing => verbs::sample::missing(desk, page, at),
        Request::Marked {
            cap,
            marks: row,
            count,
        } => verbs::marked::hear(desk, cap, row, count, coordinates, marks, words, page, at),
        Request::Card { accepted } => verbs::card_verb::card(desk, accepted, page, at),
    }
}
