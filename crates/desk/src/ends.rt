// The two ends on the desk: one of them changed, the other as it was.
ghost use Rattle.std.specs.Prelude.{◌≡◌};
ghost use Rattle.desk.specs.Desk.{with_sender, with_receiver};

use crate::{Desk, Done};
use machine::Receiver;
use sender::Sender;

pub fn with_sender(desk: Desk, sender: Sender, at: usize) -> Done
    ensures { result ≡ record { desk = with_sender desk sender; at = at } }
{
    Done {
        desk: Desk { sender, ..desk },
        at,
    }
}

pub fn with_receiver(desk: Desk, receiver: Receiver, at: usize) -> Done
    ensures { result ≡ record { desk = with_receiver desk receiver; at = at } }
{
    Done {
        desk: Desk { receiver, ..desk },
        at,
    }
}
