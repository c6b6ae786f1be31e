// The sender: turns data words into pairs of points, one word to a symbol.
//
// `open_sender` names what both ends agree on and gives a sender in state 0 with the turn 0. `send` takes the sender by value, writes the
// four coordinates of the word's two points to the first four places of the lent output, and gives the sender back. `send_list` does
// so for a list of words, each straight after the one before, and says how many it sent. A word that is refused leaves the sender
// and the output as they stood. A closed sender, and any record that is out of range, is answered 9.
#![tactic(auto)]

ghost use Rattle.std.specs.Prelude.{◌≡◌, true, Err};
ghost use Rattle.points.specs.Points.{coordinates};
ghost use Rattle.sender.specs.Send.{number_of, sound, shut};
ghost use Rattle.sender.specs.Promise.{Opens, Sends, SendsList};
ghost use Rattle.sender.specs.Loop.{sender_at, list_by};

use points::{Accord, Map};

// A sender. A closed one is a record like any other (`shut`), so `live` is a flag and no Option around the rest.
#[derive(Clone, Copy)]
pub struct Sender {
    pub live: bool,
    pub accord: Accord,
    pub turn: u32,
    pub state: u32,
}

// What a call was refused for. No call of a sender gives another number than these and 0, so this enum is not the receiving end's: the
// number alone says how a call went (proofs/Settled). A call gives `why` as a `Result<(), Why>`, beside the sender and not around it: a
// refused call too gives the sender back.
#[derive(Clone, Copy, PartialEq, Eq)]
pub enum Why {
    BadWidth,
    BadWord,
    NoRoom,
    Closed,
}

#[derive(Clone, Copy)]
pub struct Sent {
    pub sender: Sender,
    pub why: Result<(), Why>,
}

// How a list went: the sender after it, how many words were sent, and why it stopped.
#[derive(Clone, Copy)]
pub struct SentList {
    pub sender: Sender,
    pub sent: usize,
    pub why: Result<(), Why>,
}

// The number of a reason; 0 where nothing was refused.
pub fn number(why: Result<(), Why>) -> u32
    ensures { result ≡ number_of why }
{
    match why {
        Ok(()) => 0,
        Err(Why::BadWidth) => 1,
        Err(Why::BadWord) => 4,
        Err(Why::NoRoom) => 8,
        Err(Why::Closed) => 9,
    }
}

// A closed sender.
pub fn closed_sender() -> Sender
    ensures { result ≡ shut }
{
    Sender {
        live: false,
        accord: Accord {
            map: Map::Round,
            u: 0,
        },
        turn: 0,
        state: 0,
    }
}

// An open sender.
fn sender_at(accord: Accord, turn: u32, state: u32) -> Sender
    ensures { result ≡ sender_at accord turn state }
{
    Sender {
        live: true,
        accord,
        turn,
        state,
    }
}

// A refusal gives back the sender that it is given.
fn refuse(s: Sender, why: Why) -> Sent
    ensures { result ≡ record { sender = s; why = Err why } }
{
    Sent {
        sender: s,
        why: Err(why),
    }
}

pub fn open_sender(accord: Accord) -> Sent
    ensures { Opens accord result }
{
    if !points::is_accord(accord) {
        return refuse(closed_sender(), Why::BadWidth);
    }
    Sent {
        sender: sender_at(accord, 0, 0),
        why: Ok(()),
    }
}

// Whether the sender is open and in range.
pub fn is_open(s: Sender) -> bool
    ensures { result ≡ sound s }
{
    s.live && points::is_accord(s.accord) && s.turn < 4 && s.state < 16
}

// One word of an open sender. Refused, in this order: a bit at or above 3 + 2u, an output shorter than four places.
fn send_word(table: &[i8; 512], s: Sender, word: u32, out: &mut [i32]) -> Sent
    requires { (table.now ≡ coordinates) × (sound s ≡ true) }
    ensures { Sends s word out.old result out.new }
{
    if !wei::word::is_word(s.accord.u, word) {
        return refuse(s, Why::BadWord);
    }
    if out.len() < 4 {
        return refuse(s, Why::NoRoom);
    }
    let y = word_symbol::make(table, s.accord, s.state, s.turn, word);
    word_symbol::put(out, y.first, y.second);
    Sent {
        sender: sender_at(s.accord, y.turn, y.state),
        why: Ok(()),
    }
}

// How the words of a list went, and the turn and the state after them.
#[derive(Clone, Copy)]
struct Went {
    turn: u32,
    state: u32,
    sent: usize,
    why: Result<(), Why>,
}

// The words one after another, each into the rest of the output, up to the first that is refused. The table is made once. An open
// sender goes in and comes back as numbers: so they stay in the processor's registers, and both doors can share the loop.
fn send_words(accord: Accord, turn: u32, state: u32, words: &[u32], out: &mut [i32]) -> Went
    requires { sound (sender_at accord turn state) ≡ true }
    ensures { SendsList (sender_at accord turn state) words.now out.old (list_by accord result) out.new }
{
    let table = points::table::a_points();
    let mut sender = sender_at(accord, turn, state);
    for (sent, &word) in words.iter().enumerate() {
        let r = send_word(&table, sender, word, &mut out[4 * sent..]);
        sender = r.sender;
        if r.why.is_err() {
            return Went {
                turn: sender.turn,
                state: sender.state,
                sent,
                why: r.why,
            };
        }
    }
    Went {
        turn: sender.turn,
        state: sender.state,
        sent: words.len(),
        why: Ok(()),
    }
}

// A list of words. Refused as a whole where the sender is closed.
pub fn send_list(s: Sender, words: &[u32], out: &mut [i32]) -> SentList
    ensures { SendsList s words.now out.old result out.new }
{
    if !is_open(s) {
        return SentList {
            sender: s,
            sent: 0,
            why: Err(Why::Closed),
        };
    }
    let w = send_words(s.accord, s.turn, s.state, words, out);
    SentList {
        sender: sender_at(s.accord, w.turn, w.state),
        sent: w.sent,
        why: w.why,
    }
}

// One word is a list of one. Refused, in this order: a closed sender, a bit at or above 3 + 2u, an output shorter than four places.
pub fn send(s: Sender, word: u32, out: &mut [i32]) -> Sent
    ensures { Sends s word out.old result out.new }
{
    if !is_open(s) {
        return refuse(s, Why::Closed);
    }
    let w = send_words(s.accord, s.turn, s.state, &[word], out);
    Sent {
        sender: sender_at(s.accord, w.turn, w.state),
        why: w.why,
    }
}
