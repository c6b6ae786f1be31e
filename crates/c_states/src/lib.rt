// The ends' states in the words that a caller lends: which record they hold, and how a record goes into them. Where each part stands is
// said in `c_layout`. Words that are too short, have another tag, or a number that does not fit its field, hold no end and are read as a
// closed one: a state of an older layout too.
//
// The front of a receiver's state is all but its picks, which stand last and are half of it. It is what a call copies out of the words and
// back into them; where the picks need not stay in their place, they are copied too.
#![tactic(auto)]

ghost use Rattle.std.specs.Prelude.{◌≡◌, true, ◌&&◌, ◌≤◌, length, slice_index};
ghost use Rattle.c_layout.specs.Layout.{sender_tag, sender_length, receiver_tag, receiver_length, picks_at};
ghost use Rattle.c_layout.specs.Tagged.{is_half, holds};
ghost use Rattle.c_states.specs.Front.{core_in, copied_in, CoreStored, FrontStored};
ghost use Rattle.c_states.specs.State.{sender_in, SenderStored, receiver_in, ReceiverStored};

use machine::{Core, Receiver};
use sender::Sender;

// Whether the words can hold a receiver.
pub fn holds_receiver(words: &[u64]) -> bool
    ensures { result ≡ holds receiver_length receiver_tag words.now }
{
    c_layout::holds_record(words, c_layout::RECEIVER_WORDS, c_layout::RECEIVER)
}

// What is copied of a receiver.
#[derive(Clone, Copy)]
pub struct Copied {
    pub core: Core,
    pub sums: [u32; 16],
    pub registers: [u64; 48],
}

// The five numbers of a receiver.
#[tactic(auto, using(crate::proofs::Holding::receiver_long, crate::proofs::Holding::receiver_turn))]
fn core_in(words: &[u64]) -> Core
    requires { holds receiver_length receiver_tag words.now ≡ true }
    ensures { result ≡ core_in words.now }
{
    Core {
        accord: c_layout::accord_in(words[c_layout::ACCORD]),
        window: words[c_layout::WINDOW] as usize,
        turn: words[c_layout::TURN] as u32,
        slot: words[c_layout::SLOT] as usize,
        pending: words[c_layout::PENDING] as usize,
    }
}

// All but the picks of the receiver that the words hold.
#[tactic(auto, using(crate::proofs::Holding::receiver_long))]
pub fn load_front(words: &[u64]) -> Copied
    requires { holds receiver_length receiver_tag words.now ≡ true }
    ensures { result ≡ copied_in words.now }
{
    let mut halves = [0; 8];
    let mut registers = [0; 48];
    halves.copy_from_slice(&words[c_layout::SUMS..c_layout::REGISTERS]);
    registers.copy_from_slice(&words[c_layout::REGISTERS..c_layout::PICKS]);
    Copied {
        core: core_in(words),
        sums: c_layout::unpack(halves),
        registers,
    }
}

fn store_core(live: bool, c: Core, words: &mut [u64])
    requires { 6 ≤ length words.old }
    ensures { CoreStored live c words.old words.new }
{
    words[c_layout::TAG] = c_layout::tag_of(live, c_layout::RECEIVER);
    words[c_layout::ACCORD] = c_layout::accord_word(c.accord);
    words[c_layout::TURN] = u64::from(c.turn);
    words[c_layout::WINDOW] = c.window as u64;
    words[c_layout::SLOT] = c.slot as u64;
    words[c_layout::PENDING] = c.pending as u64;
}

// Puts all but its picks of a receiver into its words.
pub fn store_front(live: bool, front: Copied, words: &mut [u64])
    requires { picks_at ≤ length words.old }
    ensures { FrontStored live front.core front.sums front.registers words.old words.new }
{
    store_core(live, front.core, words);
    words[c_layout::SUMS..c_layout::REGISTERS].copy_from_slice(&c_layout::pack(front.sums));
    words[c_layout::REGISTERS..c_layout::PICKS].copy_from_slice(&front.registers);
}

// Whether the words can hold a sender.
#[tactic(auto, using(crate::proofs::Holding::sender_words))]
fn holds_sender(words: &[u64]) -> bool
    ensures { result ≡ (holds sender_length sender_tag words.now && is_half (slice_index words.now 3)) }
{
    c_layout::holds_record(words, c_layout::SENDER_WORDS, c_layout::SENDER)
        && c_layout::is_half(words[c_layout::SENDER_STATE])
}

// The sender that the words hold.
#[tactic(auto, using(crate::proofs::Holding::sender_long, crate::proofs::Holding::sender_turn, crate::proofs::Holding::sender_state), unfolding(crate::specs::State::sender_in))]
pub fn load_sender(words: &[u64]) -> Sender
    ensures { result ≡ sender_in words.now }
{
    if !holds_sender(words) {
        return sender::closed_sender();
    }
    Sender {
        live: true,
        accord: c_layout::accord_in(words[c_layout::ACCORD]),
        turn: words[c_layout::SENDER_TURN] as u32,
        state: words[c_layout::SENDER_STATE] as u32,
    }
}

// Puts a sender into its words.
pub fn store_sender(s: Sender, words: &mut [u64])
    requires { sender_length ≤ length words.old }
    ensures { SenderStored s words.old words.new }
{
    words[c_layout::TAG] = c_layout::tag_of(s.live, c_layout::SENDER);
    words[c_layout::ACCORD] = c_layout::accord_word(s.accord);
    words[c_layout::SENDER_TURN] = u64::from(s.turn);
    words[c_layout::SENDER_STATE] = u64::from(s.state);
}

// The receiver that the words hold.
#[tactic(auto, using(crate::proofs::Holding::receiver_long), unfolding(crate::specs::State::receiver_in))]
pub fn load_receiver(words: &[u64]) -> Receiver
    ensures { result ≡ receiver_in words.now }
{
    if !holds_receiver(words) {
        return openings::closed_receiver();
    }
    let Copied {
        core,
        sums,
        registers,
    } = load_front(words);
    let mut picks = [0; 72];
    picks.copy_from_slice(&words[c_layout::PICKS..c_layout::RECEIVER_WORDS]);
    Receiver {
        live: true,
        core,
        sums,
        registers,
        picks,
    }
}

// Puts a receiver into its words.
pub fn store_receiver(rx: Receiver, words: &mut [u64])
    requires { receiver_length ≤ length words.old }
    ensures { ReceiverStored rx words.old words.new }
{
    words[c_layout::PICKS..c_layout::RECEIVER_WORDS].copy_from_slice(&rx.picks);
    let front = Copied {
        core: rx.core,
        sums: rx.sums,
        registers: rx.registers,
    };
    store_front(rx.live, front, words);
}
