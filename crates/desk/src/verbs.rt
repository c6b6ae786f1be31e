// The verbs, a file each: what a request of the verb does to the desk, and its answer into the page. Each promises `Acts` of its
// own request and leans on no other verb.
pub mod card_verb;
pub mod finish;
pub mod list;
pub mod marked;
pub mod open_receiver;
pub mod open_sender;
pub mod pending;
pub mod piece;
pub mod ran;
pub mod sample;
pub mod send;
pub mod unread;
