// Where the parts of a replay stand in the words that a caller lends, which numbers fit their places, and how words of 32 bits are copied
// into words of 64 and back. A changed record moves the table here, and specs/Table beside it.
ghost use Rattle.std.specs.Prelude.{◌≡◌, ◌++◌, ◌≤◌, length, drop};
ghost use Rattle.c_replay_state.specs.Table.{within, Small};

// Word 0 says what the state is: the letters "demf", "rp", and the number of the layout. A replay that has ended has 0 there.
pub const REPLAY: u64 = 0x6465_6d66_7270_0004;

// The words: the tag, the numbers, the receiver's sums, two to a word, registers and picks, and the words that are due.
pub const TAG: usize = 0;

pub const NUMBERS: usize = 1;

pub const SUMS: usize = 29;

pub const REGISTERS: usize = 37;

pub const PICKS: usize = 85;

pub const DUE: usize = 157;

pub const WORDS: usize = 222;

// The numbers, those first that must not pass a limit: of the frame, of the receiver, of the verdict.
pub const STAGE: usize = 0;

pub const PHASE: usize = 1;

pub const KIND: usize = 2;

// The nine bytes of the body stand from here on.
pub const BODY: usize = 3;

pub const LIVE: usize = 12;

// Map and width, as one number.
pub const ACCORD: usize = 13;

pub const TURN: usize = 14;

pub const VERDICT: usize = 15;

pub const GOT: usize = 16;

pub const WANTED: usize = 17;

pub const HAVE: usize = 18;

pub const AT: usize = 19;

pub const FED: usize = 20;

pub const WINDOW: usize = 21;

pub const SLOT: usize = 22;

pub const PENDING: usize = 23;

pub const GIVEN: usize = 24;

pub const SHOWN: usize = 25;

pub const RECORDS: usize = 26;

pub const COUNT: usize = 27;

// The most that each of the first numbers may be.
pub const LIMITS: [u64; 18] = [
    3, 3, 255, 255, 255, 255, 255, 255, 255, 255, 255, 255, 1, 8589934591, 4294967295, 5,
    4294967295, 4294967295,
];

// Whether each word is at most its limit.
pub fn fits(words: &[u64], limits: &[u64]) -> bool
    requires { length limits.now ≤ length words.now }
    ensures { result ≡ within limits.now words.now }
{
    words.iter().zip(limits).all(|(w, most)| *w <= *most)
}

// Copies all of `from` to the front of `to`. No generic copy for this and `widen`: one requires what the other ensures.
pub fn narrow(from: &[u64], to: &mut [u32])
    requires { Small from.now × (length from.now ≤ length to.old) }
    ensures { to.new ≡ from.now ++ drop (length from.now) to.old }
{
    for (i, w) in from.iter().enumerate() {
        to[i] = *w as u32;
    }
}

// Copies all of `from` to the front of `to`.
pub fn widen(from: &[u32], to: &mut [u64])
    requires { length from.now ≤ length to.old }
    ensures { (to.new ≡ from.now ++ drop (length from.now) to.old) × Small from.now }
{
    for (i, w) in from.iter().enumerate() {
        to[i] = u64::from(*w);
    }
}
