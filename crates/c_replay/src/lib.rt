// The replay for a collector that gets capture bytes in lumps: its state is in words that the caller lends, and a verdict is a line of
// text in a slice that the caller lends too.
//
// A call reads the state, feeds or ends the replay that it holds, and writes it back. A fault is said by the call whose bytes settle it, and
// by no later one: once it is found the state stays as it is, whatever comes.
#![tactic(auto)]

ghost use Rattle.std.specs.Prelude.{◌≡◌, ◌≤◌, ◌++◌, length, drop, set};
ghost use Rattle.replay_text.specs.Says.{line_of};
ghost use Rattle.c_replay.specs.Calls.{is_short, start_call, feed_call, end_call};
ghost use Rattle.c_replay.specs.Promise.{Starts, Feeds, Ends};
ghost use Rattle.c_replay.specs.Saying.{refusal_number, Room, Tells, Says, Heard};

use replay_judge::Verdict;

// Why a call is refused: the caller lent too little to say anything in, or the state holds no replay.
#[derive(Clone, Copy)]
enum Refusal {
    Short,
    NoReplay,
}

// The number of a refusal.
fn number_of(why: Refusal) -> u32
    ensures { result ≡ refusal_number why }
{
    match why {
        Refusal::Short => 8,
        Refusal::NoReplay => 9,
    }
}

#[tactic(auto, unfolding(crate::specs::Calls::is_short))]
fn is_short(line: usize, told: usize) -> bool
    ensures { result ≡ is_short line told }
{
    told < 1 || line < 64
}

// Nothing is said.
#[tactic(auto, using(crate::proofs::Empty::empty_set))]
fn quiet(told: &mut [u64], number: u32) -> u32
    ensures { (result ≡ number) × (told.new ≡ set told.old 0 0) }
{
    if let Some(first) = told.first_mut() {
        *first = 0;
    }
    number
}

// The line of a verdict, and its length.
fn say(v: Verdict, line: &mut [u8], told: &mut [u64]) -> u32
    requires { (64 ≤ length line.old) × (1 ≤ length told.old) }
    ensures { (result ≡ 0) × (line.new ≡ line_of v ++ drop (length (line_of v)) line.old) × (told.new ≡ set told.old 0 (length (line_of v))) }
{
    let l = replay_text::line_of(v);
    told[0] = page::put_text(line, 0, &l.text[..l.size]) as u64;
    0
}

// What was to be said goes into the line and `told`: a verdict, where there is one.
fn tell(said: Result<Option<Verdict>, Refusal>, line: &mut [u8], told: &mut [u64]) -> u32
    requires { Room said (length line.old) (length told.old) }
    ensures { Tells said line.old told.old result line.new told.new }
{
    match said {
        Ok(Some(v)) => say(v, line, told),
        Ok(None) => quiet(told, 0),
        Err(why) => quiet(told, number_of(why)),
    }
}

// A replay before any byte.
pub fn start(state: &mut [u64]) -> u32
    ensures { Starts (start_call state.old) result state.new }
{
    if state.len() < c_replay_state::table::WORDS {
        return 8;
    }
    c_replay_state::store(replay::start(), state);
    0
}

// The state after a lump, and what is to be said of it. `short`: the caller lent too little to say it in.
fn heard(state: &mut [u64], lump: &[u8], short: bool) -> Result<Option<Verdict>, Refusal>
    ensures { Heard state.old lump.now short result state.new }
{
    if short {
        return Err(Refusal::Short);
    }
    if !c_replay_state::holds_replay(state) {
        return Err(Refusal::NoReplay);
    }
    let r = c_replay_state::load(state);
    if replay::found(r.frame, r.judge) {
        return Ok(None);
    }
    let fed = replay::feed(r, lump);
    c_replay_state::store(fed, state);
    if !replay::found(fed.frame, fed.judge) {
        return Ok(None);
    }
    Ok(Some(replay::end(fed)))
}

// A lump of bytes, which may be empty.
pub fn feed(state: &mut [u64], lump: &[u8], line: &mut [u8], told: &mut [u64]) -> u32
    ensures { Feeds state.old lump.now (feed_call state.old lump.now line.old told.old) result
        state.new line.new told.new }
{
    let short = is_short(line.len(), told.len());
    tell(heard(state, lump, short), line, told)
}

// The state after the end of input, which holds no replay, and what is to be said of it.
fn closed(state: &mut [u64], short: bool) -> Result<Option<Verdict>, Refusal>
    ensures { Says (end_call state.old) short result state.new }
{
    if short {
        return Err(Refusal::Short);
    }
    if !c_replay_state::holds_replay(state) {
        return Err(Refusal::NoReplay);
    }
    let r = c_replay_state::load(state);
    state[c_replay_state::table::TAG] = 0;
    if replay::found(r.frame, r.judge) {
        return Ok(None);
    }
    Ok(Some(replay::end(r)))
}

// The end of input.
pub fn end(state: &mut [u64], line: &mut [u8], told: &mut [u64]) -> u32
    ensures { Ends (end_call state.old line.old told.old) result state.new line.new told.new }
{
    let short = is_short(line.len(), told.len());
    tell(closed(state, short), line, told)
}
