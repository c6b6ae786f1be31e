// What two captures tell at the places where they stand: a record each, an end, too few bytes or a malformed place. The lines of a comparison are
// said here, Wish 12 of 02, and nothing is read: `compare` brings the fronts of the bytes here.
#![tactic(auto)]

ghost use Rattle.std.specs.Prelude.{◌≡◌};
ghost use Rattle.compare_events.specs.Events.{judge as Events·judge};

use record_front::Sign;

// A line of the comparison, with its number.
#[derive(Clone, Copy)]
pub enum Line {
    Differs(u64),
    OnlyFirst(u64),
    OnlySecond(u64),
    Differences(u64),
    FirstMalformed(u64),
    SecondMalformed(u64),
}

// What two lumps told: two records that are the same; a line; the last line; nothing before more bytes come; that one is malformed.
#[derive(Clone, Copy)]
pub enum Event {
    Same,
    Said(Line),
    Last(Line),
    Wait,
    Broken,
}

// What two fronts tell of the records of this number.
pub fn judge(a: Sign, b: Sign, same: bool, number: u64, lines: u64) -> Event
    ensures { result ≡ Events·judge a b same number lines }
{
    match (a, b) {
        (Sign::Bad, _) | (_, Sign::Bad) => Event::Broken,
        (Sign::More, _) | (_, Sign::More) => Event::Wait,
        (Sign::Record, Sign::Record) if same => Event::Same,
        (Sign::Record, Sign::Record) => Event::Said(Line::Differs(number)),
        (Sign::Record, Sign::Gone) => Event::Said(Line::OnlyFirst(number)),
        (Sign::Gone, Sign::Record) => Event::Said(Line::OnlySecond(number)),
        (Sign::Gone, Sign::Gone) => Event::Last(Line::Differences(lines)),
    }
}
