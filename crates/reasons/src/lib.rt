// Why a call of the receiving end stopped, and the number of 01's table for it. Whoever speaks of reasons, the machine as well as the
// doors above it and the programs, uses these and no numbers of its own.
#![tactic(auto)]

ghost use Rattle.std.specs.Prelude.{◌≡◌};
ghost use Rattle.reasons.specs.Reason.{given_of};

// What a call was refused for. A bad sample carries the place of the first coordinate at fault, 0 to 3. A call gives `why` as a
// `Result<(), Why>`. It stands beside what the call gives back, and not around it: a refused call too gives its state back and says
// how far it came.
#[derive(Clone, Copy, PartialEq, Eq)]
pub enum Why {
    BadWidth,
    BadWindow,
    BadStart,
    BadSample(u32),
    Full,
    NoRoom,
    Closed,
    Uneven,
}

// The number of a reason; 0 where nothing was refused.
pub fn number(why: Result<(), Why>) -> u32
    ensures { result ≡ (given_of why).number }
{
    match why {
        Ok(()) => 0,
        Err(Why::BadWidth) => 1,
        Err(Why::BadWindow) => 2,
        Err(Why::BadStart) => 3,
        Err(Why::BadSample(_)) => 5,
        Err(Why::Full) => 6,
        Err(Why::NoRoom) => 8,
        Err(Why::Closed) => 9,
        Err(Why::Uneven) => 10,
    }
}

// The place of the coordinate at fault; 0 for every other reason.
pub fn place(why: Result<(), Why>) -> u32
    ensures { result ≡ (given_of why).place }
{
    match why {
        Err(Why::BadSample(p)) => p,
        _ => 0,
    }
}
