// `sample HEX HEX`: a pair of floats, given by their bits, in units of the line; `sample missing`: none. The desk stays as it is.
ghost use Rattle.std.specs.Prelude.{◌≡◌, ◌+◌, ◌≤◌, length};
ghost use Rattle.samples.specs.Heard.{heard_coordinate, heard_bits};
ghost use Rattle.samples.specs.Sampled.{heard_sampled};
ghost use Rattle.page.specs.Page.{Puts};
ghost use Rattle.answers.specs.Answer.{sampled_line, answer_room};
ghost use Rattle.requests.specs.Named.{none_named};
ghost use Rattle.desk.specs.Desk.{Acts};

use crate::{Desk, Done};
use requests::Request;
use samples::Sampled;

// The float with these bits. No float is made of the bits of a NaN; what is not a number is refused as what is infinite is, so
// infinity stands in for it.
fn float_of(bits: u32) -> f32
    ensures { heard_coordinate result ≡ heard_bits bits }
{
    if 0x7f800000 < bits % 0x80000000 {
        f32::from_bits(0x7f800000)
    } else {
        f32::from_bits(bits)
    }
}

// Two numbers, the place at fault, or that the sample is missing.
fn answer(s: Sampled, page: &mut [u8], at: usize) -> usize
    requires { at + 44 ≤ length page.old }
    ensures { Puts page.old at (sampled_line (heard_sampled s)) result page.new }
{
    match samples::hear_sampled(s) {
        Ok(Some(heard)) => answers::pair(page, at, heard.x, heard.y),
        Ok(None) => answers::missing(page, at),
        Err(fault) => answers::refused(page, at, fault.place()),
    }
}

pub fn sample(desk: Desk, x: u32, y: u32, page: &mut [u8], at: usize) -> Done
    requires { at + answer_room ≤ length page.old }
    ensures { Acts desk (Request.Sample x y) none_named page.old at result page.new }
{
    let s = Sampled::Heard(float_of(x), float_of(y));
    Done {
        desk,
        at: answer(s, page, at),
    }
}

pub fn missing(desk: Desk, page: &mut [u8], at: usize) -> Done
    requires { at + answer_room ≤ length page.old }
    ensures { Acts desk Request.Missing none_named page.old at result page.new }
{
    Done {
        desk,
        at: answer(Sampled::Missing, page, at),
    }
}
