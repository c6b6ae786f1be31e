// A front end's floats as the receiver hears them.
//
// A front end hands over each 2D sample as a pair of f32. On the line a coordinate is a whole number from -8192 to
// 8192, and point coordinate c stands at 128 c. So a float v is heard as the whole number nearest to 128 v, a half
// going to the even neighbour, and it is refused if that number is out of range or v is no number at all.
// What is given back, in numbers, is in specs/Given.antt; what is heard, read from the bits, in specs/Heard.antt. A front end that loses
// samples says which are missing: specs/Sampled.antt.
#![tactic(auto)]

ghost use Rattle.std.specs.Prelude.{◌≡◌};
ghost use Rattle.samples.specs.Given.{place_of, coordinate_given, sample_given};
ghost use Rattle.samples.specs.Heard.{heard_coordinate, heard_sample};
ghost use Rattle.samples.specs.Sampled.{marked_given, heard_sampled};

// What is heard of one float: a whole number from -8192 to 8192, or None where it is refused.
//
// The product by 128 moves the exponent and rounds nothing. From 2^23 to 2^24 the floats are the whole numbers, and
// 12582912 stands halfway and is even: the sum rounds once, to the nearest whole number and at a half to the even one,
// for either sign, and the difference takes the constant off exactly. What is too large for that stretch is rounded
// more coarsely or overflows, but never comes back into the range. A NaN passes neither comparison.
pub fn hear_coordinate(v: f32) -> Option<i32>
    ensures { coordinate_given result ≡ heard_coordinate v }
{
    let scaled = v * 128.0;
    let near = scaled + 12582912.0;
    let whole = near - 12582912.0;
    if -8192.0 <= whole && whole <= 8192.0 {
        Some(whole as i32)
    } else {
        None
    }
}

// A 2D sample as a front end gives it.
#[derive(Clone, Copy)]
pub struct Sample {
    pub x: f32,
    pub y: f32,
}

// What is heard of a sample: both coordinates.
#[derive(Clone, Copy)]
pub struct Heard {
    pub x: i32,
    pub y: i32,
}

// Which coordinate of a sample is the first at fault.
#[derive(Clone, Copy)]
pub enum Fault {
    X,
    Y,
}

impl Fault {
    // Its place in the pair.
    pub fn place(self) -> u8
        ensures { result ≡ place_of self }
    {
        match self {
            Fault::X => 0,
            Fault::Y => 1,
        }
    }
}

// x is tried first, so a fault of y is told only where x was heard.
pub fn hear_sample(s: Sample) -> Result<Heard, Fault>
    ensures { sample_given result ≡ heard_sample s.x s.y }
{
    let x = hear_coordinate(s.x).ok_or(Fault::X)?;
    let y = hear_coordinate(s.y).ok_or(Fault::Y)?;
    Ok(Heard { x, y })
}

// A sample as a front end gives it that may lose some: heard, with its two floats, or missing. No Option of a sample: the demands ask for an
// enum with a case of two floats and an empty one, and the theorems on lost samples speak of these two cases.
#[derive(Clone, Copy)]
pub enum Sampled {
    Heard(f32, f32),
    Missing,
}

// What is heard of it: what is heard of its floats, or None where it is missing.
pub fn hear_sampled(s: Sampled) -> Result<Option<Heard>, Fault>
    ensures { marked_given result ≡ heard_sampled s }
{
    match s {
        Sampled::Heard(x, y) => Ok(Some(hear_sample(Sample { x, y })?)),
        Sampled::Missing => Ok(None),
    }
}
