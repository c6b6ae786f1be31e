// Floats converted for C: a sample, or a list of them, some perhaps missing, as whole numbers in an output that the caller lends.
//
// What is heard of a float is the crate samples; here it is put into lent memory, and a number says how it went. Here too stands `tell`,
// the three places in which a call of the library says how far it came.
#![tactic(auto)]

ghost use Rattle.std.specs.Prelude.{◌≡◌, [], ◌+◌, ◌≤◌, ◌<◌, length};
ghost use Rattle.samples.specs.Sampled.{heard_sampled};
ghost use Rattle.c_samples.specs.Counts.{told_of};
ghost use Rattle.c_samples.specs.Calls.{sample_call, samples_with, sample_in, converting, list_call, samples_call, marks_fit, marked_call};
ghost use Rattle.c_samples.specs.Promise.{given_of, Samples, stop_number, stop_place, ConvertsTo, Converts};

use samples::Sampled;

// The first three places of `told`.
#[tactic(auto, unfolding(crate::specs::Counts::told_of))]
pub fn tell(told: &mut [u64], taken: usize, written: usize, place: usize)
    requires { 3 ≤ length told.old }
    ensures { told.new ≡ told_of taken written place told.old }
{
    told[..3].copy_from_slice(&[taken as u64, written as u64, place as u64]);
}

// What was heard of a sample: both coordinates, which are 0 of a missing one, or the place at fault.
fn hear(s: Sampled) -> Result<(i32, i32), u8>
    ensures { given_of result ≡ (heard_sampled s).given }
{
    match samples::hear_sampled(s) {
        Ok(Some(heard)) => Ok((heard.x, heard.y)),
        Ok(None) => Ok((0, 0)),
        Err(fault) => Err(fault.place()),
    }
}

// One sample: 8 where the output has no three places.
#[tactic(auto, unfolding(crate::specs::Calls::sample_call))]
pub fn convert_sample(x: f32, y: f32, out: &mut [i32]) -> u32
    ensures { Samples (sample_call x y out.old) result out.new }
{
    if out.len() < 3 {
        return 8;
    }
    match hear(Sampled::Heard(x, y)) {
        Ok((x, y)) => {
            out[..3].copy_from_slice(&[x, y, 0]);
            0
        }
        Err(place) => {
            out[..3].copy_from_slice(&[0, 0, i32::from(place)]);
            5
        }
    }
}

// Why a list of samples stops early: a float is refused, at this place of the list, or the output has no room.
#[derive(Clone, Copy)]
enum Stop {
    Refused(usize),
    Full,
}

// The number of an outcome, and the place at fault, which is 0 where there is none.
fn number_and_place(outcome: Result<(), Stop>) -> (u32, usize)
    ensures { (result.0 ≡ stop_number outcome) × (result.1 ≡ stop_place outcome) }
{
    match outcome {
        Ok(()) => (0, 0),
        Err(Stop::Refused(place)) => (5, place),
        Err(Stop::Full) => (8, 0),
    }
}

// How a list of samples went: how many coordinates were written, and whether it stopped early. Both are told, so neither is around the other.
#[derive(Clone, Copy)]
struct Converted {
    written: usize,
    outcome: Result<(), Stop>,
}

// The sample that begins at the place i. The floats of a missing one are not looked at; a sample that has no mark is heard.
fn sample_at(floats: &[f32], missing: &[u8], i: usize) -> Sampled
    requires { i + 1 < length floats.now }
    ensures { result ≡ sample_in missing.now floats.now i }
{
    if missing.get(i / 2) == Some(&1) {
        return Sampled::Missing;
    }
    Sampled::Heard(floats[i], floats[i + 1])
}

// Sample by sample, up to the first that is refused or has no room.
fn convert(floats: &[f32], missing: &[u8], out: &mut [i32]) -> Converted
    ensures { ConvertsTo (converting (samples_with missing.now floats.now) [] (length out.old)) out.old
        (stop_number result.outcome) result.written (stop_place result.outcome) out.new }
{
    let count = floats.len() / 2;
    for j in 0..count {
        let i = 2 * j;
        let (x, y) = match hear(sample_at(floats, missing, i)) {
            Ok(heard) => heard,
            Err(place) => {
                return Converted {
                    written: i,
                    outcome: Err(Stop::Refused(i + usize::from(place))),
                };
            }
        };
        if out.len() < i + 2 {
            return Converted {
                written: i,
                outcome: Err(Stop::Full),
            };
        }
        // Each by itself: a pair that is copied as a slice is written and read back first, which takes about twice as long.
        out[i] = x;
        out[i + 1] = y;
    }
    Converted {
        written: 2 * count,
        outcome: Ok(()),
    }
}

// A list of samples, refused as a whole where it does not fit.
#[tactic(auto, unfolding(crate::specs::Calls::list_call))]
fn convert_fitting(
    fits: bool,
    floats: &[f32],
    missing: &[u8],
    out: &mut [i32],
    told: &mut [u64],
) -> u32
    ensures { Converts (list_call fits (samples_with missing.now floats.now) out.old told.old)
        result out.new told.new }
{
    if told.len() < 3 {
        return 8;
    }
    if !fits {
        tell(told, 0, 0, 0);
        return 10;
    }
    let Converted { written, outcome } = convert(floats, missing, out);
    let (number, place) = number_and_place(outcome);
    tell(told, written, written, place);
    number
}

// Refused as a whole where the length is odd.
#[tactic(auto, unfolding(crate::specs::Calls::samples_call))]
pub fn convert_list(floats: &[f32], out: &mut [i32], told: &mut [u64]) -> u32
    ensures { Converts (samples_call floats.now out.old told.old) result out.new told.new }
{
    convert_fitting(floats.len() % 2 == 0, floats, &[], out, told)
}

// Whether the marks fit so many floats: one for each sample, 0 or 1.
fn marks_fit(missing: &[u8], count: usize) -> bool
    ensures { result ≡ marks_fit missing.now count }
{
    count % 2 == 0 && count / 2 == missing.len() && lists::bytes_up_to(missing, 1)
}

// The same of samples of which some are missing: a mark for each, 0 heard, 1 missing. Refused as a whole where the marks do not fit.
#[tactic(auto, unfolding(crate::specs::Calls::marked_call))]
pub fn convert_marked(floats: &[f32], missing: &[u8], out: &mut [i32], told: &mut [u64]) -> u32
    ensures { Converts (marked_call floats.now missing.now out.old told.old) result out.new told.new }
{
    convert_fitting(marks_fit(missing, floats.len()), floats, missing, out, told)
}
