// The judge of a replay: what has been found so far, and what the receiver's answer to a record and a recorded word make of it. How a record
// is brought to the receiver is `replay::record`.
//
// A judge holds the receiver's numbers, how many words its last symbol or finish gave, how many of these have been shown, how many records
// there were, and the verdict, which is that they agree as long as no fault is found. The receiver's lists and the words that are due stand
// beside it.
#![tactic(auto)]

ghost use Rattle.std.specs.Prelude.{◌≡◌};
ghost use Rattle.replay_judge.specs.Judging.{left, first_due, ruled, answered_by, took_word};

use machine::Core;
use reasons::Why;

// What is printed: `agree N`, `record N word G expected H`, `record N word G expected none`, `record N missing word H`,
// `record N refused R`, `offset P malformed`. R is the number that the line has, as `verdict_of` (replay/specs/Meaning) gives it.
// The numbers of a variant are those of its line, in that order, so names would only say the line again.
#[derive(Clone, Copy)]
pub enum Verdict {
    Agree(u64),
    Differs(u64, u32, u32),
    Extra(u64, u32),
    Missing(u64, u32),
    Refused(u64, u32),
    Malformed(u64),
}

// The receiver's flag and numbers, and what has been found. `live` is the receiver's own.
#[derive(Clone, Copy)]
pub struct Judge {
    pub live: bool,
    pub core: Core,
    pub given: usize,
    pub shown: usize,
    pub records: u64,
    pub verdict: Verdict,
}

// The next word that should stand in the capture.
pub fn next_due(j: Judge, due: &[u32]) -> Option<u32>
    ensures { result ≡ first_due (left j.shown j.given due.now) }
{
    if j.shown < j.given {
        due.get(j.shown).copied()
    } else {
        None
    }
}

// The same judge with a verdict.
pub fn rule(j: Judge, verdict: Verdict) -> Judge
    ensures { result ≡ ruled j verdict }
{
    Judge { verdict, ..j }
}

// What the receiver answered to an open, a symbol or a finish. A record that it took leaves it with these numbers, and `given` words are due.
pub fn answer(j: Judge, why: Result<(), Why>, live: bool, core: Core, given: usize) -> Judge
    ensures { result ≡ answered_by j why live core given }
{
    if why.is_err() {
        return rule(j, Verdict::Refused(j.records, reasons::number(why)));
    }
    Judge {
        live,
        core,
        given,
        shown: 0,
        records: records::counted(j.records),
        ..j
    }
}

// A recorded word, where `words` words have agreed before it.
#[tactic(auto, unfolding(crate::specs::Judging::first_due, crate::specs::Judging::took_word))]
pub fn take_word(j: Judge, words: u64, g: u32, due: &[u32]) -> Judge
    ensures { result ≡ took_word j words g (left j.shown j.given due.now) }
{
    let Some(h) = next_due(j, due) else {
        return rule(j, Verdict::Extra(j.records, g));
    };
    if g != h {
        return rule(j, Verdict::Differs(j.records, g, h));
    }
    Judge {
        shown: j.shown + 1,
        records: records::counted(j.records),
        verdict: Verdict::Agree(records::counted(words)),
        ..j
    }
}
