// Jobs over words: the call on a carrier, and the line of its answer.
// `length` and `distance` have only their last line in common: a function over a closure, as `by_form`, would save one line of each.
// `heap` and `carrier` stay parameters: in a struct over them each clause would name the carrier by `self.new.carrier.now`. How the
// carrier is left is a fact of before and after, so each function says it.
ghost use Rattle.std.specs.Prelude.{◌++◌, map, reverse, codes};
ghost use Rattle.coxeter.specs.Moves.{Word};
ghost use Rattle.lines.specs.Letters.{letter_of};
ghost use Rattle.jobs.specs.WordJobs.{DescentsJob, FormJob, NumberJob};
ghost use Rattle.jobs.specs.Answering.{Answered, ByWord, Leaves};
ghost use Rattle.jobs.specs.Asking.{Asks, WritesForm};

use crate::errors::JobError;
use crate::letters::letters;
use answers;
use carriers::carrier::Carrier;
use std::alloc::Global;
use words::calls;
use words::faults::WordFault;

/// Answers `descents=WORD`.
#[tactic(auto, using(crate::proofs::CallAnswers::descents_refused))]
pub fn descents<C: Carrier>(heap: Global, carrier: &mut C, bytes: &[u8]) -> Result<String, JobError>
    ensures left { Leaves C.Carrier.frame C.Carrier.at carrier.old carrier.new result }
    ensures answered { Answered (ByWord (DescentsJob (C.Carrier.frame carrier.old) (map letter_of bytes.now))) result }
{
    let word = letters(heap, bytes)?;
    let set = calls::descents(carrier, word.as_slice())?;
    Ok(answers::descents(heap, set)?)
}

// Answers a job by the form that the call writes into a buffer of 4,096 bytes.
#[tactic(auto, using(crate::proofs::CallAnswers::form_refused))]
fn by_form<C: Carrier, F: FnOnce(&mut C, &mut [u8]) -> Result<usize, WordFault>>(
    heap: Global,
    key: &str,
    carrier: &mut C,
    call: F,
) -> Result<String, JobError>
    requires called { F.IsAlwaysCallable call }
    requires asks { Asks C.Carrier.frame C.Carrier.at (F.post call) }
    ensures left { Leaves C.Carrier.frame C.Carrier.at carrier.old carrier.new result }
    ensures answered { (w : Word) → WritesForm C.Carrier.frame (F.post call) w → Answered (ByWord (FormJob key.now (C.Carrier.frame carrier.old) w)) result }
{
    // The call writes at the front of a buffer and answers its length: that is the interface of form.
    let mut out = [0; 4096];
    let n = call(carrier, &mut out)?;
    Ok(answers::form(heap, key, &out[..n])?)
}

/// Answers `form=WORD`.
pub fn form<C: Carrier>(heap: Global, carrier: &mut C, bytes: &[u8]) -> Result<String, JobError>
    ensures left { Leaves C.Carrier.frame C.Carrier.at carrier.old carrier.new result }
    ensures answered { Answered (ByWord (FormJob (codes "form") (C.Carrier.frame carrier.old) (map letter_of bytes.now))) result }
{
    let word = letters(heap, bytes)?;
    by_form(heap, "form", carrier, |carrier, out| {
        calls::form(carrier, word.as_slice(), out)
    })
}

/// Answers `inverse=WORD`.
pub fn inverse<C: Carrier>(heap: Global, carrier: &mut C, bytes: &[u8]) -> Result<String, JobError>
    ensures left { Leaves C.Carrier.frame C.Carrier.at carrier.old carrier.new result }
    ensures answered { Answered (ByWord (FormJob (codes "inverse") (C.Carrier.frame carrier.old) (reverse (map letter_of bytes.now)))) result }
{
    let word = letters(heap, bytes)?;
    by_form(heap, "inverse", carrier, |carrier, out| {
        calls::inverse(carrier, word.as_slice(), out)
    })
}

/// Answers `product=U/V`.
pub fn product<C: Carrier>(
    heap: Global,
    carrier: &mut C,
    first: &[u8],
    second: &[u8],
) -> Result<String, JobError>
    ensures left { Leaves C.Carrier.frame C.Carrier.at carrier.old carrier.new result }
    ensures answered { Answered (ByWord (FormJob (codes "product") (C.Carrier.frame carrier.old) (map letter_of first.now ++ map letter_of second.now))) result }
{
    let u = letters(heap, first)?;
    let v = letters(heap, second)?;
    by_form(heap, "product", carrier, |carrier, out| {
        calls::product(carrier, u.as_slice(), v.as_slice(), out)
    })
}

/// Answers `length=WORD`.
#[tactic(auto, using(crate::proofs::CallAnswers::number_refused))]
pub fn length<C: Carrier>(heap: Global, carrier: &mut C, bytes: &[u8]) -> Result<String, JobError>
    ensures left { Leaves C.Carrier.frame C.Carrier.at carrier.old carrier.new result }
    ensures answered { Answered (ByWord (NumberJob (codes "length") (C.Carrier.frame carrier.old) (map letter_of bytes.now))) result }
{
    let word = letters(heap, bytes)?;
    let n = calls::length(carrier, word.as_slice())?;
    Ok(answers::number(heap, "length", n)?)
}

/// Answers `distance=U/V`.
#[tactic(auto, using(crate::proofs::CallAnswers::number_refused))]
pub fn distance<C: Carrier>(
    heap: Global,
    carrier: &mut C,
    first: &[u8],
    second: &[u8],
) -> Result<String, JobError>
    ensures left { Leaves C.Carrier.frame C.Carrier.at carrier.old carrier.new result }
    ensures answered { Answered (ByWord (NumberJob (codes "distance") (C.Carrier.frame carrier.old) (reverse (map letter_of first.now) ++ map letter_of second.now))) result }
{
    let u = letters(heap, first)?;
    let v = letters(heap, second)?;
    let n = calls::distance(carrier, u.as_slice(), v.as_slice())?;
    Ok(answers::number(heap, "distance", n)?)
}
