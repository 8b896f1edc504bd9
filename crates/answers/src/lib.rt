//! Answers: the lines that the program prints, made of values.

#![tactic(auto)]

ghost use Rattle.std.specs.Prelude.{◌≡◌, Some, IfOk, string_bytes};
ghost use Rattle.coxeter.specs.Matrices.{matrix};
ghost use Rattle.answers.specs.Texts.{refusal_text, form_text, letters_text, number_text, yes_no, GroupAnswer, DescentsAnswer};

use coxeter::group::Group;
use lines::located::Located;
use refusals::refusal::Refusal;
use refusals::report::Report;
use std::alloc::{AllocError, Global};
use std::fmt;
use words::descents::Descents;

/// The answer to a line that is refused: the refusal's number, its line, its place and the layer where it arose.
pub fn refusal<F: Refusal>(heap: Global, refused: &Located<F>) -> Result<String, AllocError>
    ensures { let report = F.Refusal.reported refused.now.fault in IfOk result (λ s. string_bytes s ≡ refusal_text report.number refused.now.line report.place report.layer) }
{
    let line = refused.line;
    let Report {
        number,
        place,
        layer,
    } = refused.fault.report();
    format!(in heap; "refused={number} line={line} at={place} layer={layer}\n")
}

// The answer to a question.
// Not Display: `bool` has its own words, and these are the format's. Inlined, two cases of the proof stay open.
fn yes_or_no(answer: bool) -> &'static str
    ensures { result.now ≡ yes_no answer }
{
    if answer { "yes" } else { "no" }
}

/// The answer to an accepted sheet: its rank, and whether no exponent is inf.
pub fn group(heap: Global, group: &Group) -> Result<String, AllocError>
    ensures { IfOk result (λ s. GroupAnswer (matrix group.now) (string_bytes s)) }
{
    let rank = group.rank();
    let finite = yes_or_no(group.all_finite());
    format!(in heap; "group={rank} finite={finite}\n")
}

/// The answer to `descents`: how many letters descend, and the least of them, 0 for none.
pub fn descents(heap: Global, set: Descents) -> Result<String, AllocError>
    ensures { IfOk result (λ s. DescentsAnswer set.bits (string_bytes s)) }
{
    let count = set.count();
    let least = set.least();
    format!(in heap; "descents={count} least={least}\n")
}

// The letters of a word, printed without anything between.
#[derive(Clone, Copy)]
struct Letters<'w>(&'w [u8]);

impl fmt::Display for Letters<'_> {
    ghost output = { λ x. Some (letters_text x.0.now) };

    fn fmt<W: fmt::Write>(&self, f: &mut fmt::Formatter<W>) -> fmt::Result {
        for s in self.0 {
            write!(f, "{s}")?;
        }
        Ok(())
    }
}

/// The answer of a call that gives a form: the job's key, and the form's letters as digits.
pub fn form(heap: Global, key: &str, letters: &[u8]) -> Result<String, AllocError>
    ensures { IfOk result (λ s. string_bytes s ≡ form_text key.now letters.now) }
{
    let form = Letters(letters);
    format!(in heap; "{key}={form}\n")
}

/// The answer of a call that gives a number: the job's key, and the number.
pub fn number(heap: Global, key: &str, n: usize) -> Result<String, AllocError>
    ensures { IfOk result (λ s. string_bytes s ≡ number_text key.now n) }
{
    format!(in heap; "{key}={n}\n")
}
