// The job that a key and a value spell.
ghost use Rattle.std.specs.Prelude.{MatchOption};
ghost use Rattle.lines.specs.Lines.{IsJob, NoJob};

use crate::line::Job;
use crate::words::{one_word, two_words};

/// The job that the key and the value spell, or nothing where they spell none.
pub fn job<'a>(key: &[u8], value: &'a [u8]) -> Option<Job<'a>>
    ensures { MatchOption result (NoJob key.now value.now) (IsJob key.now value.now) }
{
    match key {
        b"form" => one_word(value).map(Job::Form),
        b"inverse" => one_word(value).map(Job::Inverse),
        b"length" => one_word(value).map(Job::Length),
        b"descents" => one_word(value).map(Job::Descents),
        b"file" => one_word(value).map(Job::File),
        b"withdraw" => one_word(value).map(Job::Withdraw),
        b"tally" => one_word(value).map(Job::Tally),
        b"product" => two_words(value).map(|(u, v)| Job::Product(u, v)),
        b"distance" => two_words(value).map(|(u, v)| Job::Distance(u, v)),
        b"sum" if value.is_empty() => Some(Job::Sum),
        _ => None,
    }
}
