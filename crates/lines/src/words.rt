// The words of a job's value, which a slash parts.
ghost use Rattle.std.specs.Prelude.{List, ℕ, MatchOption};
ghost use Rattle.lines.specs.Words.{OneWord, TwoWords};

use crate::bytes::cut;

// Both are inlined, since `job` would else clear the places of all its answers on each call.

/// The one word of a value without a slash.
#[inline(always)]
pub fn one_word(value: &[u8]) -> Option<&[u8]>
    ensures { MatchOption result ((w : List ℕ) → OneWord value.now w → ⊥) (λ w. OneWord value.now w.now) }
{
    (!value.contains(&b'/')).then_some(value)
}

/// The two words of a value with one slash.
#[inline(always)]
pub fn two_words(value: &[u8]) -> Option<(&[u8], &[u8])>
    ensures { MatchOption result ((u v : List ℕ) → TwoWords value.now u v → ⊥) (λ p. TwoWords value.now p.0.now p.1.now) }
{
    let (first, rest) = cut(value, b'/')?;
    Some((first, one_word(rest)?))
}
