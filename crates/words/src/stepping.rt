//! A carrier brought to the element of a word, letter by letter.

ghost use Rattle.std.specs.Prelude.{◌≡◌, ◌≤◌, length};
ghost use Rattle.coxeter.specs.Moves.{Letters};
ghost use Rattle.words.specs.Views.{letters_of};
ghost use Rattle.words.specs.Stepping.{Outside, Arrived};

use crate::faults::WordFault;
use crate::view::Formed;
use carriers::carrier::Carrier;

// The carrier and the word formed stay parameters: over a struct each clause would name the carrier by `self.new.carrier.now`.

/// The index of the first letter that is none of the group's.
// An index or none, as `position` answers it: a function that made the fault of it would be longer, and so its proof.
fn first_outside<C: Carrier>(carrier: &C, mut word: Formed) -> Option<usize>
    ensures { Outside (C.Carrier.frame carrier.now).group (letters_of word.entry) result }
{
    let n = carrier.rank();
    word.position(|s| !(1..=n).contains(&s))
}

// The frame stays in each step of the walk, which ends away from home; only the calls above say that the carrier is brought home.

/// Brings the carrier home and steps it through the word.
fn step_through<C: Carrier>(carrier: &mut C, word: Formed) -> Result<(), WordFault>
    requires few { length (letters_of word) ≤ 4096 }
    requires letters { Letters (C.Carrier.frame carrier.old).group (letters_of word) }
    ensures same { C.Carrier.frame carrier.new ≡ C.Carrier.frame carrier.old }
    ensures arrived { Arrived (C.Carrier.frame carrier.old) (C.Carrier.at carrier.new) (letters_of word.entry) result }
{
    carrier.home();
    for (k, s) in word.enumerate() {
        carrier.step(s).map_err(|_| WordFault::Reach(k))?;
    }
    Ok(())
}

/// Brings the carrier to the element of the word formed; it stands anywhere where the word is refused.
pub(crate) fn stand_at<C: Carrier>(carrier: &mut C, word: Formed) -> Result<(), WordFault>
    ensures same { C.Carrier.frame carrier.new ≡ C.Carrier.frame carrier.old }
    ensures arrived { Arrived (C.Carrier.frame carrier.old) (C.Carrier.at carrier.new) (letters_of word.entry) result }
{
    if word.len() > 4096 {
        return Err(WordFault::TooLong);
    }
    if let Some(k) = first_outside(carrier, word) {
        return Err(WordFault::Letter(k));
    }
    step_through(carrier, word)
}
