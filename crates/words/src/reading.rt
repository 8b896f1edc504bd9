//! The form of a word, read off a carrier that stands at its element.

ghost use Rattle.std.specs.Prelude.{◌≡◌};
ghost use Rattle.carriers.specs.Carriers.{BroughtHome};
ghost use Rattle.words.specs.Outcomes.{Entered};
ghost use Rattle.words.specs.Views.{letters_of};
ghost use Rattle.words.specs.Reading.{Found, Read};

use crate::faults::WordFault;
use crate::kept::Kept;
use crate::stepping::stand_at;
use crate::view::Formed;
use carriers::carrier::Carrier;

/// The least letter that descends where the carrier stands.
// To n + 1 and not `1..=n`, which asks at each letter whether the range is used up.
fn least_descending<C: Carrier>(carrier: &C) -> Option<u8>
    ensures { Found (C.Carrier.frame carrier.now).group (C.Carrier.at carrier.now) result }
{
    (1..carrier.rank() + 1).find(|s| carrier.descends(*s))
}

// The carrier, the word and the letters stay parameters: in a struct over them each clause would name the carrier by
// `self.new.carrier.now`, and say besides that the word and what is lent stay the same. The frame stays in each step of the walk
// (`same`), which ends away from home.

/// Takes the least descending letter off again and again: the letters of the form, the last first.
fn take_off<C: Carrier, K: Kept>(
    carrier: &mut C,
    word: Formed,
    letters: &mut K,
) -> Result<(), WordFault>
    requires entered { Entered (C.Carrier.frame carrier.old) (letters_of word) }
    requires here { C.Carrier.at carrier.old (letters_of word) }
    ensures same { C.Carrier.frame carrier.new ≡ C.Carrier.frame carrier.old }
    ensures read { Read (C.Carrier.frame carrier.old) (letters_of word.entry) (K.Kept.keeps letters.new) result }
{
    letters.clear();
    while let Some(s) = least_descending(carrier) {
        let place = word.len() + letters.len();
        carrier.step(s).map_err(|_| WordFault::Reach(place))?;
        letters.push(s);
    }
    Ok(())
}

/// Up the word formed and down its form.
fn walk<C: Carrier, K: Kept>(
    carrier: &mut C,
    word: Formed,
    letters: &mut K,
) -> Result<(), WordFault>
    ensures same { C.Carrier.frame carrier.new ≡ C.Carrier.frame carrier.old }
    ensures read { Read (C.Carrier.frame carrier.old) (letters_of word.entry) (K.Kept.keeps letters.new) result }
{
    stand_at(carrier, word)?;
    take_off(carrier, word, letters)
}

/// The letters of the form of the word formed, the last first. The carrier is left at home.
// `letters` is lent: answered by value, its 4 KiB move at each return, and a call over a word of no letter took
// 340 ns in place of 60.
pub(crate) fn read_form<C: Carrier, K: Kept>(
    carrier: &mut C,
    word: Formed,
    letters: &mut K,
) -> Result<(), WordFault>
    ensures home { BroughtHome C.Carrier.frame C.Carrier.at carrier.old carrier.new }
    ensures read { Read (C.Carrier.frame carrier.old) (letters_of word.entry) (K.Kept.keeps letters.new) result }
{
    let read = walk(carrier, word, letters);
    carrier.home();
    read
}
