//! The calls over words.

ghost use Rattle.std.specs.Prelude.{◌++◌, reverse};
ghost use Rattle.coxeter.specs.Moves.{Word};
ghost use Rattle.carriers.specs.Carriers.{BroughtHome};
ghost use Rattle.words.specs.Sets.{Descending};
ghost use Rattle.words.specs.Views.{letters_of};
ghost use Rattle.words.specs.Outcomes.{DescentsTold, Measured, Written};
ghost use Rattle.words.specs.Promises.{FormTold, LengthTold, DistanceTold};

use crate::descents::Descents;
use crate::faults::WordFault;
use crate::reading::read_form;
use crate::stepping::stand_at;
use crate::view::Formed;
use arrayvec::ArrayVec;
use carriers::carrier::Carrier;

/// The letters that descend where the carrier stands.
fn descending<C: Carrier>(carrier: &C) -> Descents
    ensures { (w : Word) → C.Carrier.at carrier.now w → Descending (C.Carrier.frame carrier.now).group w result.bits }
{
    let mut set = Descents::default();
    for s in 1..=carrier.rank() {
        if carrier.descends(s) {
            set = set.with(s);
        }
    }
    set
}

/// The letters that descend at the word's element. The carrier is left at home.
pub fn descents<C: Carrier>(carrier: &mut C, word: &[u8]) -> Result<Descents, WordFault>
    ensures home { BroughtHome C.Carrier.frame C.Carrier.at carrier.old carrier.new }
    ensures told { DescentsTold (C.Carrier.frame carrier.old) word.now result }
{
    let set = stand_at(carrier, Formed::Plain(word)).map(|()| descending(carrier));
    carrier.home();
    set
}

// The carrier and the word formed stay parameters: over a struct each clause would name the carrier by `self.new.carrier.now`.

/// The letter count of the form of the word formed.
fn measure<C: Carrier>(carrier: &mut C, word: Formed) -> Result<usize, WordFault>
    ensures home { BroughtHome C.Carrier.frame C.Carrier.at carrier.old carrier.new }
    ensures measured { Measured (C.Carrier.frame carrier.old) (letters_of word.entry) result }
{
    let mut count = 0usize;
    read_form(carrier, word, &mut count)?;
    Ok(count)
}

/// The form of the word formed, at the front of `out`.
fn write<C: Carrier>(carrier: &mut C, word: Formed, out: &mut [u8]) -> Result<usize, WordFault>
    ensures home { BroughtHome C.Carrier.frame C.Carrier.at carrier.old carrier.new }
    ensures written { Written (C.Carrier.frame carrier.old) (letters_of word.entry) out.old out.new result }
{
    if out.len() < word.len().min(4096) {
        carrier.home();
        return Err(WordFault::Short);
    }
    let mut letters = ArrayVec::new();
    read_form(carrier, word, &mut letters)?;
    let form = &mut out[..letters.len()];
    form.copy_from_slice(letters.as_slice());
    form.reverse();
    Ok(letters.len())
}

// The five calls below are each one line over `write` or `measure`: each has a name and a law of its own. That the carrier is
// brought home is a fact of before and after, so each says it; no type can.

/// The form of the word's element, at the front of `out`, and its letter count.
pub fn form<C: Carrier>(carrier: &mut C, word: &[u8], out: &mut [u8]) -> Result<usize, WordFault>
    ensures home { BroughtHome C.Carrier.frame C.Carrier.at carrier.old carrier.new }
    ensures written { Written (C.Carrier.frame carrier.old) word.now out.old out.new result }
    ensures told { FormTold (C.Carrier.frame carrier.old).group word.now out.new result }
{
    write(carrier, Formed::Plain(word), out)
}

/// The form of the product of the two words' elements, at the front of `out`, and its letter count.
pub fn product<'w, C: Carrier>(
    carrier: &mut C,
    u: &'w [u8],
    v: &'w [u8],
    out: &mut [u8],
) -> Result<usize, WordFault>
    ensures home { BroughtHome C.Carrier.frame C.Carrier.at carrier.old carrier.new }
    ensures written { Written (C.Carrier.frame carrier.old) (u.now ++ v.now) out.old out.new result }
    ensures told { FormTold (C.Carrier.frame carrier.old).group (u.now ++ v.now) out.new result }
{
    write(carrier, Formed::Joined(u, v), out)
}

/// The form of the inverse of the word's element, at the front of `out`, and its letter count.
pub fn inverse<C: Carrier>(carrier: &mut C, word: &[u8], out: &mut [u8]) -> Result<usize, WordFault>
    ensures home { BroughtHome C.Carrier.frame C.Carrier.at carrier.old carrier.new }
    ensures written { Written (C.Carrier.frame carrier.old) (reverse word.now) out.old out.new result }
    ensures told { FormTold (C.Carrier.frame carrier.old).group (reverse word.now) out.new result }
{
    write(carrier, Formed::Reversed(word), out)
}

/// The length of the word's element.
pub fn length<C: Carrier>(carrier: &mut C, word: &[u8]) -> Result<usize, WordFault>
    ensures home { BroughtHome C.Carrier.frame C.Carrier.at carrier.old carrier.new }
    ensures measured { Measured (C.Carrier.frame carrier.old) word.now result }
    ensures told { LengthTold (C.Carrier.frame carrier.old).group word.now result }
{
    measure(carrier, Formed::Plain(word))
}

/// The distance of the two words' elements: the length of u reversed, followed by v.
pub fn distance<'w, C: Carrier>(
    carrier: &mut C,
    u: &'w [u8],
    v: &'w [u8],
) -> Result<usize, WordFault>
    ensures home { BroughtHome C.Carrier.frame C.Carrier.at carrier.old carrier.new }
    ensures measured { Measured (C.Carrier.frame carrier.old) (reverse u.now ++ v.now) result }
    ensures told { DistanceTold (C.Carrier.frame carrier.old).group u.now v.now result }
{
    measure(carrier, Formed::Between(u, v))
}
