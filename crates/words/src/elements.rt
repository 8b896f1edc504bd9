//! Do two words, on two carriers, name one element?

ghost use Rattle.std.specs.Prelude.{◌≡◌, ℕ, Decides};
ghost use Rattle.coxeter.specs.Groups.{Letter, answered_exponent};
ghost use Rattle.carriers.specs.Carriers.{BroughtHome};
ghost use Rattle.words.specs.Promises.{Compared};

use crate::faults::WordFault;
use crate::reading::read_form;
use crate::view::Formed;
use arrayvec::ArrayVec;
use carriers::carrier::Carrier;

/// What is found of two words.
// Three cases with names: an Option of a flag would say less.
#[derive(Clone, Copy, Debug, PartialEq)]
pub enum Comparison {
    /// They name one element.
    Same,
    /// They name two elements.
    Unlike,
    /// The carriers are of two groups, so that there is nothing to compare.
    OtherGroup,
}

/// Has s the same exponents in both groups, with every letter of the first?
// To n + 1 and not `1..=n`, here and below: that range asks at each number whether it is used up, and over empty
// words `same_element` took a fifth longer.
fn same_exponents<C: Carrier, D: Carrier>(c: &C, d: &D, s: u8) -> bool
    ensures { Decides result ((t : ℕ) → Letter (C.Carrier.frame c.now).group t → answered_exponent (C.Carrier.frame c.now).group s t ≡ answered_exponent (D.Carrier.frame d.now).group s t) }
{
    (1..c.rank() + 1).all(|t| c.exponent(s, t) == d.exponent(s, t))
}

/// Are the two carriers of one group?
pub fn same_group<C: Carrier, D: Carrier>(c: &C, d: &D) -> bool
    ensures { Decides result ((C.Carrier.frame c.now).group ≡ (D.Carrier.frame d.now).group) }
{
    let n = c.rank();
    n == d.rank() && (1..n + 1).all(|s| same_exponents(c, d, s))
}

/// Do the two words name one element? The carrier c takes u, and d takes v. Both are left at home.
pub fn same_element<C: Carrier, D: Carrier>(
    c: &mut C,
    d: &mut D,
    u: &[u8],
    v: &[u8],
) -> Result<Comparison, WordFault>
    ensures home { BroughtHome C.Carrier.frame C.Carrier.at c.old c.new }
    ensures other_home { BroughtHome D.Carrier.frame D.Carrier.at d.old d.new }
    ensures compared { Compared (C.Carrier.frame c.old) (D.Carrier.frame d.old) u.now v.now result }
{
    let one = same_group(c, d);
    d.home();
    if !one {
        c.home();
        return Ok(Comparison::OtherGroup);
    }
    let mut a = ArrayVec::new();
    let mut b = ArrayVec::new();
    read_form(c, Formed::Plain(u), &mut a)?;
    read_form(d, Formed::Plain(v), &mut b)?;
    if a == b {
        Ok(Comparison::Same)
    } else {
        Ok(Comparison::Unlike)
    }
}
