//! Whole numbers.

ghost use Rattle.coxeter.specs.Numbers.{integer};
ghost use Rattle.numbers.specs.Kinds.{fits_whole};
ghost use Rattle.std.proofs.Common.{rules};

use crate::bounded::Bounded;
use crate::coefficient::Coefficient;
use crate::number::Number;

/// A whole number of at most 10¹², either way.
#[derive(Clone, Copy)]
pub struct Whole {
    a: Bounded<1_000_000_000_000>,
}

impl Number for Whole {
    ghost value = { λ x. integer x.a.value };

    ghost fits = { fits_whole };

    ghost unit = { Prim.search rules };

    ghost within = { Prim.search rules };

    fn holds_golden() -> bool {
        false
    }

    fn one() -> Whole {
        Whole {
            a: Bounded { value: 1 },
        }
    }

    fn minus_multiple(self, c: Coefficient, by: Whole) -> Option<Whole> {
        let (whole, golden) = c.times(by.a.value, 0);
        if golden != 0 {
            return None;
        }
        Some(Whole {
            a: Bounded::new(self.a.value - whole)?,
        })
    }

    fn is_negative(&self) -> bool {
        self.a.value < 0
    }
}
