//! Golden numbers: a + b φ.

ghost use Rattle.std.specs.Prelude.{◌≡◌};
ghost use Rattle.coxeter.specs.Numbers.{negative_parts};
ghost use Rattle.numbers.specs.Kinds.{Small, fits_golden};
ghost use Rattle.std.proofs.Common.{rules};

use crate::bounded::Bounded;
use crate::coefficient::Coefficient;
use crate::number::Number;

/// a + b φ, with a and b of at most 10⁸, either way.
#[derive(Clone, Copy)]
pub struct Golden {
    a: Bounded<100_000_000>,
    b: Bounded<100_000_000>,
}

/// Is p + q √5 negative?
fn is_negative_sum(p: i64, q: i64) -> bool
    requires first { Small 300000000 p }
    requires second { Small 100000000 q }
    ensures { result ≡ negative_parts p q }
{
    let left = p * p;
    let right = 5 * (q * q);
    if p < 0 {
        q <= 0 || right < left
    } else {
        q < 0 && left < right
    }
}

impl Number for Golden {
    ghost value = { λ x. record { whole = x.a.value; golden = x.b.value } };

    ghost fits = { fits_golden };

    ghost unit = { Prim.search rules };

    ghost within = { Prim.search rules };

    fn holds_golden() -> bool {
        true
    }

    fn one() -> Golden {
        Golden {
            a: Bounded { value: 1 },
            b: Bounded { value: 0 },
        }
    }

    fn minus_multiple(self, c: Coefficient, by: Golden) -> Option<Golden> {
        let (whole, golden) = c.times(by.a.value, by.b.value);
        Some(Golden {
            a: Bounded::new(self.a.value - whole)?,
            b: Bounded::new(self.b.value - golden)?,
        })
    }

    fn is_negative(&self) -> bool {
        is_negative_sum(2 * self.a.value + self.b.value, self.b.value)
    }
}
