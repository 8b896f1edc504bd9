//! What a kind of exact number is.

ghost use Rattle.std.specs.Prelude.{◌≡◌, Bool, true, pos};
ghost use Rattle.coxeter.specs.Numbers.{Exact, integer, minus, times, negative};
ghost use Rattle.numbers.specs.Coefficients.{worth};
ghost use Rattle.numbers.specs.Kinds.{phi, Fitted};

use crate::coefficient::Coefficient;

/// A kind of exact number. Its values are exact; what fits it is said by the number alone.
pub trait Number: Copy {
    /// The exact number that it stands for.
    ghost value: { Self → Exact };

    /// Does this number fit the kind?
    ghost fits: { Exact → Bool };

    /// Does φ fit?
    fn holds_golden() -> bool
        ensures { result ≡ fits phi };

    fn one() -> Self
        ensures { value result ≡ integer (pos 1) };

    /// self − c × by, or None where that does not fit.
    fn minus_multiple(self, c: Coefficient, by: Self) -> Option<Self>
        ensures { Fitted value fits (minus (value self) (times (worth c) (value by))) result };

    fn is_negative(&self) -> bool
        ensures { result ≡ negative (value self.now) };

    ghost unit: { fits (integer (pos 1)) ≡ true };

    ghost within: { (x : Self) → fits (value x) ≡ true };
}
