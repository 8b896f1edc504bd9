//! The factors c(s,t) of a group's steps.

ghost use Rattle.std.specs.Prelude.{◌≡◌};
ghost use Rattle.coxeter.specs.Numbers.{times};
ghost use Rattle.coxeter.specs.Points.{coefficient_of};
ghost use Rattle.numbers.specs.Coefficients.{worth, zero};
ghost use Rattle.numbers.specs.Kinds.{Small};

/// What a letter's number is multiplied by before it is taken off another's: whole + golden φ, where φ² = φ + 1.
#[derive(Clone, Copy)]
pub struct Coefficient {
    whole: i8,
    golden: i8,
}

impl Coefficient {
    /// The coefficient 0.
    // A public promise, which stays; a derived Default would not say by its name which coefficient it is.
    pub fn zero() -> Coefficient
        ensures { result ≡ zero }
    {
        Coefficient {
            whole: 0,
            golden: 0,
        }
    }

    /// The coefficient c(s,t) by the exponent of s and t, 0 for inf, and by whether s is the smaller.
    // The exponent is a number, 0 for inf, as groups and carriers answer it.
    pub fn of_exponent(exponent: u8, rising: bool) -> Coefficient
        ensures { worth result ≡ coefficient_of exponent rising }
    {
        let (whole, golden) = match (exponent, rising) {
            (0, _) => (-2, 0),
            (1, _) => (2, 0),
            (2, _) => (0, 0),
            (3, _) | (4, true) => (-1, 0),
            (4, false) => (-2, 0),
            (5, _) => (0, -1),
            (_, true) => (-1, 0),
            (_, false) => (-3, 0),
        };
        Coefficient { whole, golden }
    }

    /// Its product with a + b φ, in two parts.
    pub(crate) fn times(self, a: i64, b: i64) -> (i64, i64)
        requires whole { Small 1000000000000 a }
        requires golden { Small 1000000000000 b }
        ensures value { times (worth self) (record { whole = a; golden = b }) ≡ record { whole = result.0; golden = result.1 } }
        ensures whole { Small 512000000000000 result.0 }
        ensures golden { Small 512000000000000 result.1 }
    {
        let (c, d) = (i64::from(self.whole), i64::from(self.golden));
        (c * a + d * b, c * b + d * a + d * b)
    }
}
