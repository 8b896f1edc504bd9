//! The set of the descending letters.

ghost use Rattle.std.specs.Prelude.{◌≡◌, ℕ, ◌<◌, ◌≤◌, ◌||◌, length, ◌==◌};
ghost use Rattle.words.specs.Sets.{has, letters_in, LeastIn};

/// A set of letters in one byte: letter s is worth 2 to the power s − 1.
#[derive(Clone, Copy, Debug, Default, PartialEq)]
pub struct Descents {
    bits: u8,
}

impl Descents {
    /// The set with the letter s in it.
    pub(crate) fn with(self, s: u8) -> Descents
        requires { (1 ≤ s) × (s ≤ 8) }
        ensures byte { result.bits < 256 }
        ensures told { (t : ℕ) → 1 ≤ t → has result.bits t ≡ (t == s || has self.bits t) }
    {
        Descents {
            bits: self.bits | 1 << (s - 1),
        }
    }

    /// How many letters it has.
    pub fn count(self) -> u8
        ensures { result ≡ length (letters_in self.bits) }
    {
        self.bits.count_ones() as u8
    }

    /// The least of its letters, 0 for none.
    // 0 and not None: the interface answers 0 for the least of no letters, and so it is printed.
    pub fn least(self) -> u8
        ensures { LeastIn self.bits result }
    {
        if self.bits == 0 {
            return 0;
        }
        self.bits.trailing_zeros() as u8 + 1
    }
}
