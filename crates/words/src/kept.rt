//! What is kept of the letters of a form.

ghost use Rattle.std.specs.Prelude.{◌≡◌, ℕ, ◌<◌, [], ◌∷◌, ◌++◌, length};
ghost use Rattle.std.proofs.Common.{ap};
ghost use Rattle.coxeter.specs.Moves.{Word};
ghost use Rattle.arrayvec.specs.ArrayVec.{array_vec_len};

use arrayvec::ArrayVec;

/// What is kept of letters that come one by one: each of them, or their number alone.
// A number lies in a register: over a vector, whose letters it does not read, `length` filled 4 KiB with blanks at each call.
pub(crate) trait Kept {
    /// The number of the letters.
    ghost count: { Self → ℕ };

    /// It is what is kept of these letters.
    ghost keeps: { Self → Word → Type 0 };

    /// The number of the letters.
    fn len(&self) -> usize
        ensures { result ≡ count self.now };

    /// Keeps no letter.
    fn clear(&mut self)
        ensures { keeps self.new [] };

    /// Keeps one letter more.
    fn push(&mut self, s: u8)
        requires { count self.old < 4096 }
        ensures { (t : Word) → keeps self.old t → keeps self.new (t ++ (s ∷ [])) };

    /// The number is theirs.
    ghost counted: { (k : Self) (t : Word) → keeps k t → count k ≡ length t };
}

impl Kept for usize {
    ghost count = { λ n. n };

    ghost keeps = { λ n t. n ≡ length t };

    fn len(&self) -> usize {
        *self
    }

    fn clear(&mut self) {
        *self = 0;
    }

    fn push(&mut self, _s: u8) {
        *self += 1;
    }

    ghost counted = { λ n t e. e };
}

impl Kept for ArrayVec<u8, 4096> {
    ghost count = { array_vec_len };

    ghost keeps = { λ v t. v.items ≡ t };

    fn len(&self) -> usize {
        self.len()
    }

    fn clear(&mut self) {
        self.clear();
    }

    fn push(&mut self, s: u8) {
        self.push(s);
    }

    ghost counted = { λ v t e. ap length e };
}
