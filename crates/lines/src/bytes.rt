// Cutting and comparing texts of bytes.
ghost use Rattle.std.specs.Prelude.{◌≡◌, Decides, MatchOption};
ghost use Rattle.lines.specs.Cuts.{Cut, Free};

/// What stands before and behind the first byte of `s` that equals `b`, or nothing where none does.
pub fn cut(s: &[u8], b: u8) -> Option<(&[u8], &[u8])>
    ensures { MatchOption result (Free b s.now) (λ p. Cut b s.now p.0.now p.1.now) }
{
    // Where none equals it, n is the length: a search that answers `None` there has a slower loop.
    let n = s.iter().position(|x| *x == b).unwrap_or(s.len());
    (n < s.len()).then(|| (&s[..n], &s[n + 1..]))
}

/// Whether the two texts have the same bytes.
// A public promise, which stays: the code here compares by `==` and by patterns.
pub fn same(a: &[u8], b: &[u8]) -> bool
    ensures { Decides result (a.now ≡ b.now) }
{
    a == b
}
