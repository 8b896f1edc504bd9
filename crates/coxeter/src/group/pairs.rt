//! A table of exponents, and the question whether a rule holds of all its pairs of letters.

ghost use Rattle.std.specs.Prelude.{◌≤◌};
ghost use Rattle.coxeter.specs.Tables.{cut};
ghost use Rattle.coxeter.specs.Pairs.{TellsWith, TellsPairs};

/// The first rank rows and columns of a lent table.
#[derive(Clone, Copy)]
pub(super) struct Table<'a> {
    pub(super) rank: u8,
    pub(super) rows: &'a [[u8; 8]; 8],
    ghost few: { rank ≤ 8 },
}

impl Table<'_> {
    /// Does the rule hold of every pair of letters s and t? It is asked of s, t, their exponent and that of t and s.
    pub(super) fn every_pair<F: Fn(u8, u8, u8, u8) -> bool>(&self, rule: F) -> bool
        requires { F.IsAlwaysCallable rule }
        ensures { TellsPairs (F.post rule) (cut self.now.rank self.now.rows.now) result }
    {
        // From 0, here and below: `all` takes longer over an inclusive range, which has two ends to test at each number.
        (0..self.rank).all(|i| self.every_with(i + 1, &rule))
    }

    /// Does it hold of s and every letter?
    fn every_with<F: Fn(u8, u8, u8, u8) -> bool>(&self, s: u8, rule: &F) -> bool
        requires letter { (1 ≤ s) × (s ≤ self.now.rank) }
        requires rule { F.IsAlwaysCallable rule.now }
        ensures { TellsWith (F.post rule.now) (cut self.now.rank self.now.rows.now) s result }
    {
        let rows = self.rows;
        let i = s as usize - 1;
        (0..self.rank).all(|k| {
            let (t, j) = (k + 1, k as usize);
            rule(s, t, rows[i][j], rows[j][i])
        })
    }
}
