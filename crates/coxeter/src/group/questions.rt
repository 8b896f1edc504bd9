//! What a group answers of its matrix.

ghost use Rattle.std.specs.Prelude.{◌≡◌, length, Decides};
ghost use Rattle.coxeter.specs.Groups.{Letter, answered_exponent};
ghost use Rattle.coxeter.specs.Tables.{cut};
ghost use Rattle.coxeter.specs.Matrices.{matrix};
ghost use Rattle.coxeter.specs.Pairs.{AllFinite, WithoutFive, Path};

use crate::group::Group;
use crate::group::pairs::Table;

impl Group {
    /// How many letters the group has.
    pub fn rank(&self) -> u8
        ensures plain { result ≡ self.now.rank }
        ensures told { result ≡ length (matrix self.now) }
    {
        self.rank
    }

    /// Is s a letter of the group, 1 to its rank?
    pub fn has_letter(&self, s: u8) -> bool
        ensures { Decides result (Letter (matrix self.now) s) }
    {
        (1..=self.rank).contains(&s)
    }

    /// The exponent of s and t: 0 for inf, 255 where s or t is no letter.
    // A number and not an enum: 0 for inf and 255 for no letter are what the interface of groups and carriers answers.
    pub fn exponent(&self, s: u8, t: u8) -> u8
        ensures { result ≡ answered_exponent (matrix self.now) s t }
    {
        if !self.has_letter(s) || !self.has_letter(t) {
            return 255;
        }
        let row = &self.rows[s as usize - 1];
        row[t as usize - 1]
    }

    /// Is no exponent inf?
    pub fn all_finite(&self) -> bool
        ensures { Decides result (AllFinite (matrix self.now)) }
    {
        self.table().every_pair(|_, _, m, _| m != 0)
    }

    /// Is no exponent 5?
    pub fn without_five(&self) -> bool
        ensures { Decides result (WithoutFive (matrix self.now)) }
    {
        self.table().every_pair(|_, _, m, _| m != 5)
    }

    /// Is this the group of type A, with 3 between s and s + 1 and 2 between all other unlike letters?
    pub fn is_path(&self) -> bool
        ensures { Decides result (Path (matrix self.now)) }
    {
        self.table().every_pair(|s, t, m, _| {
            if s == t {
                m == 1
            } else if s < t && t - s == 1 || t < s && s - t == 1 {
                m == 3
            } else {
                m == 2
            }
        })
    }

    /// The group's own table.
    fn table(&self) -> Table<'_>
        ensures { cut result.rank result.rows.now ≡ matrix self.now }
    {
        Table {
            rank: self.rank,
            rows: &self.rows,
        }
    }
}
