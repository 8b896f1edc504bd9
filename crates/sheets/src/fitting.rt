// Which exponents the next row of a draft may have.
ghost use Rattle.std.specs.Prelude.{◌≡◌, ◌+◌, ◌≤◌, length, sum_by, Decides, MatchOption};
ghost use Rattle.sheets.specs.Rows.{exponent_text};
ghost use Rattle.sheets.specs.Fitting.{Fits, AllExponentsFit, Misfit};

use crate::drafts::RowsDraft;
use std::cmp::Ordering;

// How many bytes an exponent is written in.
// Exponents are numbers, 0 for inf, as a group keeps them: an enum would be turned into them again at each use.
fn width(e: u8) -> usize
    ensures { result ≡ length (exponent_text e) }
{
    if e == 0 { 3 } else { 1 }
}

// How many bytes the exponents are written in, with one behind each.
fn written(row: &[u8]) -> usize
    requires { length row.now ≤ 8 }
    ensures { result ≡ sum_by (λ e. length (exponent_text e) + 1) row.now }
{
    row.iter().map(|e| width(*e) + 1).sum()
}

impl RowsDraft {
    // Whether `e`, a number as above, may stand in the next row at column `c`.
    fn fits(&self, c: usize, e: u8) -> bool
        ensures { Decides result (Fits self.now.rows self.now.done c e) }
    {
        let r = self.done as usize;
        match c.cmp(&r) {
            Ordering::Less => e != 1 && e == self.rows[c][r],
            Ordering::Equal => e == 1,
            Ordering::Greater => e != 1,
        }
    }

    // Where the first exponent stands that may not stand in the next row: its place in the row's bytes.
    // A place or none, as a search answers it: `add` makes the fault of it.
    pub(crate) fn misfit(&self, row: &[u8]) -> Option<usize>
        requires { length row.now ≤ 8 }
        ensures { MatchOption result (AllExponentsFit self.now.rows self.now.done row.now (length row.now)) (Misfit self.now.rows self.now.done row.now) }
    {
        let c = row.iter().enumerate().position(|(c, e)| !self.fits(c, *e))?;
        Some(written(&row[..c]))
    }
}
