//! A Coxeter group, by its matrix.

mod making;
mod pairs;
mod questions;

ghost use Rattle.std.specs.Prelude.{◌≤◌};
ghost use Rattle.coxeter.specs.Groups.{Lawful};
ghost use Rattle.coxeter.specs.Tables.{cut};

/// A Coxeter group of rank 1 to 8: the exponent of the letters s and t stands at rows[s - 1][t - 1], 0 for inf.
// A fixed table with the rank beside it: a group is copied.
#[derive(Clone, Copy)]
pub struct Group {
    rank: u8,
    rows: [[u8; 8]; 8],
    ghost some: { 1 ≤ rank },
    ghost few: { rank ≤ 8 },
    ghost lawful: { ∥ Lawful (cut rank rows) ∥₁ },
}
