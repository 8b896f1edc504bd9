//! The chamber: an element by its point, in a lent row of exact numbers.

pub mod carrying;
mod making;

ghost use Rattle.std.specs.Prelude.{◌≤◌, length};
ghost use Rattle.coxeter.specs.Tables.{cut};
ghost use Rattle.carriers.specs.Tables.{Table};

use crate::coefficients::Coefficients;
use coxeter::group::Group;

/// Keeps the number of letter a at index a − 1 of the row.
/// That the row is the point of an element is part of what a carrier means, not of this type.
#[derive(Drop)]
pub struct Chamber<'a, N> {
    group: Group,
    coefficients: Coefficients,
    row: &'a mut [N],
    ghost wide: { group.rank ≤ length row.now },
    ghost table: { ∥ Table (cut group.rank group.rows) coefficients.columns ∥₁ },
}
