//! One-line notation: a permutation by its entries, in a lent row of bytes.

pub mod carrying;
mod making;

ghost use Rattle.std.specs.Prelude.{◌<◌, length};
ghost use Rattle.coxeter.specs.Tables.{cut};
ghost use Rattle.coxeter.specs.Pairs.{Path};

use coxeter::group::Group;

/// Keeps a permutation of 1 to rank + 1: what i goes to stands at index i − 1 of the row.
/// That the row is a permutation is part of what a carrier means, not of this type.
#[derive(Drop)]
pub struct OneLine<'a> {
    group: Group,
    row: &'a mut [u8],
    ghost wide: { group.rank < length row.now },
    ghost path: { ∥ Path (cut group.rank group.rows) ∥₁ },
}
