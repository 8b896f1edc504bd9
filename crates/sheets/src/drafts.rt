// Sheets by how far they are: drafts that want rows, drafts that want their kind, checked drafts, and finished sheets.
ghost use Rattle.std.specs.Prelude.{◌<◌, ◌≤◌};
ghost use Rattle.coxeter.specs.Matrices.{matrix};
ghost use Rattle.sheets.specs.Filling.{Filled};
ghost use Rattle.sheets.specs.Kinds.{Carries};

use crate::kinds::Kind;
use coxeter::group::Group;

/// A draft that wants its next row: its rank is known, and the first `done` rows are there.
// A fixed table, since it becomes the group's: a vector of rows would have to be filled up again.
#[derive(Drop)]
pub struct RowsDraft {
    pub(crate) rank: u8,
    pub(crate) done: u8,
    pub(crate) rows: [[u8; 8]; 8],
    ghost some: { 1 ≤ rank },
    ghost few: { rank ≤ 8 },
    ghost left: { done < rank },
    ghost filled: { ∥ Filled rank done rows ∥₁ },
}

/// A draft that wants its kind: all its rows are there, and they are those of a group.
#[derive(Drop)]
pub struct KindDraft {
    pub(crate) group: Group,
}

/// A draft that wants rows, or its kind.
#[derive(Drop)]
pub enum Draft {
    Rows(RowsDraft),
    Kind(KindDraft),
}

/// A finished sheet: a group, and a kind that can carry it.
#[derive(Drop)]
pub struct Sheet {
    pub(crate) group: Group,
    pub(crate) kind: Kind,
    ghost carried: { ∥ Carries kind (matrix group) ∥₁ },
}

/// A draft whose kind's line was accepted, so that its sheet can be finished.
#[derive(Drop)]
pub struct CheckedDraft {
    pub(crate) sheet: Sheet,
}
