// The kinds of carrier that a sheet can ask for.
ghost use Rattle.std.specs.Prelude.{Decides};
ghost use Rattle.coxeter.specs.Matrices.{matrix};
ghost use Rattle.sheets.specs.Kinds.{Named, Carries};

use crate::faults::SheetFault;
use coxeter::group::Group;

/// What carries the elements of the sheet's group.
#[derive(Clone, Copy, Debug, PartialEq)]
pub enum Kind {
    /// The chamber in whole numbers: no group with an exponent 5.
    Whole,
    /// The chamber in whole multiples of 1 and the golden ratio: every group.
    Golden,
    /// One-line notation: only the groups of type A.
    Line,
}

impl TryFrom<&[u8]> for Kind {
    type Error = SheetFault;

    ghost try_from_gives = { λ value. Named value.now };

    fn try_from(value: &[u8]) -> Result<Kind, SheetFault> {
        match value {
            b"whole" => Ok(Kind::Whole),
            b"golden" => Ok(Kind::Golden),
            b"line" => Ok(Kind::Line),
            _ => Err(SheetFault::Kind),
        }
    }
}

impl Kind {
    /// Whether this kind can carry the group.
    pub fn carries(self, group: &Group) -> bool
        ensures { Decides result (Carries self (matrix group.now)) }
    {
        match self {
            Kind::Whole => group.without_five(),
            Kind::Golden => true,
            Kind::Line => group.is_path(),
        }
    }
}
