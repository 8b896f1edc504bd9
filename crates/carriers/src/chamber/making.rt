//! How a chamber is made: a check, and a making behind it.

ghost use Rattle.std.specs.Prelude.{◌≡◌, [], length, drop, Decides};
ghost use Rattle.coxeter.specs.Groups.{rank as rank_of};
ghost use Rattle.coxeter.specs.Moves.{Word};
ghost use Rattle.coxeter.specs.Matrices.{matrix};
ghost use Rattle.carriers.specs.Rows.{fitting_frame, AllFit};
ghost use Rattle.carriers.specs.Openings.{Carried, Opens, Checked};
ghost use Rattle.carriers.specs.Chambers.{chamber_frame, chamber_at, chamber_beyond};

use crate::carrier::Carrier;
use crate::chamber::Chamber;
use crate::coefficients::Coefficients;
use crate::faults::OpenFault;
use crate::opening::opening;
use coxeter::group::Group;
use numbers::number::Number;

impl<'a, N: Number> Chamber<'a, N> {
    /// Can a chamber of this group be made over this row? It needs rank numbers, and a kind that holds φ where an exponent is 5.
    pub fn check(group: &Group, row: &[N]) -> Result<(), OpenFault>
        ensures { Checked (rank_of (matrix group.now)) (length row.now) (Carried N.Number.fits (matrix group.now)) result }
    {
        opening(row.len(), group.rank() as usize, || {
            N::holds_golden() || group.without_five()
        })
    }

    /// A chamber at home, behind an accepted check.
    pub fn make(group: Group, row: &'a mut [N]) -> Chamber<'a, N>
        requires { Opens (rank_of (matrix group)) (length row.old) (Carried N.Number.fits (matrix group)) }
        ensures frame { chamber_frame N.Number.fits result ≡ fitting_frame N.Number.fits (matrix group) }
        ensures home { chamber_at N.Number.value result [] }
        ensures reach { (w : Word) → Decides ((chamber_frame N.Number.fits result).reach w) (AllFit N.Number.fits (matrix group) w) }
        ensures beyond { chamber_beyond result ≡ drop (rank_of (matrix group)) row.old }
    {
        let coefficients = Coefficients::from(&group);
        let mut chamber = Chamber {
            group,
            coefficients,
            row,
        };
        chamber.home();
        chamber
    }
}
