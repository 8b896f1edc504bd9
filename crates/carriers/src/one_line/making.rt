//! How one-line notation is made: a check, and a making behind it.

ghost use Rattle.std.specs.Prelude.{◌≡◌, ◌+◌, [], length, drop, Decides};
ghost use Rattle.coxeter.specs.Groups.{rank as rank_of};
ghost use Rattle.coxeter.specs.Moves.{Word, Letters};
ghost use Rattle.coxeter.specs.Matrices.{matrix};
ghost use Rattle.coxeter.specs.Pairs.{Path};
ghost use Rattle.carriers.specs.Rows.{full_frame};
ghost use Rattle.carriers.specs.Openings.{Opens, Checked};
ghost use Rattle.carriers.specs.OneLines.{line_frame, line_at, line_beyond};

use crate::carrier::Carrier;
use crate::faults::OpenFault;
use crate::one_line::OneLine;
use crate::opening::opening;
use coxeter::group::Group;

impl<'a> OneLine<'a> {
    /// Can one-line notation of this group be kept in this row? It needs rank + 1 bytes, and a group of type A in its natural order.
    pub fn check(group: &Group, row: &[u8]) -> Result<(), OpenFault>
        ensures { Checked (rank_of (matrix group.now) + 1) (length row.now) (Path (matrix group.now)) result }
    {
        opening(row.len(), group.rank() as usize + 1, || group.is_path())
    }

    /// One-line notation at home, behind an accepted check.
    pub fn make(group: Group, row: &'a mut [u8]) -> OneLine<'a>
        requires { Opens (rank_of (matrix group) + 1) (length row.old) (Path (matrix group)) }
        ensures frame { line_frame result ≡ full_frame (matrix group) }
        ensures home { line_at result [] }
        ensures reach { (w : Word) → Decides ((line_frame result).reach w) (Letters (matrix group) w) }
        ensures beyond { line_beyond result ≡ drop (rank_of (matrix group) + 1) row.old }
    {
        let mut line = OneLine { group, row };
        line.home();
        line
    }
}
