//! The coefficients c(a,s) of a group, worked out once.

ghost use Rattle.coxeter.specs.Groups.{Letter};
ghost use Rattle.coxeter.specs.Matrices.{matrix};
ghost use Rattle.carriers.specs.Tables.{Column, Table};

use coxeter::group::Group;
use numbers::coefficient::Coefficient;

/// The coefficients c(a,s) of every letter a, and 0 behind them.
fn column_of(group: &Group, s: u8) -> [Coefficient; 8]
    ensures { Letter (matrix group.now) s → Column (matrix group.now) s result }
{
    // A loop over the letters here and below: `from_fn` would work out all eight places, whatever the rank.
    let mut column = [Coefficient::zero(); 8];
    for i in 0..group.rank() {
        let a = i + 1;
        column[i as usize] = Coefficient::of_exponent(group.exponent(a, s), a < s);
    }
    column
}

/// The coefficients of a group: c(a,s) stands at columns[s − 1][a − 1].
// A fixed table: a column for each letter that a rank can have.
#[derive(Clone, Copy)]
pub(crate) struct Coefficients {
    pub(crate) columns: [[Coefficient; 8]; 8],
}

impl From<&Group> for Coefficients {
    ghost from_gives = { λ g c. Table (matrix g.now) c.columns };

    fn from(group: &Group) -> Coefficients {
        let mut columns = [[Coefficient::zero(); 8]; 8];
        for i in 0..group.rank() {
            columns[i as usize] = column_of(group, i + 1);
        }
        Coefficients { columns }
    }
}
