//! The chamber as a carrier.

ghost use Rattle.std.specs.Prelude.{◌≡◌};
ghost use Rattle.carriers.specs.Carriers.{BroughtHome, Laws, Stepped};
ghost use Rattle.carriers.specs.CarrierLaws.{chamber_laws};
ghost use Rattle.carriers.specs.Chambers.{chamber_frame, chamber_at, chamber_beyond};

use crate::carrier::Carrier;
use crate::chamber::Chamber;
use crate::faults::StepFault;
use crate::point::{is_negative_at, set_start, step_point};
use numbers::number::Number;

impl<'a, N: Number> Carrier for Chamber<'a, N> {
    ghost frame = { chamber_frame N.Number.fits };

    ghost at = { chamber_at N.Number.value };

    ghost laws = { λ c. chamber_laws N.Number.value c.group c.row.now c.wide N.Number.fits N.Number.unit N.Number.within };

    // rank and exponent hand on to the group. The trait provides neither, since then every carrier had to hold a `Group`.
    fn rank(&self) -> u8 {
        self.group.rank()
    }

    fn exponent(&self, s: u8, t: u8) -> u8 {
        self.group.exponent(s, t)
    }

    fn descends(&self, s: u8) -> bool {
        self.group.has_letter(s) && is_negative_at(self.row, s)
    }

    fn home(&mut self)
        ensures home { BroughtHome (chamber_frame N.Number.fits) (chamber_at N.Number.value) self.old self.new }
        ensures laws { Laws (chamber_frame N.Number.fits self.new) (chamber_at N.Number.value self.new) }
        ensures beyond { chamber_beyond self.new ≡ chamber_beyond self.old }
    {
        let n = self.group.rank() as usize;
        set_start(&mut self.row[..n]);
    }

    fn step(&mut self, s: u8) -> Result<(), StepFault>
        ensures told { Stepped (chamber_frame N.Number.fits) (chamber_at N.Number.value) self.old self.new s result }
        ensures laws { Laws (chamber_frame N.Number.fits self.new) (chamber_at N.Number.value self.new) }
        ensures beyond { chamber_beyond self.new ≡ chamber_beyond self.old }
    {
        if !self.group.has_letter(s) {
            return Err(StepFault::Letter);
        }
        let n = self.group.rank() as usize;
        let column = self.coefficients.columns[s as usize - 1];
        step_point(&mut self.row[..n], &column, s)
    }
}
