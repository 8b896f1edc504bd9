//! One-line notation as a carrier.

ghost use Rattle.std.specs.Prelude.{◌≡◌};
ghost use Rattle.carriers.specs.Carriers.{BroughtHome, Laws, Stepped};
ghost use Rattle.carriers.specs.CarrierLaws.{line_laws};
ghost use Rattle.carriers.specs.OneLines.{line_frame, line_at, line_beyond};

use crate::carrier::Carrier;
use crate::entries::set_rising;
use crate::faults::StepFault;
use crate::one_line::OneLine;

impl<'a> Carrier for OneLine<'a> {
    ghost frame = { line_frame };

    ghost at = { line_at };

    ghost laws = { λ c. line_laws c.group c.row.now };

    // rank and exponent hand on to the group. The trait provides neither, since then every carrier had to hold a `Group`.
    fn rank(&self) -> u8 {
        self.group.rank()
    }

    fn exponent(&self, s: u8, t: u8) -> u8 {
        self.group.exponent(s, t)
    }

    fn descends(&self, s: u8) -> bool {
        self.group.has_letter(s) && self.row[s as usize] < self.row[s as usize - 1]
    }

    fn home(&mut self)
        ensures home { BroughtHome line_frame line_at self.old self.new }
        ensures laws { Laws (line_frame self.new) (line_at self.new) }
        ensures beyond { line_beyond self.new ≡ line_beyond self.old }
    {
        let n = self.group.rank() as usize;
        set_rising(&mut self.row[..n + 1]);
    }

    fn step(&mut self, s: u8) -> Result<(), StepFault>
        ensures told { Stepped line_frame line_at self.old self.new s result }
        ensures laws { Laws (line_frame self.new) (line_at self.new) }
        ensures beyond { line_beyond self.new ≡ line_beyond self.old }
    {
        if !self.group.has_letter(s) {
            return Err(StepFault::Letter);
        }
        let s = s as usize;
        self.row.swap(s - 1, s);
        Ok(())
    }
}
