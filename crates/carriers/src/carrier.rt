//! The interface of every carrier.

ghost use Rattle.std.specs.Prelude.{◌≡◌, false, Decides};
ghost use Rattle.coxeter.specs.Groups.{Letter, answered_exponent, rank as rank_of};
ghost use Rattle.coxeter.specs.Moves.{Word};
ghost use Rattle.coxeter.specs.Lengths.{Descends};
ghost use Rattle.carriers.specs.Frames.{Frame};
ghost use Rattle.carriers.specs.Carriers.{Laws, BroughtHome, Stepped};

use crate::faults::StepFault;

/// A carrier stands for one element of one group.
///
/// What it means has three parts: the group; the *reach*, a fixed set of elements of the group with the identity
/// in it; and one element in reach, told by any of its words. `home` and `step` change the element alone, the
/// three questions change nothing.
pub trait Carrier {
    /// The group and the reach.
    ghost frame: { Self → Frame };

    /// It stands at the element of this word.
    ghost at: { Self → Word → Type 0 };

    /// How many letters the group has.
    fn rank(&self) -> u8
        ensures told { result ≡ rank_of (frame self.now).group }
        ensures laws { Laws (frame self.now) (at self.now) };

    /// The exponent of s and t: 0 for inf, 255 where one of them is no letter.
    // A number and not an enum: 0 and 255 are fixed by the interface, for every carrier.
    fn exponent(&self, s: u8, t: u8) -> u8
        ensures { result ≡ answered_exponent (frame self.now).group s t };

    /// Is the element times s shorter? No for what is no letter.
    fn descends(&self, s: u8) -> bool
        ensures told { (w : Word) → at self.now w → Decides result (Letter (frame self.now).group s × Descends (frame self.now).group w s) }
        ensures outside { ¬ Letter (frame self.now).group s → result ≡ false };

    /// Makes the element the identity.
    fn home(&mut self)
        ensures home { BroughtHome frame at self.old self.new }
        ensures laws { Laws (frame self.new) (at self.new) };

    /// Makes the element the element times s; a refusal changes nothing.
    fn step(&mut self, s: u8) -> Result<(), StepFault>
        ensures told { Stepped frame at self.old self.new s result }
        ensures laws { Laws (frame self.new) (at self.new) };

    /// The laws hold of every carrier. A call through `dyn Carrier` can't cite them, so `rank`, `home` and `step` tell them too.
    ghost laws: { (c : Self) → Laws (frame c) (at c) };
}
