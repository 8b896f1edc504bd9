// What every fault answers, whatever its layer.
ghost use Rattle.std.specs.Prelude.{◌≡◌};
ghost use Rattle.refusals.specs.declared.layer.Layer.{Layer};
ghost use Rattle.refusals.specs.declared.report.Report.{Report};

use crate::layer::Layer;
use crate::report::Report;

/// A fault that is reported by a number, a place and the layer where it arose.
pub trait Refusal {
    /// What is reported of the fault.
    ghost reported: { Self → Report };

    /// The report of the fault. An impl writes this function alone.
    fn report(&self) -> Report
        ensures { result ≡ reported self.now };

    /// The number by which the refusal is known.
    fn number(&self) -> u8
        ensures { result ≡ (reported self.now).number }
    {
        self.report().number
    }

    /// Where it was found; what is counted depends on the fault.
    fn place(&self) -> usize
        ensures { result ≡ (reported self.now).place }
    {
        self.report().place
    }

    /// The layer where it arose.
    fn layer(&self) -> Layer
        ensures { result ≡ (reported self.now).layer }
    {
        self.report().layer
    }
}
