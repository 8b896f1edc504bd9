//! Why a carrier refuses.

ghost use Rattle.std.specs.Prelude.{◌≡◌};
ghost use Rattle.carriers.specs.Faults.{step_report, open_report};

use refusals::layer::Layer;
use refusals::refusal::Refusal;
use refusals::report::Report;

/// Why a step is refused.
#[derive(Clone, Copy, Debug, PartialEq)]
pub enum StepFault {
    /// It is no letter of the group.
    Letter,
    /// The element that the step leads to is outside the reach.
    Reach,
}

impl Refusal for StepFault {
    ghost reported = { step_report };

    fn report(&self) -> Report {
        let (number, place) = match self {
            StepFault::Letter => (7, 0),
            StepFault::Reach => (11, 0),
        };
        Report {
            number,
            place,
            layer: Layer::Word,
        }
    }
}

/// Why a carrier cannot be made.
#[derive(Clone, Copy, Debug, PartialEq)]
pub enum OpenFault {
    /// The lent row is too short.
    Short,
    /// The carrier cannot carry this group.
    Kind,
}

impl Refusal for OpenFault {
    ghost reported = { open_report };

    fn report(&self) -> Report {
        let (number, place, layer) = match self {
            OpenFault::Short => (9, 0, Layer::Word),
            OpenFault::Kind => (6, 0, Layer::Sheet),
        };
        Report {
            number,
            place,
            layer,
        }
    }
}
