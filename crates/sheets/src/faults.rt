// What a sheet is refused for.
ghost use Rattle.std.specs.Prelude.{◌≡◌};
ghost use Rattle.sheets.specs.declared.faults.SheetFault.{SheetFault};
ghost use Rattle.sheets.specs.Faults.{sheet_report};

use lines::faults::LineFault;
use refusals::layer::Layer;
use refusals::refusal::Refusal;
use refusals::report::Report;

/// The fault of a sheet: that of its line, or its own.
#[derive(Clone, Copy, Debug, PartialEq)]
pub enum SheetFault {
    /// The line itself is at fault.
    Line(LineFault),
    /// The rank is not one digit from 1 to 8.
    Rank,
    /// The row is not as many exponents as the rank; the place of its first wrong byte.
    Row(usize),
    /// An exponent may not stand where it does; its place.
    Entry(usize),
    /// The kind is unknown or cannot carry the group.
    Kind,
}

impl From<LineFault> for SheetFault {
    ghost from_gives = { λ f r. r ≡ SheetFault.Line f };

    fn from(value: LineFault) -> SheetFault {
        SheetFault::Line(value)
    }
}

impl Refusal for SheetFault {
    ghost reported = { sheet_report };

    fn report(&self) -> Report {
        let (number, place) = match *self {
            SheetFault::Line(fault) => return fault.report(),
            SheetFault::Rank => (3, 5),
            SheetFault::Row(at) => (4, at),
            SheetFault::Entry(at) => (5, at),
            SheetFault::Kind => (6, 5),
        };
        Report {
            number,
            place,
            layer: Layer::Sheet,
        }
    }
}
