// What a line is refused for.
ghost use Rattle.lines.specs.Faults.{line_report};

use refusals::layer::Layer;
use refusals::refusal::Refusal;
use refusals::report::Report;

/// The fault of a line.
#[derive(Clone, Copy, Debug, PartialEq)]
pub enum LineFault {
    /// No byte 10 ends it; so many bytes are there.
    Unfinished(usize),
    /// Its key is not due here or is missing, it has a wrong count of `/`, or a value at `sum`.
    Unexpected,
}

impl Refusal for LineFault {
    ghost reported = { line_report };

    fn report(&self) -> Report {
        let (number, place) = match *self {
            LineFault::Unfinished(length) => (1, length),
            LineFault::Unexpected => (2, 0),
        };
        Report {
            number,
            place,
            layer: Layer::Line,
        }
    }
}
