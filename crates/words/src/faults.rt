//! Why a call over a word is refused.

ghost use Rattle.std.specs.Prelude.{◌≡◌};
ghost use Rattle.words.specs.Faults.{word_report};

use refusals::layer::Layer;
use refusals::refusal::Refusal;
use refusals::report::Report;

/// The fault of a word, or of the buffer handed over with it.
#[derive(Clone, Copy, Debug, PartialEq)]
pub enum WordFault {
    /// The buffer is too short.
    Short,
    /// The word formed has more than 4,096 letters.
    TooLong,
    /// The letter at this index of the word formed is none of the group's.
    Letter(usize),
    /// An element passed is outside the carrier's reach.
    Reach(usize),
}

impl Refusal for WordFault {
    ghost reported = { word_report };

    fn report(&self) -> Report {
        let (number, place) = match *self {
            WordFault::Short => (9, 0),
            WordFault::TooLong => (8, 4096),
            WordFault::Letter(index) => (7, index),
            WordFault::Reach(index) => (11, index),
        };
        Report {
            number,
            place,
            layer: Layer::Word,
        }
    }
}
