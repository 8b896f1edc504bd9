//! The theorems. Each function does nothing: its contract is the theorem, and the check asks for the proof.

ghost use Rattle.words.specs.Theorems.{DescentsAreDetermined, MeasuresAreDetermined, FormsAreDetermined};

/// The carrier's frame and the word determine what descents answers.
pub fn descents_are_determined()
    ensures { DescentsAreDetermined }
{}

/// The carrier's frame and the word formed determine what length and distance answer.
pub fn measures_are_determined()
    ensures { MeasuresAreDetermined }
{}

/// The carrier's frame, the word formed and the buffer determine what form, product and inverse answer and write.
pub fn forms_are_determined()
    ensures { FormsAreDetermined }
{}
