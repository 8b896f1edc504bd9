//! The theorems. Each function does nothing: its contract is the theorem, and the check asks for the proof.
//! They say that the relations by which rows and sheets are described leave one answer for every input.

ghost use Rattle.sheets.specs.Theorems.{RowsSpellOnce, LinesAnsweredOnce, KindsAnsweredOnce, OneSheet, ReadOrRefused, OneRefusal};

/// Bytes spell one row of exponents at most.
pub fn rows_spell_once()
    ensures { RowsSpellOnce }
{}

/// Behind right lines, a line leads a draft on in one way at most, or is refused for one fault at most, and not both.
pub fn lines_answered_once()
    ensures { LinesAnsweredOnce }
{}

/// The kind's line makes one checked draft at most, and then it is not refused.
pub fn kinds_answered_once()
    ensures { KindsAnsweredOnce }
{}

/// The lines that a reader has before it describe one group and one kind at most, and the sheet ends at one place.
pub fn one_sheet()
    ensures { OneSheet }
{}

/// A sheet that is read is not refused.
pub fn read_or_refused()
    ensures { ReadOrRefused }
{}

/// A sheet is refused at one line at most, for one fault, and the reader is left at one place.
pub fn one_refusal()
    ensures { OneRefusal }
{}
