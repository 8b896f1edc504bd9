// What each line adds to a draft, and what it is refused for.
ghost use Rattle.std.specs.Prelude.{◌≡◌, ℕ, ◌+◌, ◌≤◌, [], ◌∷◌, ◌++◌, take, codes, MatchOption, MatchResult, ◌≢◌};
ghost use Rattle.sheets.specs.Rows.{row_text, Spells, Stops};
ghost use Rattle.sheets.specs.Filling.{part};
ghost use Rattle.lines.specs.Lines.{row_key_bytes};
ghost use Rattle.sheets.specs.Texts.{keyed, digit};
ghost use Rattle.sheets.specs.Stages.{rank_due, Advances, Refuses, Drafted};
ghost use Rattle.sheets.specs.Drafts.{rows_stage, kind_stage, draft_stage, FitsNext, Checked};

use crate::drafts::{CheckedDraft, Draft, KindDraft, RowsDraft, Sheet};
use crate::faults::SheetFault;
use crate::kinds::Kind;
use crate::rows::row;
use coxeter::group::Group;
use lines::keys::read;
use lines::line::{Due, Line};

// The rank that the value spells: one digit from 1 to 8.
// Not TryFrom: a rank is a bare number, and there is no type of its own to turn the text into.
fn rank_of(value: &[u8]) -> Option<u8>
    ensures { MatchOption result ((n : ℕ) → 1 ≤ n → n ≤ 8 → value.now ≢ digit n) (λ n. (1 ≤ n) × (n ≤ 8) × (value.now ≡ digit n)) }
{
    match value {
        [d @ b'1'..=b'8'] => Some(*d - b'0'),
        _ => None,
    }
}

impl RowsDraft {
    /// The draft of the line `rank=N`.
    pub fn open(line: &[u8]) -> Result<RowsDraft, SheetFault>
        ensures { MatchResult result (λ d. Advances rank_due line.now (rows_stage d)) (Refuses rank_due line.now) }
    {
        let Line::Rank(value) = read(Due::Rank, line)? else {
            unreachable!()
        };
        let rank = rank_of(value).ok_or(SheetFault::Rank)?;
        Ok(RowsDraft {
            rank,
            done: 0,
            rows: [[0; 8]; 8],
        })
    }

    /// The draft with one row more, by its line.
    pub fn row(self, line: &[u8]) -> Result<Draft, SheetFault>
        ensures { MatchResult result (λ d. Advances (rows_stage self) line.now (draft_stage d)) (Refuses (rows_stage self) line.now) }
    {
        let Line::Row(_, value) = read(Due::Row(self.done + 1), line)? else {
            unreachable!()
        };
        self.add(value)
    }

    // The draft with the row that the value spells.
    fn add(self, value: &[u8]) -> Result<Draft, SheetFault>
        ensures { MatchResult result (λ d. Advances (rows_stage self) (keyed (row_key_bytes (self.done + 1)) value.now) (draft_stage d)) (Refuses (rows_stage self) (keyed (row_key_bytes (self.done + 1)) value.now)) }
    {
        let row = self.next_row(value)?;
        match self.misfit(&row[..self.rank as usize]) {
            Some(k) => Err(SheetFault::Entry(5 + k)),
            None => Ok(self.with_row(row)),
        }
    }

    // The row of `rank` exponents that the value spells, and more entries up to eight.
    fn next_row(&self, value: &[u8]) -> Result<[u8; 8], SheetFault>
        ensures { MatchResult result (λ new. Spells row_text value.now (take self.now.rank new)) (λ e. (k : ℕ) × (e ≡ SheetFault.Row (5 + k)) × Stops row_text self.now.rank value.now k) }
    {
        let mut new = [0; 8];
        row(value, &mut new[..self.rank as usize]).map_err(|wrong| SheetFault::Row(5 + wrong.at))?;
        Ok(new)
    }

    // The draft with this row, whose exponents may stand there.
    fn with_row(self, row: [u8; 8]) -> Draft
        requires { FitsNext self (take self.rank row) }
        ensures { Drafted self.rank (part self.rank self.done self.rows ++ take self.rank row ∷ []) (draft_stage result) }
    {
        let RowsDraft {
            rank,
            done,
            mut rows,
        } = self;
        rows[done as usize] = row;
        if done + 1 < rank {
            Draft::Rows(RowsDraft {
                rank,
                done: done + 1,
                rows,
            })
        } else {
            Draft::Kind(KindDraft {
                group: Group::make(rank, rows),
            })
        }
    }
}

impl KindDraft {
    /// The draft with its kind, by the line `kind=K`.
    pub fn kind(self, line: &[u8]) -> Result<CheckedDraft, SheetFault>
        ensures { MatchResult result (λ d. Checked self line.now d) (Refuses (kind_stage self) line.now) }
    {
        let Line::Kind(value) = read(Due::Kind, line)? else {
            unreachable!()
        };
        self.name(value)
    }

    // The draft with the kind that the value names.
    fn name(self, value: &[u8]) -> Result<CheckedDraft, SheetFault>
        ensures { MatchResult result (λ d. Checked self (keyed (codes "kind") value.now) d) (Refuses (kind_stage self) (keyed (codes "kind") value.now)) }
    {
        let KindDraft { group } = self;
        let kind = Kind::try_from(value)?;
        if !kind.carries(&group) {
            return Err(SheetFault::Kind);
        }
        Ok(CheckedDraft {
            sheet: Sheet { group, kind },
        })
    }
}

impl CheckedDraft {
    /// The finished sheet.
    pub fn finish(self) -> Sheet
        ensures { result ≡ self.sheet }
    {
        self.sheet
    }
}

impl Sheet {
    /// The group that the sheet describes.
    pub fn group(&self) -> Group
        ensures { result ≡ self.now.group }
    {
        self.group
    }

    /// The kind of carrier that the sheet asks for.
    pub fn kind(&self) -> Kind
        ensures { result ≡ self.now.kind }
    {
        self.kind
    }
}
