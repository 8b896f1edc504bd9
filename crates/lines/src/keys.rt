// The line that the bytes of a line spell where one is due.
ghost use Rattle.std.specs.Prelude.{◌≡◌, ◌≤◌, MatchOption, MatchResult};
ghost use Rattle.lines.specs.Cuts.{Cut, Free};
ghost use Rattle.lines.specs.Lines.{IsLine, NoLine, NoReading, Reads, row_key_bytes};

use crate::bytes::cut;
use crate::faults::LineFault;
use crate::jobs::job;
use crate::line::{Due, Line};

// The key of row `n`, for the rows 1 to 8.
fn row_key(n: u8) -> Option<&'static [u8]>
    ensures { MatchOption result (1 ≤ n → n ≤ 8 → ⊥) (λ k. (1 ≤ n) × (n ≤ 8) × (k.now ≡ row_key_bytes n)) }
{
    match n {
        1 => Some(b"row1"),
        2 => Some(b"row2"),
        3 => Some(b"row3"),
        4 => Some(b"row4"),
        5 => Some(b"row5"),
        6 => Some(b"row6"),
        7 => Some(b"row7"),
        8 => Some(b"row8"),
        _ => None,
    }
}

// The line that the key and the value spell where `due` is due.
fn keyed<'a>(due: Due, key: &[u8], value: &'a [u8]) -> Option<Line<'a>>
    ensures { MatchOption result (NoLine due key.now value.now) (IsLine due key.now value.now) }
{
    match (due, key) {
        (Due::Rank, b"rank") => Some(Line::Rank(value)),
        (Due::Row(n), _) if key == row_key(n)? => Some(Line::Row(n, value)),
        (Due::Kind, b"kind") => Some(Line::Kind(value)),
        (Due::Job, _) => job(key, value).map(Line::Job),
        _ => None,
    }
}

/// The key and the value of a line: what stands before and behind its first `=`.
pub fn split(line: &[u8]) -> Option<(&[u8], &[u8])>
    ensures { MatchOption result (Free 61 line.now) (λ p. Cut 61 line.now p.0.now p.1.now) }
{
    cut(line, b'=')
}

/// The line that the bytes spell where `due` is due.
// Which line is due goes in and that case comes out: one enum of lines, whose cases borrow from the input, serves every caller.
pub fn read<'a>(due: Due, line: &'a [u8]) -> Result<Line<'a>, LineFault>
    ensures { MatchResult result (Reads due line.now) (λ e. (e ≡ LineFault.Unexpected) × NoReading due line.now) }
{
    split(line)
        .and_then(|(key, value)| keyed(due, key, value))
        .ok_or(LineFault::Unexpected)
}
