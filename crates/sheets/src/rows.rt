// Reading a row: the exponents that its bytes spell.
ghost use Rattle.std.specs.Prelude.{◌<◌, length, MatchResult};
ghost use Rattle.sheets.specs.Rows.{row_text, after_text, Opens, Halts, Spells, Stops};

/// The first wrong byte of a row's text: the bytes before it begin a row.
#[derive(Clone, Copy, Debug, PartialEq)]
pub(crate) struct WrongByte {
    pub(crate) at: usize,
}

// The exponent that the bytes begin with, 0 for `inf`, and what follows it.
fn first<'a>(s: &'a [u8]) -> Result<(u8, &'a [u8]), WrongByte>
    ensures { MatchResult result (λ p. Opens s.now p.0 p.1.now) (λ e. Halts s.now e.at) }
{
    match s {
        [b'i', b'n', b'f', rest @ ..] => Ok((0, rest)),
        [b'i', b'n', ..] => Err(WrongByte { at: 2 }),
        [b'i', ..] => Err(WrongByte { at: 1 }),
        [d @ b'1'..=b'6', rest @ ..] => Ok((*d - b'0', rest)),
        _ => Err(WrongByte { at: 0 }),
    }
}

// Reads a row of as many exponents as `out` has, one at least.
#[cycle(row_tail)]
pub(crate) fn row(s: &[u8], out: &mut [u8]) -> Result<(), WrongByte>
    requires { 0 < length out.old }
    ensures { MatchResult result (λ _. Spells row_text s.now out.new) (λ e. Stops row_text (length out.old) s.now e.at) }
{
    let (e, after) = first(s)?;
    out[0] = e;
    tail(after, &mut out[1..]).map_err(|wrong| WrongByte {
        at: s.len() - after.len() + wrong.at,
    })
}

// Reads what follows the first exponent: as many as `out` has, each behind one space.
#[cycle(row_tail)]
fn tail(s: &[u8], out: &mut [u8]) -> Result<(), WrongByte>
    ensures { MatchResult result (λ _. Spells after_text s.now out.new) (λ e. Stops after_text (length out.old) s.now e.at) }
{
    match (s, out.is_empty()) {
        ([], true) => Ok(()),
        ([b' ', body @ ..], false) => row(body, out).map_err(|wrong| WrongByte {
            at: 1 + wrong.at,
        }),
        _ => Err(WrongByte { at: 0 }),
    }
}
