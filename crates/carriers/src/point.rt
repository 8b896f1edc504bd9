//! A point in a lent row: its start, its step and the sign of a number, for every kind of number.

ghost use Rattle.std.specs.Prelude.{◌≡◌, ℕ, ◌<◌, ◌≤◌, map, length, pos, slice_index_or};
ghost use Rattle.coxeter.specs.Numbers.{integer, negative};
ghost use Rattle.carriers.specs.Rows.{nought, numbers};
ghost use Rattle.carriers.specs.Steps.{Advanced};

use crate::faults::StepFault;
use numbers::coefficient::Coefficient;
use numbers::number::Number;

/// Makes every number 1.
pub(crate) fn set_start<N: Number>(row: &mut [N])
    ensures { (i : ℕ) → i < length row.old → slice_index_or (map N.Number.value row.new) i nought ≡ integer (pos 1) }
{
    let one = N::one();
    for x in row.iter_mut() {
        *x = one;
    }
}

/// Is the number of the letter s negative?
pub(crate) fn is_negative_at<N: Number>(row: &[N], s: u8) -> bool
    requires { (1 ≤ s) × (s ≤ length row.now) }
    ensures { result ≡ negative (numbers (map N.Number.value row.now) s) }
{
    row[s as usize - 1].is_negative()
}

/// Takes a row to the point after the letter s, whose column this is, unless a number does not fit.
/// All of them are tested before one is written.
pub(crate) fn step_point<N: Number>(
    row: &mut [N],
    column: &[Coefficient; 8],
    s: u8,
) -> Result<(), StepFault>
    requires { (1 ≤ s) × (s ≤ length row.old) × (length row.old ≤ 8) }
    ensures { Advanced N.Number.value N.Number.fits column.now s row.old row.new result }
{
    let by = row[s as usize - 1];
    // `fresh` is read and written by index, in one function: a generic array can be neither lent as a slice, nor zipped, nor
    // answered without a proof that its type is small.
    let mut fresh = [by; 8];
    for (i, x) in row.iter().enumerate() {
        fresh[i] = x.minus_multiple(column[i], by).ok_or(StepFault::Reach)?;
    }
    for (k, x) in row.iter_mut().enumerate() {
        *x = fresh[k];
    }
    Ok(())
}
