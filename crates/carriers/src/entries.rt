//! A lent row of entries: a permutation in one-line notation.

ghost use Rattle.std.specs.Prelude.{◌≡◌, ℕ, ◌+◌, ◌<◌, ◌≤◌, length, slice_index};

/// Makes the entries 1, 2, 3 and so on, rising.
pub(crate) fn set_rising(row: &mut [u8])
    requires { length row.old ≤ 255 }
    ensures { (i : ℕ) → i < length row.old → slice_index row.new i ≡ i + 1 }
{
    for (i, x) in row.iter_mut().enumerate() {
        *x = i as u8 + 1;
    }
}
