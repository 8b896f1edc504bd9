// The letters of a word, as its bytes give them.
ghost use Rattle.std.specs.Prelude.{◌≡◌, map, IfOk};
ghost use Rattle.lines.specs.Letters.{letter_of};

use lines::letters::letter;
use std::alloc::{AllocError, Global};

/// The letters that the bytes stand for, one for each.
pub fn letters(heap: Global, bytes: &[u8]) -> Result<Vec<u8>, AllocError>
    ensures { IfOk result (λ v. v.items ≡ map letter_of bytes.now) }
{
    bytes.iter().copied().map(letter).collect(heap)
}
