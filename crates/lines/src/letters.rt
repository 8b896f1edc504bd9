// The letter that a byte stands for.
ghost use Rattle.std.specs.Prelude.{◌≡◌};
ghost use Rattle.lines.specs.Letters.{letter_of};

/// The letter of a byte: a digit is its number, any other byte is letter 0.
// 0 and not None: by the format every byte is a letter, and one that is no digit is letter 0, which no group has.
pub fn letter(byte: u8) -> u8
    ensures { result ≡ letter_of byte }
{
    match byte {
        b'0'..=b'9' => byte - b'0',
        _ => 0,
    }
}
