// A fault with the number of its line.
ghost use Rattle.std.specs.Prelude.{◌≡◌};
ghost use Rattle.lines.specs.Located.{located};

/// A fault and the number, from 1, of the line where it was found.
#[derive(Clone, Copy, Debug, PartialEq)]
pub struct Located<F> {
    pub line: usize,
    pub fault: F,
}

/// The answer found at a line: its fault, if it is one, with the line's number.
pub fn at<T, F>(line: usize, r: Result<T, F>) -> Result<T, Located<F>>
    ensures { result ≡ located line r }
{
    r.map_err(|fault| Located { line, fault })
}
