// Handing out the lines of the input, one after another.
ghost use Rattle.std.specs.Prelude.{◌≡◌, ◌<◌, [], length, take, Decides, MatchResult, OnOk};
ghost use Rattle.lines.specs.Reading.{Next, NoNext};

use super::{MOST_BYTES, Numbered, Reader};
use crate::bytes::cut;
use crate::faults::LineFault;
use crate::located::{Located, at};

impl<'a> Reader<'a> {
    /// A reader over the first 65,536 bytes of the input, at its first line.
    pub fn new(input: &'a [u8]) -> Reader<'a>
        ensures input { result.input.now ≡ take 65536 input.now }
        ensures rest { result.rest.now ≡ result.input.now }
        ensures lines { result.lines ≡ 0 }
    {
        let input = &input[..MOST_BYTES.min(input.len())];
        Reader {
            input,
            rest: input,
            lines: 0,
        }
    }

    /// The next line, or the fault that no byte 10 ends what is left.
    pub fn next(&mut self) -> Result<Numbered<'a>, Located<LineFault>>
        ensures line { MatchResult result (Next self.old self.new) (NoNext self.old self.new) }
        ensures shorter { OnOk result (length self.new.rest.now < length self.old.rest.now) }
    {
        let number = self.lines + 1;
        let found = cut(self.rest, b'\n').ok_or(LineFault::Unfinished(self.rest.len()));
        let (bytes, rest) = at(number, found)?;
        self.rest = rest;
        self.lines = number;
        Ok(Numbered { number, bytes })
    }

    /// Whether nothing is left of the input.
    pub fn is_done(&self) -> bool
        ensures { Decides result (self.now.rest.now ≡ []) }
    {
        self.rest.is_empty()
    }
}
