// A reader of the input's lines, and a line with its number.
ghost use Rattle.std.specs.Prelude.{◌≡◌, ◌+◌, ◌≤◌, length};
ghost use Rattle.lines.specs.Places.{behind};

mod reading;

/// So many bytes of its input a program takes; a line that is cut there is unfinished.
pub const MOST_BYTES: usize = 65536;

/// A reader that has handed out the first `lines` lines of its input.
#[derive(Drop)]
pub struct Reader<'a> {
    input: &'a [u8],
    rest: &'a [u8],
    lines: usize,
    ghost place: { rest.now ≡ behind lines input.now },
    ghost few: { lines + length rest.now ≤ 65536 },
}

/// A line without its byte 10, and its number from 1.
#[derive(Clone, Copy)]
pub struct Numbered<'a> {
    pub number: usize,
    pub bytes: &'a [u8],
}
