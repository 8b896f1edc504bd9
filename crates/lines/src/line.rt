// The kinds of lines, with the words that they borrow from the input.

/// Which line comes next.
#[derive(Clone, Copy, Debug, PartialEq)]
pub enum Due {
    Rank,
    /// The row of this number, from 1.
    Row(u8),
    Kind,
    Job,
}

/// A job, with its word or words.
#[derive(Clone, Copy)]
pub enum Job<'a> {
    Form(&'a [u8]),
    Inverse(&'a [u8]),
    Length(&'a [u8]),
    Descents(&'a [u8]),
    File(&'a [u8]),
    Withdraw(&'a [u8]),
    Tally(&'a [u8]),
    Product(&'a [u8], &'a [u8]),
    Distance(&'a [u8], &'a [u8]),
    Sum,
}

/// A line of a sheet, with its value, or a job's line.
#[derive(Clone, Copy)]
pub enum Line<'a> {
    Rank(&'a [u8]),
    /// The number of the row, and its value.
    Row(u8, &'a [u8]),
    Kind(&'a [u8]),
    Job(Job<'a>),
}
