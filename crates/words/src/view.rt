//! The word that a call forms from the words that it is given.

ghost use Rattle.std.specs.Prelude.{◌≡◌, length};
ghost use Rattle.std.specs.Iterator.{YieldsFirst, item_count};
ghost use Rattle.words.specs.Views.{letters_of};

/// The word formed, read where the words given stand: an iterator over its letters.
#[derive(Clone, Copy)]
pub(crate) enum Formed<'a> {
    /// The word itself.
    Plain(&'a [u8]),
    /// The word read from its end.
    Reversed(&'a [u8]),
    /// The first word, then the second.
    Joined(&'a [u8], &'a [u8]),
    /// The first word read from its end, then the second.
    Between(&'a [u8], &'a [u8]),
}

impl<'a> Formed<'a> {
    /// How many letters it has.
    pub(crate) fn len(self) -> usize
        ensures { result ≡ length (letters_of self.entry) }
    {
        match self {
            Formed::Plain(a) | Formed::Reversed(a) => a.len(),
            Formed::Joined(a, b) | Formed::Between(a, b) => a.len() + b.len(),
        }
    }
}

impl<'a> Iterator for Formed<'a> {
    type Item = u8;

    ghost next_gives = { YieldsFirst letters_of };

    ghost remaining = { item_count letters_of };

    fn next(&mut self) -> Option<u8> {
        match self {
            Formed::Plain(a) => a.split_off_first().copied(),
            Formed::Reversed(a) => a.split_off_last().copied(),
            // By a match: nothing is known of `b` behind an `or_else` whose closure changes it.
            Formed::Joined(a, b) => match a.split_off_first() {
                Some(s) => Some(*s),
                None => b.split_off_first().copied(),
            },
            Formed::Between(a, b) => match a.split_off_last() {
                Some(s) => Some(*s),
                None => b.split_off_first().copied(),
            },
        }
    }
}
