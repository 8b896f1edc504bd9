// Laws of reading lines, each stated as the contract of a function that does nothing.
ghost use Rattle.lines.specs.Laws.{OneLine, OneReading};

/// An input has one line at most of each number.
pub fn lines_are_determined()
    ensures { OneLine }
{}

/// Where a line is due, the same bytes are read in one way at most.
pub fn readings_are_determined()
    ensures { OneReading }
{}
