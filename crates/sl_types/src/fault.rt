/// Why arguments or results could not be read.
#[derive(Clone, Copy, Debug, PartialEq, Eq)]
pub enum ArgsFault {
    /// The bytes aren't in the grammar.
    Garbage,
    NoMemory,
}

/// Why a line could not be read.
#[derive(Clone, Copy, Debug, PartialEq, Eq)]
pub enum LineFault {
    /// The text isn't in the grammar.
    Bad,
    NoMemory,
}

/// Why a call ended that could do no more.
#[derive(Clone, Copy, Debug, PartialEq, Eq)]
pub enum Ended {
    NoMemory,
    /// A count that only rises, or a sum, would pass its type's end.
    Spent,
}
