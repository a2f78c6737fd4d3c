/// How a run ended.
#[derive(Clone, Copy, Debug, PartialEq, Eq)]
pub enum Status {
    /// The source was read to its end, and every line was performed.
    Done,
    /// The source failed.
    ReadFault,
    /// The sink failed.
    WriteFault,
    /// This line, from 1, is the first that is outside the grammar, or names a frame that isn't in flight.
    BadLine(u64),
    NoMemory,
    /// The words aren't those of a command.
    BadWords,
    /// The source gave more than 67108864 bytes.
    TooLong,
    /// This line, from 1, is the first that asks for what isn't built.
    Unbuilt(u64),
    /// A count would pass its last value.
    Spent,
}

/// Why a line was not performed.
#[derive(Clone, Copy, Debug, PartialEq, Eq)]
pub enum Stop {
    WriteFault,
    Bad,
    Unbuilt,
    Spent,
    NoMemory,
}

/// Why the source was not read to its end.
#[derive(Clone, Copy, Debug, PartialEq, Eq)]
pub enum ReadEnd {
    ReadFault,
    TooLong,
    NoMemory,
}
