/// Why it could not be said whether a history is legal.
#[derive(Clone, Copy, Debug, PartialEq, Eq)]
pub enum RefereeFault {
    NoMemory,
    /// A call that the one server performs would put a number that passes the end of its type.
    Spent,
    /// A part of the one server's reply is longer than a packet can say, or its failure has the status OK.
    TooLong,
}
