use sl_datagram::Datagram;
use sl_defs::{Bytes, Time};

/// What a call's effect answers, and the event in which it was noted.
#[derive(Drop)]
pub struct Answer {
    pub event: u64,
    pub bytes: Bytes,
}

/// What came in an event, and what has become of it.
#[derive(Drop)]
pub struct Case {
    pub moment: Time,
    /// What the datagram is, where one arrived.
    pub datagram: Option<Datagram>,
    /// Whether the event notes that it is dropped.
    pub dropped: bool,
    /// The answer of the call's effect, where it has taken effect.
    pub effect: Option<Answer>,
    /// Whether the call has its reply.
    pub replied: bool,
}
