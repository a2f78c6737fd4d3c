use crate::bytes::Bytes;
use crate::setup::Time;

/// What the server may choose of a call's effect.
#[derive(Clone, Copy, Debug, PartialEq, Eq)]
pub struct Choice {
    /// The fileid of the object that the call makes, 0 where it makes none.
    pub fileid: u64,
    /// Whether an unstable WRITE is made stable at once.
    pub kept: bool,
}

/// A note of a transcript. Calls are named by the numbers of the events in which they arrived.
#[derive(Drop, Debug)]
pub enum Printed {
    /// The frame of this number was sent.
    Sent {
        frame: u64,
        bytes: Bytes,
    },
    /// The call took effect at this moment.
    Did {
        arrival: u64,
        at: Time,
        choice: Choice,
    },
    /// The unstable writes of the file with this fileid became stable.
    Flush(u64),
    /// All unstable writes are forgotten, and this is the write verifier.
    Verf(u64),
    /// The reply to the call's client, whose answer is that of an event.
    Reply {
        arrival: u64,
        event: u64,
        bytes: Bytes,
    },
    /// The datagram is no call, and was dropped.
    Junk(u64),
    /// The call came before the proxy was welcomed, and was dropped.
    Early(u64),
    /// The call came while too many were pending, and was dropped.
    Full(u64),
    /// The datagram found the proxy down.
    Lost(u64),
    /// This actor went down, or could not be opened.
    Down(u8),
}
