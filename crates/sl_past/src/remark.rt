use sl_defs::{Bytes, Choice, Time};
use sl_frames::Frame;

/// What is noted of a turn. Calls are named by the numbers of the events in which they arrived.
#[derive(Drop, Debug)]
pub enum Remark {
    /// The frame of this number was sent.
    Sent {
        number: u64,
        frame: Frame,
    },
    /// The call took effect at this moment.
    Did {
        arrival: u64,
        at: Time,
        choice: Choice,
    },
    /// The unstable writes of the file with this fileid became stable.
    Flush(u64),
    /// All unstable writes are lost, and this is the write verifier.
    Verf(u64),
    /// The reply to the call's client, whose answer is that of an event.
    Replied {
        arrival: u64,
        event: u64,
        bytes: Bytes,
    },
    /// The datagram is no call, and was dropped.
    Junk(u64),
    /// The call came before the proxy was welcomed, and was dropped.
    Early(u64),
    /// The call came while too many waited, and was dropped.
    Full(u64),
    /// The datagram found the proxy down.
    Lost(u64),
    /// This actor went down, or could not be opened.
    Down(u8),
}
