use crate::bytes::Bytes;
use crate::setup::{Setup, Time};

/// What happens to the world, at one moment: an event of a schedule.
#[derive(Drop, Debug)]
pub enum Event {
    /// A client's datagram arrives.
    Call { client: u32, datagram: Bytes },
    /// The frame of this number is given, and is no longer in flight.
    Give(u64),
    /// The frame of this number is given, and stays in flight.
    Copy(u64),
    /// The frame of this number is lost.
    Drop(u64),
    /// The proxy and the coordinator tick.
    Tick,
    /// This actor stops between two calls of its disk, which is left with this image.
    Stop { actor: u8, image: u64 },
    /// This actor is opened.
    Start(u8),
    /// This actor stops inside its so-manieth call of its disk from now.
    Fuse { actor: u8, after: u64, image: u64 },
    /// This actor's so-manieth call of its disk from now fails.
    Fail { actor: u8, after: u64 },
}

/// A line of a schedule.
#[derive(Drop, Debug)]
pub enum Line {
    /// The volume, which is the first line.
    Volume(Setup),
    /// The moment from here on.
    At(Time),
    /// An event.
    Happens(Event),
    /// Up to so many times, the oldest frame in flight is given.
    Flow(u32),
    /// A line that begins with `=`, with what stands behind it. It is passed over.
    Remark(Bytes),
}
