//! The plain types of the protocol: NFS version 3's objects, calls and replies (RFC 1813), and file handles.
#![tactic(auto)]

mod attributes;
mod call;
mod cred;
mod entries;
mod fault;
mod front;
mod handle;
mod kind;
mod names;
mod reply;
mod writes;

pub use attributes::{Fattr, Sattr, SetTime};
pub use call::{Call, CreateHow, Device, NodeData, Stable};
pub use cred::{Cred, Gids};
pub use entries::{Entries, EntriesPlus, Entry, EntryPlus};
pub use fault::{ArgsFault, Ended, LineFault};
pub use handle::{Handle, InternalHandle, handles_are_read_again, internal_handles_are_read_again};
pub use kind::{Kind, Status};
pub use names::{Fh, Name};
pub use reply::{
    AccessOk, AttrFault, CommitOk, FsinfoOk, FsstatOk, LookupOk, MakeOk, PathconfOk, ReadOk,
    ReaddirOk, ReaddirplusOk, ReadlinkOk, Reply, Wcc, WccFault, WriteOk,
};
pub use sl_defs::{Bytes, Choice, NoMemory, Policy, Setup, Time};
pub use writes::{ActorSet, Mark, Write, Writes};

#[cfg(test)]
mod tests;
