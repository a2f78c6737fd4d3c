use crate::names::Place;
use crate::pending::Pending;
use crate::stretch::Stretch;
use sl_defs::Bytes;
use sl_model::{Entry, Node};

/// One thing that a call changes in a volume.
#[derive(Drop)]
pub enum Change {
    /// The node of a fileid is this one; bytes past its size go.
    PutNode { fileid: u64, node: Node },
    /// An object goes, with its text, bytes and unstable writes.
    TakeNode(u64),
    /// A name leads to an object.
    PutName { place: Place, entry: Entry },
    /// A name goes.
    TakeName(Place),
    /// The text of a symbolic link.
    PutText { fileid: u64, text: Bytes },
    /// Bytes of a file.
    PutBytes(Stretch),
    /// An unstable write.
    AddWrite(Pending),
}
