use sl_defs::Time;
use sl_types::{Kind, Name};

/// An object: its attributes (RFC 1813, section 2.5, `fattr3`), and what the server keeps beside them.
#[derive(Clone, Copy, Debug, PartialEq, Eq)]
pub struct Node {
    pub kind: Kind,
    pub mode: u32,
    pub nlink: u32,
    pub uid: u32,
    pub gid: u32,
    /// In bytes. A directory's is 32 for each of its names.
    pub size: u64,
    /// The device's major number, 0 for what is no device.
    pub major: u32,
    /// The device's minor number, 0 for what is no device.
    pub minor: u32,
    /// The volume's number.
    pub fsid: u64,
    pub fileid: u64,
    pub atime: Time,
    pub mtime: Time,
    pub ctime: Time,
    /// The fileid of a directory's parent, which is the root's own for the root; 0 for all else.
    pub parent: u64,
    /// How many names a directory has, without `.` and `..`; 0 for all else.
    pub entries: u64,
    /// How many names were ever made in a directory; 0 for all else.
    pub made: u64,
    /// The verifier that the object was created with by an EXCLUSIVE create.
    pub verifier: Option<u64>,
}

/// What a name of a directory leads to.
#[derive(Clone, Copy, Debug, PartialEq, Eq)]
pub struct Entry {
    pub fileid: u64,
    pub kind: Kind,
    /// The name's place in listings of its directory.
    pub cookie: u64,
}

/// A line of a directory's listing.
#[derive(Drop, Debug)]
pub struct Listed {
    pub name: Name,
    pub fileid: u64,
    pub kind: Kind,
    pub cookie: u64,
}
