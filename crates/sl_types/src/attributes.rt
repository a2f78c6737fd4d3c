use crate::kind::Kind;
use sl_defs::Time;

/// The attributes of an object (RFC 1813, section 2.5, `fattr3`).
#[derive(Clone, Copy, Debug, PartialEq, Eq)]
pub struct Fattr {
    pub kind: Kind,
    pub mode: u32,
    pub nlink: u32,
    pub uid: u32,
    pub gid: u32,
    /// In bytes.
    pub size: u64,
    /// In bytes.
    pub used: u64,
    /// The device's major number, 0 for what is no device.
    pub major: u32,
    /// The device's minor number, 0 for what is no device.
    pub minor: u32,
    pub fsid: u64,
    pub fileid: u64,
    pub atime: Time,
    pub mtime: Time,
    pub ctime: Time,
}

/// What a call sets a time to.
#[derive(Clone, Copy, Debug, PartialEq, Eq)]
pub enum SetTime {
    /// It stays.
    Keep,
    /// The server's own time.
    Server,
    /// This time, of the client's.
    Client(Time),
}

/// The attributes that a call sets (RFC 1813, section 2.5, `sattr3`).
#[derive(Clone, Copy, Debug, PartialEq, Eq)]
pub struct Sattr {
    pub mode: Option<u32>,
    pub uid: Option<u32>,
    pub gid: Option<u32>,
    pub size: Option<u64>,
    pub atime: SetTime,
    pub mtime: SetTime,
}
