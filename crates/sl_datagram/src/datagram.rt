use sl_types::{Bytes, Call, Cred};

/// A call as it stands in a datagram (RFC 5531, section 9).
#[derive(Drop, Debug)]
pub struct Asked {
    pub xid: u32,
    pub procedure: u32,
    pub call: Call,
    /// Whom it is made for.
    pub cred: Cred,
}

/// What a datagram is.
#[derive(Drop, Debug)]
pub enum Datagram {
    /// No call header stands in it, whole.
    Junk,
    /// This is its answer, whatever the server holds: the call is refused, its arguments can't be read, or it is NULL.
    Answered(Bytes),
    /// A call of NFS version 3 other than NULL, with its arguments.
    Asked(Asked),
}
