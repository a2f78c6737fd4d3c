//! A GETATTR call that waits for its answer.
use sl_types::{Bytes, Cred, Handle};

/// A GETATTR call whose request is out: whose it is, the datagram, the call's number, the caller, the object, and the
/// request's tag and receiver.
#[derive(Drop, Debug)]
pub struct Look {
    pub client: u32,
    pub packet: Bytes,
    pub xid: u32,
    pub cred: Cred,
    pub handle: Handle,
    pub tag: u64,
    pub to: u8,
}
