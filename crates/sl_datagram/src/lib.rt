//! What a datagram is: no call, a call that is answered whatever the server holds, or one that asks something of it
//! (RFC 5531, section 9; RFC 1813, section 3.3).
#![tactic(auto)]

mod calls;
mod datagram;
mod reading;

pub use calls::{fileid_of, is_changing, may_change};
pub use datagram::{Asked, Datagram};
pub use reading::read_datagram;

#[cfg(test)]
mod tests;
