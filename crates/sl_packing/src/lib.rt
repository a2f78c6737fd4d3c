//! Replies as the packets that carry them.
#![tactic(auto)]

mod fitting;
mod packet;

pub use fitting::fits;
pub use packet::{PacketFault, reply_packet};

#[cfg(test)]
mod tests;
