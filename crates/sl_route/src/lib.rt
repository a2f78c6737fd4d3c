//! Which server carries each logical site of a volume, and where the bytes of files lie.
//!
//! A table of places has 64 sites of directory servers, 16 of small-file servers and 64 of storage nodes, so that
//! servers are added by moving sites. Nothing here takes memory.
#![tactic(auto)]

mod class;
mod set;
mod span;
mod table;

pub use class::Class;
pub use sl_types::ActorSet;
pub use span::{THRESHOLD, UNIT};
pub use table::Table;

#[cfg(test)]
mod tests;
