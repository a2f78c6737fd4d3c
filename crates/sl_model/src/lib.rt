//! One NFS version 3 server: what a call answers, and what it leaves.
//!
//! `specs/` has the definition: a volume, each procedure as a plan of look-ups, and what a call does to a volume.
#![tactic(auto)]

mod gathering;
mod laws;
mod node;

pub use gathering::{
    calls_are_blind, cells_follow, cells_suffice, clean_is_seen, looking_tells, plans_suffice,
    views_fit, views_suffice,
};
pub use laws::{cuts_bytes, failure_keeps, grows_by_zeros, reading_keeps, restart_keeps_tree};
pub use node::{Entry, Listed, Node};

#[cfg(test)]
mod tests;
