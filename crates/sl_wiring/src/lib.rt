//! Whether a history of the ensemble is wired: whether its frames and servers play the parts that they are there for. The
//! turns are gone through once, the oldest first, and each point of the definition is decided by a function of its own.
#![tactic(auto)]

mod cells;
mod docket;
mod effects;
mod given;
mod grants;
mod listing;
mod packets;
mod places;
mod question;
mod replying;
mod sending;
mod sites;
mod standing;
mod telling;
mod wired;

pub use sl_ledger::AuditFault;
pub use wired::is_wired;

#[cfg(test)]
mod tests;
