//! Whether a history is fenced, remembers what it was told, and completes. Each claim is decided over the turns from the
//! oldest on, beside a ledger of what the history shows so far.
#![tactic(auto)]

mod asking;
mod changes;
mod completed;
mod counts;
mod fenced;
mod memory;
mod remembering;
mod replies;
mod tellings;
mod words;

pub use completed::is_completed;
pub use fenced::is_fenced;
pub use remembering::remembers;

#[cfg(test)]
mod tests;
