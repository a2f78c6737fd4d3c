//! The plain types that a run is made of, and the definitions that every crate above cites.
//!
//! `specs/` has the item grammar of XDR, the header of a call with the replies that refuse it, the grammar of
//! schedules and transcripts, and histories with what is legal of them.
#![tactic(auto)]

mod bytes;
mod event;
mod note;
mod setup;

pub use bytes::{Bytes, NoMemory};
pub use event::{Event, Line};
pub use note::{Choice, Printed};
pub use setup::{Policy, Setup, Time};

#[cfg(test)]
mod tests;
