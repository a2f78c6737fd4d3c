//! The notes of a transcript, read and written.
#![tactic(auto)]

mod parts;
mod reading;
mod writing;

pub use reading::read_note;
pub use sl_defs::{Choice, Printed};
pub use writing::write_note;

#[cfg(test)]
mod tests;
