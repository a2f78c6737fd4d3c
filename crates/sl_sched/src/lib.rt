//! The lines of a schedule, read and written.
#![tactic(auto)]

mod parts;
mod reading;
mod writing;

pub use reading::read_line;
pub use sl_defs::{Event, Line};
pub use writing::write_line;

#[cfg(test)]
mod tests;
