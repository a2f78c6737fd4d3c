//! The arguments of the 22 procedures of NFS version 3 (RFC 1813, section 3.3): reading and writing them.
#![tactic(auto)]

mod laws;
mod parts;
mod reading;
mod skipping;
mod writing;

pub use laws::{canonical_texts_spell, no_spelling_is_a_front, spellings_are_read};
pub use reading::read_args;
pub use skipping::has_args;
pub use writing::write_args;

#[cfg(test)]
mod rows;
#[cfg(test)]
mod tests;
