//! Reading and writing the results of the procedures (RFC 1813, section 3.3), behind the head of an accepted reply.
#![tactic(auto)]

mod entries;
mod laws;
mod parts;
mod put_entries;
mod put_parts;
mod put_results;
mod reading;
mod results;
mod skipping;
mod writing;

pub use laws::{canonical_texts_spell, no_spelling_is_a_front, spellings_are_read};
pub use reading::read_reply;
pub use skipping::is_reply;
pub use writing::write_reply;

#[cfg(test)]
mod tests;
