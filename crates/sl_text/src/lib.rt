//! The parts of a line of text: words between spaces, decimal numbers and hexadecimal bytes, read and written.
#![tactic(auto)]

mod numbers;
mod puts;
mod words;

pub use numbers::{hex_bytes, number_u8, number_u32, number_u64};
pub use puts::{put, put_decimal, put_hex, put_moment, put_word_and_number};
pub use words::{behind, cut};

#[cfg(test)]
mod tests;
