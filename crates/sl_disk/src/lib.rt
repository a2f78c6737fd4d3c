//! Disks on a shelf, and what a stop at any moment may leave on them.
#![tactic(auto)]

mod files;
mod memory;
mod record;
mod script;
mod shelf;
mod steps;
mod storage;

pub use files::FileShelf;
pub use memory::MemShelf;
pub use shelf::{Arm, Armed, Shelf, ShelfFault};

#[cfg(test)]
mod tests;
