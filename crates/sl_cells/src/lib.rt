//! Cells, which a directory server holds; their keys and their changes; and their one spelling in frames and records.
//!
//! Lists of items are read and written by one function each, for all types that are an `Item`.
#![tactic(auto)]

mod cells;
mod changes;
mod item;
mod keys;
mod laws;
mod lists;
mod parts;
mod writes;

pub use cells::{AttrCell, NameCell, NameCells};
pub use changes::{Change, Changes};
pub use item::Item;
pub use keys::{CellKey, Keys};
pub use laws::texts_are_read;
pub use lists::{copy_items, put_items, take_items};
pub use parts::{take_id, take_id_or_none, take_padded, take_padded_name};

#[cfg(test)]
mod tests;
