ghost use Rattle.std.specs.Prelude.{◌≡◌, ◌++◌, length, take, IfOk, OnOk};
ghost use Rattle.sl_items.specs.Reading.{GivesArgs};

use crate::parts::garbage;
use sl_cells::{AttrCell, Item, NameCell, copy_items, put_items, take_items};
use sl_types::{ArgsFault, NoMemory};
use sl_xdr::{Cursor, put_u32};
use std::alloc::Global;
use std::marker::Model;

/// What stands at a key: a cell of the key's kind, or none.
#[derive(Drop, Debug)]
pub enum FoundCell {
    Absent,
    Attr(AttrCell),
    Name(NameCell),
}

impl Item for FoundCell {
    ghost use Rattle.sl_frames.specs.Frames.{found_at, found_text, ShortFound};

    ghost at = { found_at };

    ghost text = { found_text };

    ghost is_short = { ShortFound };

    #[tactic(auto, unfolding(crate::specs::Frames::found_at, crate::specs::Frames::found_body_at))]
    fn take(alloc: Global, cursor: &mut Cursor<'_>) -> Result<FoundCell, ArgsFault> {
        match cursor.take_u32().map_err(garbage)? {
            0 => Ok(FoundCell::Absent),
            1 => {
                let cell = AttrCell::take(alloc, cursor)?;
                Ok(FoundCell::Attr(cell))
            }
            2 => {
                let cell = NameCell::take(alloc, cursor)?;
                Ok(FoundCell::Name(cell))
            }
            _ => Err(ArgsFault::Garbage),
        }
    }

    #[tactic(auto, using(sl_items::proofs::Appended::appended), unfolding(crate::specs::Frames::found_text))]
    fn put(&self, out: &mut Vec<u8>) -> Result<(), sl_xdr::NoMemory> {
        match self {
            FoundCell::Absent => put_u32(out, 0),
            FoundCell::Attr(cell) => {
                put_u32(out, 1)?;
                cell.put(out)
            }
            FoundCell::Name(cell) => {
                put_u32(out, 2)?;
                cell.put(out)
            }
        }
    }

    fn copy(&self) -> Result<FoundCell, NoMemory> {
        match self {
            FoundCell::Absent => Ok(FoundCell::Absent),
            FoundCell::Attr(cell) => {
                let cell = cell.copy()?;
                Ok(FoundCell::Attr(cell))
            }
            FoundCell::Name(cell) => {
                let cell = cell.copy()?;
                Ok(FoundCell::Name(cell))
            }
        }
    }
}

/// What stands at each key that was asked for, in their order. Contracts see it as that list.
#[derive(Drop, Debug)]
pub struct FoundCells {
    items: Vec<FoundCell>,
}

impl Model for FoundCells {
    ghost use Rattle.std.specs.Prelude.{List};
    ghost use Rattle.sl_frames.specs.declared.found.FoundCell.{FoundCell};

    ghost Value = { List FoundCell };

    ghost view = { λ l. l.items.items };
}

impl FoundCells {
    /// The list of these, which are not copied.
    pub fn new(items: Vec<FoundCell>) -> FoundCells
        ensures { result ≡ items.items }
    {
        FoundCells { items }
    }

    /// What stands at each key, in order.
    pub fn as_slice(&self) -> &[FoundCell]
        ensures { result.now ≡ self.now }
    {
        self.items.as_slice()
    }
}

impl Item for FoundCells {
    ghost use Rattle.sl_cells.specs.Lists.{counted_at, counted_text, FitsList};
    ghost use Rattle.sl_frames.specs.Frames.{found_at, found_text, ShortFound};

    ghost at = { counted_at found_at };

    ghost text = { counted_text found_text };

    ghost is_short = { FitsList ShortFound };

    fn take(alloc: Global, cursor: &mut Cursor<'_>) -> Result<FoundCells, ArgsFault> {
        let items = take_items(alloc, cursor)?;
        Ok(FoundCells { items })
    }

    fn put(&self, out: &mut Vec<u8>) -> Result<(), sl_xdr::NoMemory> {
        put_items(out, self.items.as_slice())
    }

    fn copy(&self) -> Result<FoundCells, NoMemory> {
        let items = copy_items(*self.items.allocator(), self.items.as_slice())?;
        Ok(FoundCells { items })
    }
}
