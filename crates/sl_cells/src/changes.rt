ghost use Rattle.std.specs.Prelude.{◌≡◌, ◌++◌, length, take, IfOk, OnOk};
ghost use Rattle.sl_items.specs.Reading.{GivesArgs};

use crate::cells::{AttrCell, NameCell};
use crate::item::Item;
use crate::lists::{copy_items, put_items, take_items};
use crate::parts::{garbage, take_id, take_object, take_padded_name};
use sl_items::{put_fattr, put_name};
use sl_types::{ArgsFault, Fattr, Name, NoMemory};
use sl_xdr::{Cursor, put_u32, put_u64};
use std::alloc::Global;
use std::marker::Model;

/// A change of the cells that a directory server holds.
#[derive(Drop, Debug)]
pub enum Change {
    /// This cell stands in place of the one of its object, if there is one.
    PutAttr(AttrCell),
    /// The cell of the object of this fileid goes.
    TakeAttr(u64),
    /// This cell stands in place of the one of its name, if there is one.
    PutName(NameCell),
    /// The cell of this name in the directory of this fileid goes.
    TakeName(u64, Name),
    /// The attributes in the cell of their object are these, and nothing else changes.
    SetFattr(Fattr),
}

impl Item for Change {
    ghost use Rattle.sl_cells.specs.Reading.{change_at};
    ghost use Rattle.sl_cells.specs.Texts.{change_text, ShortChange};

    ghost at = { change_at };

    ghost text = { change_text };

    ghost is_short = { ShortChange };

    #[tactic(auto, unfolding(crate::specs::Reading::change_at, crate::specs::Reading::change_body_at))]
    fn take(alloc: Global, cursor: &mut Cursor<'_>) -> Result<Change, ArgsFault> {
        match cursor.take_u32().map_err(garbage)? {
            1 => {
                let cell = AttrCell::take(alloc, cursor)?;
                Ok(Change::PutAttr(cell))
            }
            2 => {
                let fileid = take_id(cursor).map_err(garbage)?;
                Ok(Change::TakeAttr(fileid))
            }
            3 => {
                let cell = NameCell::take(alloc, cursor)?;
                Ok(Change::PutName(cell))
            }
            4 => {
                let dir = take_id(cursor).map_err(garbage)?;
                let name = take_padded_name(alloc, cursor)?;
                Ok(Change::TakeName(dir, name))
            }
            5 => {
                let attributes = take_object(cursor).map_err(garbage)?;
                Ok(Change::SetFattr(attributes))
            }
            _ => Err(ArgsFault::Garbage),
        }
    }

    #[tactic(auto, using(sl_items::proofs::Appended::appended), unfolding(crate::specs::Texts::change_text))]
    fn put(&self, out: &mut Vec<u8>) -> Result<(), sl_xdr::NoMemory> {
        match self {
            Change::PutAttr(cell) => {
                put_u32(out, 1)?;
                cell.put(out)
            }
            Change::TakeAttr(fileid) => {
                put_u32(out, 2)?;
                put_u64(out, *fileid)
            }
            Change::PutName(cell) => {
                put_u32(out, 3)?;
                cell.put(out)
            }
            Change::TakeName(dir, name) => {
                put_u32(out, 4)?;
                put_u64(out, *dir)?;
                put_name(out, name)
            }
            Change::SetFattr(attributes) => {
                put_u32(out, 5)?;
                put_fattr(out, *attributes)
            }
        }
    }

    fn copy(&self) -> Result<Change, NoMemory> {
        match self {
            Change::PutAttr(cell) => {
                let cell = cell.copy()?;
                Ok(Change::PutAttr(cell))
            }
            Change::TakeAttr(fileid) => Ok(Change::TakeAttr(*fileid)),
            Change::PutName(cell) => {
                let cell = cell.copy()?;
                Ok(Change::PutName(cell))
            }
            Change::TakeName(dir, name) => {
                let name = name.copy()?;
                Ok(Change::TakeName(*dir, name))
            }
            Change::SetFattr(attributes) => Ok(Change::SetFattr(*attributes)),
        }
    }
}

/// Changes in the order in which they are made, which contracts see as that list.
#[derive(Drop, Debug)]
pub struct Changes {
    items: Vec<Change>,
}

impl Model for Changes {
    ghost use Rattle.std.specs.Prelude.{List};
    ghost use Rattle.sl_cells.specs.declared.changes.Change.{Change};

    ghost Value = { List Change };

    ghost view = { λ l. l.items.items };
}

impl Changes {
    /// The list of these changes, which are not copied.
    pub fn new(items: Vec<Change>) -> Changes
        ensures { result ≡ items.items }
    {
        Changes { items }
    }

    /// The changes, in order.
    pub fn as_slice(&self) -> &[Change]
        ensures { result.now ≡ self.now }
    {
        self.items.as_slice()
    }
}

impl Item for Changes {
    ghost use Rattle.sl_cells.specs.Lists.{counted_at, counted_text, FitsList};
    ghost use Rattle.sl_cells.specs.Reading.{change_at};
    ghost use Rattle.sl_cells.specs.Texts.{change_text, ShortChange};

    ghost at = { counted_at change_at };

    ghost text = { counted_text change_text };

    ghost is_short = { FitsList ShortChange };

    fn take(alloc: Global, cursor: &mut Cursor<'_>) -> Result<Changes, ArgsFault> {
        let items = take_items(alloc, cursor)?;
        Ok(Changes { items })
    }

    fn put(&self, out: &mut Vec<u8>) -> Result<(), sl_xdr::NoMemory> {
        put_items(out, self.items.as_slice())
    }

    fn copy(&self) -> Result<Changes, NoMemory> {
        let items = copy_items(*self.items.allocator(), self.items.as_slice())?;
        Ok(Changes { items })
    }
}
