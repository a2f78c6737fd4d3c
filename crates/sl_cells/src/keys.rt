ghost use Rattle.std.specs.Prelude.{◌≡◌, ◌++◌, length, take, IfOk, OnOk};
ghost use Rattle.sl_items.specs.Reading.{GivesArgs};

use crate::item::Item;
use crate::lists::{copy_items, put_items, take_items};
use crate::parts::{garbage, take_id, take_padded_name};
use sl_items::put_name;
use sl_types::{ArgsFault, Name, NoMemory};
use sl_xdr::{Cursor, put_u32, put_u64};
use std::alloc::Global;
use std::marker::Model;

/// What a cell is known by.
#[derive(Drop, Debug)]
pub enum CellKey {
    /// The attributes of the object of this fileid.
    Attr(u64),
    /// A name in the directory of this fileid.
    Name(u64, Name),
}

impl Item for CellKey {
    ghost use Rattle.sl_cells.specs.Reading.{key_at};
    ghost use Rattle.sl_cells.specs.Texts.{key_text, ShortKey};

    ghost at = { key_at };

    ghost text = { key_text };

    ghost is_short = { ShortKey };

    #[tactic(auto, unfolding(crate::specs::Reading::key_at, crate::specs::Reading::key_body_at))]
    fn take(alloc: Global, cursor: &mut Cursor<'_>) -> Result<CellKey, ArgsFault> {
        match cursor.take_u32().map_err(garbage)? {
            1 => {
                let fileid = take_id(cursor).map_err(garbage)?;
                Ok(CellKey::Attr(fileid))
            }
            2 => {
                let dir = take_id(cursor).map_err(garbage)?;
                let name = take_padded_name(alloc, cursor)?;
                Ok(CellKey::Name(dir, name))
            }
            _ => Err(ArgsFault::Garbage),
        }
    }

    #[tactic(auto, using(sl_items::proofs::Appended::appended), unfolding(crate::specs::Texts::key_text))]
    fn put(&self, out: &mut Vec<u8>) -> Result<(), sl_xdr::NoMemory> {
        match self {
            CellKey::Attr(fileid) => {
                put_u32(out, 1)?;
                put_u64(out, *fileid)
            }
            CellKey::Name(dir, name) => {
                put_u32(out, 2)?;
                put_u64(out, *dir)?;
                put_name(out, name)
            }
        }
    }

    fn copy(&self) -> Result<CellKey, NoMemory> {
        match self {
            CellKey::Attr(fileid) => Ok(CellKey::Attr(*fileid)),
            CellKey::Name(dir, name) => {
                let name = name.copy()?;
                Ok(CellKey::Name(*dir, name))
            }
        }
    }
}

/// A list of keys, which contracts see as that list.
#[derive(Drop, Debug)]
pub struct Keys {
    items: Vec<CellKey>,
}

impl Model for Keys {
    ghost use Rattle.std.specs.Prelude.{List};
    ghost use Rattle.sl_cells.specs.declared.keys.CellKey.{CellKey};

    ghost Value = { List CellKey };

    ghost view = { λ l. l.items.items };
}

impl Keys {
    /// The list of these keys, which are not copied.
    pub fn new(items: Vec<CellKey>) -> Keys
        ensures { result ≡ items.items }
    {
        Keys { items }
    }

    /// The keys, in order.
    pub fn as_slice(&self) -> &[CellKey]
        ensures { result.now ≡ self.now }
    {
        self.items.as_slice()
    }
}

impl Item for Keys {
    ghost use Rattle.sl_cells.specs.Lists.{counted_at, counted_text, FitsList};
    ghost use Rattle.sl_cells.specs.Reading.{key_at};
    ghost use Rattle.sl_cells.specs.Texts.{key_text, ShortKey};

    ghost at = { counted_at key_at };

    ghost text = { counted_text key_text };

    ghost is_short = { FitsList ShortKey };

    fn take(alloc: Global, cursor: &mut Cursor<'_>) -> Result<Keys, ArgsFault> {
        let items = take_items(alloc, cursor)?;
        Ok(Keys { items })
    }

    fn put(&self, out: &mut Vec<u8>) -> Result<(), sl_xdr::NoMemory> {
        put_items(out, self.items.as_slice())
    }

    fn copy(&self) -> Result<Keys, NoMemory> {
        let items = copy_items(*self.items.allocator(), self.items.as_slice())?;
        Ok(Keys { items })
    }
}
