ghost use Rattle.std.specs.Prelude.{◌≡◌, ◌++◌, length, take, IfOk, OnOk};
ghost use Rattle.sl_items.specs.Reading.{GivesArgs};

use crate::item::Item;
use crate::lists::{copy_items, put_items, take_items};
use crate::parts::{garbage, take_id, take_id_or_none, take_object, take_padded, take_padded_name};
use sl_items::{
    put_bytes, put_fattr, put_kind, put_name, put_optional_u64, take_kind, take_optional_u64,
};
use sl_types::{ArgsFault, Bytes, Fattr, Kind, Name, NoMemory};
use sl_xdr::{Cursor, put_u64};
use std::alloc::Global;
use std::marker::Model;

/// What a directory server holds of an object.
#[derive(Drop, Debug)]
pub struct AttrCell {
    pub attributes: Fattr,
    /// The fileid of the directory that a directory is in, the root's is its own. 0 for what is no directory.
    pub parent: u64,
    /// How many names there are in a directory.
    pub entries: u64,
    /// How many names were ever made in a directory.
    pub made: u64,
    /// What an exclusive CREATE left.
    pub verifier: Option<u64>,
    /// The text of a symbolic link, empty for what is none.
    pub link: Bytes,
}

/// What a directory server holds of a name in a directory.
#[derive(Drop, Debug)]
pub struct NameCell {
    /// The directory's fileid.
    pub dir: u64,
    pub name: Name,
    /// That of the object of this name.
    pub fileid: u64,
    pub kind: Kind,
    /// Its place in the directory's listing.
    pub cookie: u64,
}

impl Item for AttrCell {
    ghost use Rattle.sl_cells.specs.Reading.{attr_cell_at};
    ghost use Rattle.sl_cells.specs.Texts.{attr_cell_text, ShortAttrCell};

    ghost at = { attr_cell_at };

    ghost text = { attr_cell_text };

    ghost is_short = { ShortAttrCell };

    #[tactic(auto, unfolding(crate::specs::Reading::attr_cell_at))]
    fn take(alloc: Global, cursor: &mut Cursor<'_>) -> Result<AttrCell, ArgsFault> {
        let attributes = take_object(cursor).map_err(garbage)?;
        let parent = take_id_or_none(cursor).map_err(garbage)?;
        let entries = cursor.take_u64().map_err(garbage)?;
        let made = cursor.take_u64().map_err(garbage)?;
        let verifier = take_optional_u64(cursor).map_err(garbage)?;
        let link = take_padded(alloc, cursor)?;
        Ok(AttrCell {
            attributes,
            parent,
            entries,
            made,
            verifier,
            link,
        })
    }

    #[tactic(auto, using(sl_items::proofs::Appended::appended), unfolding(crate::specs::Texts::attr_cell_text))]
    fn put(&self, out: &mut Vec<u8>) -> Result<(), sl_xdr::NoMemory> {
        put_fattr(out, self.attributes)?;
        put_u64(out, self.parent)?;
        put_u64(out, self.entries)?;
        put_u64(out, self.made)?;
        put_optional_u64(out, self.verifier)?;
        put_bytes(out, &self.link)?;
        Ok(())
    }

    fn copy(&self) -> Result<AttrCell, NoMemory> {
        let link = self.link.copy()?;
        Ok(AttrCell {
            attributes: self.attributes,
            parent: self.parent,
            entries: self.entries,
            made: self.made,
            verifier: self.verifier,
            link,
        })
    }
}

impl Item for NameCell {
    ghost use Rattle.sl_cells.specs.Reading.{name_cell_at};
    ghost use Rattle.sl_cells.specs.Texts.{name_cell_text, ShortNameCell};

    ghost at = { name_cell_at };

    ghost text = { name_cell_text };

    ghost is_short = { ShortNameCell };

    #[tactic(auto, unfolding(crate::specs::Reading::name_cell_at))]
    fn take(alloc: Global, cursor: &mut Cursor<'_>) -> Result<NameCell, ArgsFault> {
        let dir = take_id(cursor).map_err(garbage)?;
        let name = take_padded_name(alloc, cursor)?;
        let fileid = take_id(cursor).map_err(garbage)?;
        let kind = take_kind(cursor).map_err(garbage)?;
        let cookie = cursor.take_u64().map_err(garbage)?;
        Ok(NameCell {
            dir,
            name,
            fileid,
            kind,
            cookie,
        })
    }

    #[tactic(auto, using(sl_items::proofs::Appended::appended), unfolding(crate::specs::Texts::name_cell_text))]
    fn put(&self, out: &mut Vec<u8>) -> Result<(), sl_xdr::NoMemory> {
        put_u64(out, self.dir)?;
        put_name(out, &self.name)?;
        put_u64(out, self.fileid)?;
        put_kind(out, self.kind)?;
        put_u64(out, self.cookie)?;
        Ok(())
    }

    fn copy(&self) -> Result<NameCell, NoMemory> {
        let name = self.name.copy()?;
        Ok(NameCell {
            dir: self.dir,
            name,
            fileid: self.fileid,
            kind: self.kind,
            cookie: self.cookie,
        })
    }
}

/// A list of name cells, which contracts see as that list.
#[derive(Drop, Debug)]
pub struct NameCells {
    items: Vec<NameCell>,
}

impl Model for NameCells {
    ghost use Rattle.std.specs.Prelude.{List};
    ghost use Rattle.sl_cells.specs.declared.cells.NameCell.{NameCell};

    ghost Value = { List NameCell };

    ghost view = { λ l. l.items.items };
}

impl NameCells {
    /// The list of these cells, which are not copied.
    pub fn new(items: Vec<NameCell>) -> NameCells
        ensures { result ≡ items.items }
    {
        NameCells { items }
    }

    /// The cells, in order.
    pub fn as_slice(&self) -> &[NameCell]
        ensures { result.now ≡ self.now }
    {
        self.items.as_slice()
    }
}

impl Item for NameCells {
    ghost use Rattle.sl_cells.specs.Lists.{counted_at, counted_text, FitsList};
    ghost use Rattle.sl_cells.specs.Reading.{name_cell_at};
    ghost use Rattle.sl_cells.specs.Texts.{name_cell_text, ShortNameCell};

    ghost at = { counted_at name_cell_at };

    ghost text = { counted_text name_cell_text };

    ghost is_short = { FitsList ShortNameCell };

    fn take(alloc: Global, cursor: &mut Cursor<'_>) -> Result<NameCells, ArgsFault> {
        let items = take_items(alloc, cursor)?;
        Ok(NameCells { items })
    }

    fn put(&self, out: &mut Vec<u8>) -> Result<(), sl_xdr::NoMemory> {
        put_items(out, self.items.as_slice())
    }

    fn copy(&self) -> Result<NameCells, NoMemory> {
        let items = copy_items(*self.items.allocator(), self.items.as_slice())?;
        Ok(NameCells { items })
    }
}
