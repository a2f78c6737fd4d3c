ghost use Rattle.std.specs.Prelude.{◌≡◌, IfOk};

use crate::attributes::Fattr;
use crate::names::{Fh, Name, copy_handle};
use sl_defs::NoMemory;
use std::marker::Model;

/// An entry of READDIR (RFC 1813, section 3.3.16, `entry3`).
#[derive(Drop, Debug)]
pub struct Entry {
    pub fileid: u64,
    pub name: Name,
    pub cookie: u64,
}

impl Entry {
    /// An equal entry, in memory of its own.
    pub fn copy(&self) -> Result<Entry, NoMemory>
        ensures { IfOk result (λ copy. copy ≡ self.now) }
    {
        let name = self.name.copy()?;
        Ok(Entry {
            fileid: self.fileid,
            name,
            cookie: self.cookie,
        })
    }
}

/// An entry of READDIRPLUS (RFC 1813, section 3.3.17, `entryplus3`).
#[derive(Drop, Debug)]
pub struct EntryPlus {
    pub fileid: u64,
    pub name: Name,
    pub cookie: u64,
    pub attributes: Option<Fattr>,
    pub handle: Option<Fh>,
}

impl EntryPlus {
    /// An equal entry, in memory of its own.
    pub fn copy(&self) -> Result<EntryPlus, NoMemory>
        ensures { IfOk result (λ copy. copy ≡ self.now) }
    {
        let name = self.name.copy()?;
        let handle = copy_handle(&self.handle)?;
        Ok(EntryPlus {
            fileid: self.fileid,
            name,
            cookie: self.cookie,
            attributes: self.attributes,
            handle,
        })
    }
}

/// A list of entries of READDIR, which contracts see as that list.
#[derive(Drop, Debug)]
pub struct Entries {
    items: Vec<Entry>,
}

impl Model for Entries {
    ghost use Rattle.std.specs.Prelude.{List};
    ghost use Rattle.sl_types.specs.declared.entries.Entry.{Entry};

    ghost Value = { List Entry };

    ghost view = { λ e. e.items.items };
}

impl Entries {
    /// The list of these entries, which are not copied.
    pub fn new(items: Vec<Entry>) -> Entries
        ensures { result ≡ items.items }
    {
        Entries { items }
    }

    /// The entries, in order.
    pub fn as_slice(&self) -> &[Entry]
        ensures { result.now ≡ self.now }
    {
        self.items.as_slice()
    }

    /// An equal list, in memory of its own.
    pub fn copy(&self) -> Result<Entries, NoMemory>
        ensures { IfOk result (λ copy. copy ≡ self.now) }
    {
        let mut items = Vec::new(*self.items.allocator());
        for entry in self.items.iter() {
            items.push(entry.copy()?).map_err(|_| NoMemory)?;
        }
        Ok(Entries { items })
    }
}

/// A list of entries of READDIRPLUS, which contracts see as that list.
#[derive(Drop, Debug)]
pub struct EntriesPlus {
    items: Vec<EntryPlus>,
}

impl Model for EntriesPlus {
    ghost use Rattle.std.specs.Prelude.{List};
    ghost use Rattle.sl_types.specs.declared.entries.EntryPlus.{EntryPlus};

    ghost Value = { List EntryPlus };

    ghost view = { λ e. e.items.items };
}

impl EntriesPlus {
    /// The list of these entries, which are not copied.
    pub fn new(items: Vec<EntryPlus>) -> EntriesPlus
        ensures { result ≡ items.items }
    {
        EntriesPlus { items }
    }

    /// The entries, in order.
    pub fn as_slice(&self) -> &[EntryPlus]
        ensures { result.now ≡ self.now }
    {
        self.items.as_slice()
    }

    /// An equal list, in memory of its own.
    pub fn copy(&self) -> Result<EntriesPlus, NoMemory>
        ensures { IfOk result (λ copy. copy ≡ self.now) }
    {
        let mut items = Vec::new(*self.items.allocator());
        for entry in self.items.iter() {
            items.push(entry.copy()?).map_err(|_| NoMemory)?;
        }
        Ok(EntriesPlus { items })
    }
}
