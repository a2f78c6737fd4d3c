ghost use Rattle.std.specs.Prelude.{◌≡◌, ◌↔◌, [], true, Some, OnOk, IfOk, unwrap_or};
ghost use Rattle.std.specs.FinMap as map;
ghost use Rattle.sl_plain.specs.Differing.{Gathers, IsUnlike, IsWithin};

use crate::differing::are_same;
use sl_defs::{Bytes, NoMemory};
use std::alloc::Global;
use std::collections::BTreeMap;
use std::marker::Model;

/// The texts of symbolic links by their fileids, which contracts see as that map.
#[derive(Drop)]
pub struct Texts {
    entries: BTreeMap<u64, Bytes>,
}

impl Model for Texts {
    ghost use Rattle.std.specs.Prelude.{List, ℕ};
    ghost use Rattle.std.specs.Coded.{coded_ℕ, coded_list};
    ghost use Rattle.std.specs.FinMap as map;
    ghost use Rattle.std.specs.Ordering.{nat_cmp};

    ghost Value = { map.FinMap nat_cmp (List ℕ) };

    ghost coded = { map.code coded_ℕ (coded_list coded_ℕ) };

    ghost view = { λ a. map.from_entries a.entries.entries };
}

impl Texts {
    /// No text.
    pub fn new(alloc: Global) -> Texts
        ensures { result ≡ map.empty }
    {
        Texts {
            entries: BTreeMap::new(alloc),
        }
    }

    /// A link's text, in memory of its own; nothing where there is none.
    pub fn copy_of(&self, alloc: Global, fileid: u64) -> Result<Bytes, NoMemory>
        ensures { IfOk result (λ text. text ≡ unwrap_or (map.get self.now fileid) []) }
    {
        match self.entries.get(&fileid) {
            Some(text) => text.copy(),
            None => Ok(Bytes::new(Vec::new(alloc))),
        }
    }

    /// Puts a link's text, for the one that is there.
    pub fn put(&mut self, fileid: u64, text: Bytes) -> Result<(), NoMemory>
        ensures { OnOk result (self.new ≡ map.insert self.old fileid text) }
    {
        let Ok(_) = self.entries.insert(fileid, text) else {
            return Err(NoMemory);
        };
        Ok(())
    }

    /// Takes a link's text away, if there is one.
    pub fn take(&mut self, fileid: u64)
        ensures { self.new ≡ map.remove self.old fileid }
    {
        let _ = self.entries.remove(&fileid);
    }

    /// An equal map, in memory of its own.
    pub fn copy(&self, alloc: Global) -> Result<Texts, NoMemory>
        ensures { IfOk result (λ copy. copy ≡ self.now) }
    {
        let mut copy = Texts::new(alloc);
        for (fileid, text) in self.entries.iter() {
            copy.put(*fileid, text.copy()?)?;
        }
        Ok(copy)
    }

    // Whether the link has this text.
    fn has(&self, fileid: u64, text: &Bytes) -> bool
        ensures { (result ≡ true) ↔ (map.get self.now fileid ≡ Some text.now) }
    {
        match self.entries.get(&fileid) {
            Some(there) => are_same(there.as_slice(), text.as_slice()),
            None => false,
        }
    }

    // Whether the other map has each of these texts.
    fn is_within(&self, other: &Texts) -> bool
        ensures { (result ≡ true) ↔ IsWithin self.now other.now }
    {
        for (fileid, text) in self.entries.iter() {
            if !other.has(*fileid, text) {
                return false;
            }
        }
        true
    }

    /// Whether the maps are equal.
    pub fn is_same(&self, other: &Texts) -> bool
        ensures { (result ≡ true) ↔ (self.now ≡ other.now) }
    {
        self.is_within(other) && other.is_within(self)
    }

    /// Puts the fileids whose texts the other map hasn't behind the given ones.
    pub(crate) fn put_unlike(&self, other: &Texts, unlike: &mut Vec<u64>) -> Result<(), NoMemory>
        ensures { OnOk result (Gathers (IsUnlike other.now) self.now unlike.old.items unlike.new.items) }
    {
        for (fileid, text) in self.entries.iter() {
            if other.has(*fileid, text) {
                continue;
            }
            let Ok(_) = unlike.push(*fileid) else {
                return Err(NoMemory);
            };
        }
        Ok(())
    }
}
