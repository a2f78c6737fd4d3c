ghost use Rattle.std.specs.Prelude.{◌≡◌, ◌↔◌, ℕ, [], true, Some, map as each, OnOk, IfOk};
ghost use Rattle.std.specs.FinMap as map;
ghost use Rattle.sl_model.specs.Volume.{listed};
ghost use Rattle.sl_plain.specs.Maps.{named, key_of};
ghost use Rattle.sl_plain.specs.Differing.{Gathers, IsUnlike, IsWithin, LeadsTo};

use crate::lines::Lines;
use sl_defs::{Bytes, NoMemory};
use sl_model::{Entry, Listed};
use sl_types::Name;
use std::alloc::Global;
use std::collections::BTreeMap;
use std::collections::btree_map::Range;
use std::marker::Model;

/// Where a name stands: in a directory of this fileid.
#[derive(Debug, Drop, PartialEq, Eq, PartialOrd, Ord)]
pub struct Place {
    pub dir: u64,
    pub name: Vec<u8>,
}

impl Place {
    /// The place of this name in a directory.
    pub fn of(alloc: Global, dir: u64, name: &[u8]) -> Result<Place, NoMemory>
        ensures { IfOk result (λ place. (place.dir ≡ dir) × (place.name.items ≡ name.now)) }
    {
        match Vec::from_slice(alloc, name) {
            Ok(name) => Ok(Place { dir, name }),
            Err(_) => Err(NoMemory),
        }
    }

    /// An equal place, in memory of its own.
    pub(crate) fn copy(&self, alloc: Global) -> Result<Place, NoMemory>
        ensures { IfOk result (λ place. key_of place ≡ key_of self.now) }
    {
        Place::of(alloc, self.dir, self.name.as_slice())
    }
}

/// The names of a volume and what they lead to, which contracts see as the map from directory and name.
#[derive(Drop)]
pub struct Names {
    entries: BTreeMap<Place, Entry>,
}

impl Model for Names {
    ghost use Rattle.std.specs.Prelude.{map as each};
    ghost use Rattle.std.specs.FinMap as map;
    ghost use Rattle.sl_model.specs.declared.node.Entry.{Entry};
    ghost use Rattle.sl_model.specs.Volume.{name_cmp};
    ghost use Rattle.sl_plain.specs.Maps.{named};
    ghost use Rattle.std.specs.Coded.{coded_ℕ, coded_list, coded×};
    ghost use Rattle.sl_model.specs.contracts.node.Entry as entry;

    ghost Value = { map.FinMap name_cmp Entry };

    ghost coded = { map.code (coded× coded_ℕ (coded_list coded_ℕ)) entry.the_row.coded };

    ghost view = { λ a. map.from_entries (each named a.entries.entries) };
}

impl Names {
    /// No name.
    pub fn new(alloc: Global) -> Names
        ensures { result ≡ map.empty }
    {
        Names {
            entries: BTreeMap::new(alloc),
        }
    }

    /// What a name leads to.
    pub fn get(&self, place: &Place) -> Option<Entry>
        ensures { result ≡ map.get self.now (place.now.dir, place.now.name.items) }
    {
        match self.entries.get(place) {
            Some(entry) => Some(*entry),
            None => None,
        }
    }

    /// Puts a name, for the one that is there.
    pub fn put(&mut self, place: Place, entry: Entry) -> Result<(), NoMemory>
        ensures { OnOk result (self.new ≡ map.insert self.old (place.dir, place.name.items) entry) }
    {
        let Ok(_) = self.entries.insert(place, entry) else {
            return Err(NoMemory);
        };
        Ok(())
    }

    /// Takes a name away, if it is there.
    pub fn take(&mut self, place: &Place)
        ensures { self.new ≡ map.remove self.old (place.now.dir, place.now.name.items) }
    {
        let _ = self.entries.remove(place);
    }

    /// A directory's names whose cookies are above the given one, by rising cookie. Other directories' names aren't
    /// looked at; each name is put into its place in turn, in the square of the directory's names.
    pub(crate) fn listing(&self, alloc: Global, dir: u64, cookie: u64) -> Result<Lines, NoMemory>
        ensures { IfOk result (λ lines. lines ≡ listed dir cookie [] (map.entries self.now)) }
    {
        let mut lines = Lines::new(alloc);
        for (place, entry) in self.of_directory(alloc, dir) {
            if place.dir == dir && entry.cookie > cookie {
                lines.place(line_of(alloc, place, *entry)?)?;
            }
        }
        Ok(lines)
    }

    // The names of a directory, and maybe of others.
    fn of_directory(&self, alloc: Global, dir: u64) -> Range<'_, Place, Entry>
        ensures { (cookie : ℕ) → listed dir cookie [] (each named result) ≡ listed dir cookie [] (map.entries self.now) }
    {
        let first = Place {
            dir,
            name: Vec::new(alloc),
        };
        match dir.checked_add(1) {
            Some(next) => {
                let end = Place {
                    dir: next,
                    name: Vec::new(alloc),
                };
                self.entries.range(first..end)
            }
            None => self.entries.range(first..),
        }
    }

    // Whether the other map has each of these names.
    fn is_within(&self, other: &Names) -> bool
        ensures { (result ≡ true) ↔ IsWithin self.now other.now }
    {
        for (place, entry) in self.entries.iter() {
            if !other.has(place, *entry) {
                return false;
            }
        }
        true
    }

    /// Whether the maps are equal.
    pub fn is_same(&self, other: &Names) -> bool
        ensures { (result ≡ true) ↔ (self.now ≡ other.now) }
    {
        self.is_within(other) && other.is_within(self)
    }

    // Whether the name leads to this.
    fn has(&self, place: &Place, entry: Entry) -> bool
        ensures { (result ≡ true) ↔ (map.get self.now (key_of place.now) ≡ Some entry) }
    {
        self.get(place) == Some(entry)
    }

    /// Puts the names that the other map hasn't, or not so, behind the given ones.
    pub(crate) fn put_unlike(
        &self,
        alloc: Global,
        other: &Names,
        unlike: &mut Vec<Place>,
    ) -> Result<(), NoMemory>
        ensures { OnOk result (Gathers (IsUnlike other.now) self.now (each key_of unlike.old.items) (each key_of unlike.new.items)) }
    {
        for (place, entry) in self.entries.iter() {
            if other.has(place, *entry) {
                continue;
            }
            let Ok(_) = unlike.push(place.copy(alloc)?) else {
                return Err(NoMemory);
            };
        }
        Ok(())
    }

    /// The names that lead to an object.
    pub(crate) fn leading_to(&self, alloc: Global, fileid: u64) -> Result<Vec<Place>, NoMemory>
        ensures { IfOk result (λ places. Gathers (LeadsTo fileid) self.now [] (each key_of places.items)) }
    {
        let mut places = Vec::new(alloc);
        for (place, entry) in self.entries.iter() {
            if entry.fileid != fileid {
                continue;
            }
            let Ok(_) = places.push(place.copy(alloc)?) else {
                return Err(NoMemory);
            };
        }
        Ok(places)
    }

    /// Equal names, in memory of their own.
    pub fn copy(&self, alloc: Global) -> Result<Names, NoMemory>
        ensures { IfOk result (λ copy. copy ≡ self.now) }
    {
        let mut copy = Names::new(alloc);
        for (place, entry) in self.entries.iter() {
            copy.put(Place::of(alloc, place.dir, place.name.as_slice())?, *entry)?;
        }
        Ok(copy)
    }
}

// The line of a name.
fn line_of(alloc: Global, place: &Place, entry: Entry) -> Result<Listed, NoMemory>
    ensures { IfOk result (λ line. line ≡ record { name = place.now.name.items; fileid = entry.fileid; kind = entry.kind; cookie = entry.cookie }) }
{
    let Ok(name) = Vec::from_slice(alloc, place.name.as_slice()) else {
        return Err(NoMemory);
    };
    Ok(Listed {
        name: Name::new(Bytes::new(name)),
        fileid: entry.fileid,
        kind: entry.kind,
        cookie: entry.cookie,
    })
}
