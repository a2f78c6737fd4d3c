ghost use Rattle.std.specs.Prelude.{◌≡◌, ◌↔◌, ◌+◌, ◌^◌, ◌≤◌, true, length, OnOk, IfOk, Some, unwrap_or};
ghost use Rattle.std.specs.FinMap as map;
ghost use Rattle.std.specs.Prelude.{map as each};
ghost use Rattle.sl_plain.specs.Unstables.{write_of};
ghost use Rattle.sl_plain.specs.Differing.{Gathers, IsOther, IsWithin};
ghost use Rattle.sl_model.specs.Volume.{cut_at, put_bytes, put_writes};

use crate::pending::Pending;
use sl_defs::NoMemory;
use std::alloc::Global;
use std::collections::BTreeMap;
use std::marker::Model;

/// The written bytes of files, which contracts see as the map from file and offset.
#[derive(Drop)]
pub struct Written {
    entries: BTreeMap<(u64, u64), u8>,
}

impl Model for Written {
    ghost use Rattle.std.specs.Prelude.{ℕ};
    ghost use Rattle.std.specs.Coded.{coded_ℕ, coded×};
    ghost use Rattle.std.specs.FinMap as map;
    ghost use Rattle.sl_model.specs.Volume.{place_cmp};

    ghost Value = { map.FinMap place_cmp ℕ };

    ghost coded = { map.code (coded× coded_ℕ coded_ℕ) coded_ℕ };

    ghost view = { λ a. map.from_entries a.entries.entries };
}

impl Written {
    /// No byte.
    pub fn new(alloc: Global) -> Written
        ensures { result ≡ map.empty }
    {
        Written {
            entries: BTreeMap::new(alloc),
        }
    }

    /// A file's byte at an offset, 0 where none was written.
    pub fn at(&self, file: u64, offset: u64) -> u8
        ensures { result ≡ unwrap_or (map.get self.now (file, offset)) 0 }
    {
        match self.entries.get(&(file, offset)) {
            Some(byte) => *byte,
            None => 0,
        }
    }

    /// Puts a file's byte at an offset.
    pub fn put(&mut self, file: u64, offset: u64, byte: u8) -> Result<(), NoMemory>
        ensures { OnOk result (self.new ≡ map.insert self.old (file, offset) byte) }
    {
        let Ok(_) = self.entries.insert((file, offset), byte) else {
            return Err(NoMemory);
        };
        Ok(())
    }

    /// Puts a file's bytes from an offset on.
    pub fn put_all(&mut self, file: u64, offset: u64, bytes: &[u8]) -> Result<(), NoMemory>
        requires { offset + length bytes.now ≤ 2 ^ 64 }
        ensures { OnOk result (self.new ≡ put_bytes file offset bytes.now self.old) }
    {
        for i in 0..bytes.len() {
            self.put(file, offset + i as u64, bytes[i])?;
        }
        Ok(())
    }

    /// Puts the bytes of a file's unstable writes, in order.
    pub fn put_writes(&mut self, file: u64, writes: &[Pending]) -> Result<(), NoMemory>
        ensures { OnOk result (self.new ≡ put_writes file (each write_of writes.now) self.old) }
    {
        for write in writes {
            if write.fileid == file {
                self.put_all(file, write.offset, write.bytes.as_slice())?;
            }
        }
        Ok(())
    }

    /// Leaves no byte of a file from an offset on.
    pub fn cut(&mut self, file: u64, size: u64)
        ensures { self.new ≡ cut_at file size self.old }
    {
        self.entries
            .retain(|place, _| !(place.0 == file) || place.1 < size);
    }

    /// An equal map, in memory of its own.
    pub fn copy(&self, alloc: Global) -> Result<Written, NoMemory>
        ensures { IfOk result (λ copy. copy ≡ self.now) }
    {
        let mut copy = Written::new(alloc);
        for (place, byte) in self.entries.iter() {
            copy.put(place.0, place.1, *byte)?;
        }
        Ok(copy)
    }

    // The byte that was written at a place, where one was.
    fn get(&self, place: (u64, u64)) -> Option<u8>
        ensures { result ≡ map.get self.now place }
    {
        match self.entries.get(&place) {
            Some(byte) => Some(*byte),
            None => None,
        }
    }

    // Whether this byte was written at the place.
    fn has(&self, place: (u64, u64), byte: u8) -> bool
        ensures { (result ≡ true) ↔ (map.get self.now place ≡ Some byte) }
    {
        self.get(place) == Some(byte)
    }

    // Whether the other map has each of these bytes.
    fn is_within(&self, other: &Written) -> bool
        ensures { (result ≡ true) ↔ IsWithin self.now other.now }
    {
        for (place, byte) in self.entries.iter() {
            if !other.has(*place, *byte) {
                return false;
            }
        }
        true
    }

    /// Whether the maps are equal.
    pub fn is_same(&self, other: &Written) -> bool
        ensures { (result ≡ true) ↔ (self.now ≡ other.now) }
    {
        self.is_within(other) && other.is_within(self)
    }

    /// Puts the places whose bytes are others in the other map behind the given ones; what was never written is zero.
    pub(crate) fn put_unlike(
        &self,
        other: &Written,
        unlike: &mut Vec<(u64, u64)>,
    ) -> Result<(), NoMemory>
        ensures { OnOk result (Gathers (IsOther other.now) self.now unlike.old.items unlike.new.items) }
    {
        for (place, byte) in self.entries.iter() {
            if other.at(place.0, place.1) == *byte {
                continue;
            }
            let Ok(_) = unlike.push(*place) else {
                return Err(NoMemory);
            };
        }
        Ok(())
    }
}
