ghost use Rattle.std.specs.Prelude.{◌≡◌, ◌↔◌, true, OnOk, IfOk, is_some};
ghost use Rattle.std.specs.FinMap as map;
ghost use Rattle.sl_plain.specs.Differing.{IsWithin};

use sl_defs::NoMemory;
use std::alloc::Global;
use std::collections::BTreeMap;
use std::marker::Model;

/// The fileids that were ever used, which contracts see as a map to nothing.
#[derive(Drop)]
pub struct Used {
    entries: BTreeMap<u64, ()>,
}

impl Model for Used {
    ghost use Rattle.std.specs.Prelude.{ℕ, refl};
    ghost use Rattle.std.specs.Coded.{coded_ℕ, code_by};
    ghost use Rattle.std.specs.FinMap as map;
    ghost use Rattle.std.specs.Ordering.{nat_cmp};

    ghost Value = { map.FinMap nat_cmp (Unit {0}) };

    ghost coded = { map.code coded_ℕ (code_by ℕ coded_ℕ (λ u. 0) (λ n. tt) (λ u. refl)) };

    ghost view = { λ a. map.from_entries a.entries.entries };
}

impl Used {
    /// No fileid.
    pub fn new(alloc: Global) -> Used
        ensures { result ≡ map.empty }
    {
        Used {
            entries: BTreeMap::new(alloc),
        }
    }

    /// Whether the fileid was used.
    pub fn has(&self, fileid: u64) -> bool
        ensures { result ≡ is_some (map.get self.now fileid) }
    {
        match self.entries.get(&fileid) {
            Some(_) => true,
            None => false,
        }
    }

    /// One more fileid.
    pub fn put(&mut self, fileid: u64) -> Result<(), NoMemory>
        ensures { OnOk result (self.new ≡ map.insert self.old fileid tt) }
    {
        let Ok(_) = self.entries.insert(fileid, ()) else {
            return Err(NoMemory);
        };
        Ok(())
    }

    /// An equal map, in memory of its own.
    pub fn copy(&self, alloc: Global) -> Result<Used, NoMemory>
        ensures { IfOk result (λ copy. copy ≡ self.now) }
    {
        let mut copy = Used::new(alloc);
        for (fileid, _) in self.entries.iter() {
            copy.put(*fileid)?;
        }
        Ok(copy)
    }

    // Whether the other map has each of these fileids.
    fn is_within(&self, other: &Used) -> bool
        ensures { (result ≡ true) ↔ IsWithin self.now other.now }
    {
        for (fileid, _) in self.entries.iter() {
            if !other.has(*fileid) {
                return false;
            }
        }
        true
    }

    /// Whether the fileids are the same.
    pub fn is_same(&self, other: &Used) -> bool
        ensures { (result ≡ true) ↔ (self.now ≡ other.now) }
    {
        self.is_within(other) && other.is_within(self)
    }
}
