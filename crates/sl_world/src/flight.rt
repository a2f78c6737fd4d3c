//! Frames in flight.
ghost use Rattle.std.specs.Prelude.{◌≡◌, OnOk};
ghost use Rattle.std.specs.FinMap as map;
ghost use Rattle.sl_world.specs.Flights.{IsOldest};

use sl_frames::Frame;
use sl_types::NoMemory;
use std::alloc::Global;
use std::collections::BTreeMap;
use std::marker::Model;

/// A frame in flight, and the event that sent it.
#[derive(Drop, Debug)]
pub struct Flying {
    pub frame: Frame,
    pub event: u64,
}

/// The frames in flight by their numbers, which contracts see as that map.
#[derive(Drop)]
pub struct Flight {
    frames: BTreeMap<u64, Flying>,
}

impl Model for Flight {
    ghost use Rattle.std.specs.Coded.{coded_ℕ};
    ghost use Rattle.std.specs.FinMap as map;
    ghost use Rattle.std.specs.Ordering.{nat_cmp};
    ghost use Rattle.sl_world.specs.declared.flight.Flying.{Flying};
    ghost use Rattle.sl_world.specs.contracts.flight.Flying as flying;

    ghost Value = { map.FinMap nat_cmp Flying };

    ghost coded = { map.code coded_ℕ flying.the_row.coded };

    ghost view = { λ f. map.from_entries f.frames.entries };
}

impl Flight {
    /// Nothing is in flight.
    pub fn new(alloc: Global) -> Flight
        ensures { result ≡ map.empty }
    {
        Flight {
            frames: BTreeMap::new(alloc),
        }
    }

    /// How many frames are in flight.
    pub fn len(&self) -> usize
        ensures { result ≡ map.len self.now }
    {
        self.frames.len()
    }

    /// A frame goes out under this number.
    pub fn put(&mut self, number: u64, flying: Flying) -> Result<(), NoMemory>
        ensures { OnOk result (self.new ≡ map.insert self.old number flying) }
    {
        let Ok(_) = self.frames.insert(number, flying) else {
            return Err(NoMemory);
        };
        Ok(())
    }

    /// Whether the frame of this number is in flight.
    pub fn has(&self, number: u64) -> bool
        ensures { result ≡ map.contains_key self.now number }
    {
        self.frames.contains_key(&number)
    }

    /// The least number of a frame in flight.
    pub fn oldest(&self) -> Option<u64>
        ensures { IsOldest self.now result }
    {
        match self.frames.first_key_value() {
            Some((number, _)) => Some(*number),
            None => None,
        }
    }

    /// The frame of this number, which is in flight no longer.
    pub fn take(&mut self, number: u64) -> Option<Flying>
        ensures taken { self.new ≡ map.remove self.old number }
        ensures value { result ≡ map.get self.old number }
    {
        self.frames.remove(&number)
    }
}
