//! The calls that wait.
ghost use Rattle.std.specs.Prelude.{◌≡◌, None, Some, OnOk, IfSome};
ghost use Rattle.std.specs.FinMap as map;
ghost use Rattle.sl_world.specs.Proxying.{IsOut, low_in};

use crate::look::Look;
use sl_types::NoMemory;
use std::alloc::Global;
use std::collections::BTreeMap;
use std::marker::Model;

/// The calls that wait for their answers by the events in which they arrived, which contracts see as that map.
#[derive(Drop)]
pub struct Looks {
    calls: BTreeMap<u64, Look>,
}

impl Model for Looks {
    ghost use Rattle.std.specs.Coded.{coded_ℕ};
    ghost use Rattle.std.specs.FinMap as map;
    ghost use Rattle.std.specs.Ordering.{nat_cmp};
    ghost use Rattle.sl_world.specs.declared.look.Look.{Look};
    ghost use Rattle.sl_world.specs.contracts.look.Look as look;

    ghost Value = { map.FinMap nat_cmp Look };

    ghost coded = { map.code coded_ℕ look.the_row.coded };

    ghost view = { λ l. map.from_entries l.calls.entries };
}

impl Looks {
    /// No call waits.
    pub fn new(alloc: Global) -> Looks
        ensures { result ≡ map.empty }
    {
        Looks {
            calls: BTreeMap::new(alloc),
        }
    }

    /// How many calls wait.
    pub fn len(&self) -> usize
        ensures { result ≡ map.len self.now }
    {
        self.calls.len()
    }

    /// The call that arrived in an event waits.
    pub fn put(&mut self, event: u64, look: Look) -> Result<(), NoMemory>
        ensures { OnOk result (self.new ≡ map.insert self.old event look) }
    {
        let Ok(_) = self.calls.insert(event, look) else {
            return Err(NoMemory);
        };
        Ok(())
    }

    /// The call that arrived in an event, which waits no longer.
    pub fn take(&mut self, event: u64) -> Option<Look>
        ensures taken { self.new ≡ map.remove self.old event }
        ensures value { result ≡ map.get self.old event }
    {
        self.calls.remove(&event)
    }

    /// The event of a call whose request went to this server under this tag, if one is out.
    pub fn sent_to(&self, server: u8, tag: u64) -> Option<u64>
        ensures { IsOut self.now server tag result }
    {
        for (event, look) in self.calls.iter() {
            if look.to == server && look.tag == tag {
                return Some(*event);
            }
        }
        None
    }

    /// The least tag of a request that is out, or this one if it is less.
    pub fn low(&self, next: u64) -> u64
        ensures { result ≡ low_in (map.entries self.now) next }
    {
        let mut low = next;
        for (_, look) in self.calls.iter() {
            low = low.min(look.tag);
        }
        low
    }
}
