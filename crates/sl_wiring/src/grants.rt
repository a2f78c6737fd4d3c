//! Which servers granted which operations, as far as the coordinator was given that.
ghost use Rattle.std.specs.Prelude.{◌≡◌, ◌↔◌, [], None, true, All, OnOk};
ghost use Rattle.std.specs.List.{Contains};
ghost use Rattle.sl_wiring.specs.Given.{GrantOne, HasMore, grant_by};

use sl_defs::NoMemory;
use sl_frames::{Body, Frame};
use std::alloc::Global;
use std::collections::BTreeSet;

/// A server granted an operation.
#[derive(Clone, Copy, Debug, PartialEq, Eq, PartialOrd, Ord)]
pub struct Grant {
    pub op: u64,
    pub server: u64,
}

/// What a frame grants, where it grants something to the coordinator.
fn grant_by(frame: &Frame) -> Option<Grant>
    ensures { result ≡ grant_by frame.now }
{
    if frame.to != 1 {
        return None;
    }
    match &frame.body {
        Body::Grant => Some(Grant {
            op: frame.op,
            server: u64::from(frame.from),
        }),
        _ => None,
    }
}

/// The grants that the coordinator was given.
#[derive(Drop)]
pub struct Grants {
    items: BTreeSet<Grant>,
}

impl Grants {
    /// None.
    pub fn new(alloc: Global) -> Grants
        ensures { result.items.keys ≡ [] }
    {
        Grants {
            items: BTreeSet::new(alloc),
        }
    }

    /// Takes what a given frame grants.
    pub fn take(&mut self, frame: &Frame) -> Result<(), NoMemory>
        ensures { OnOk result (HasMore self.old.items.keys self.new.items.keys (grant_by frame.now)) }
    {
        let Some(grant) = grant_by(frame) else {
            return Ok(());
        };
        match self.items.insert(grant) {
            Ok(_) => Ok(()),
            Err(_) => Err(NoMemory),
        }
    }

    /// Whether each of these servers granted the operation.
    fn has_each(&self, op: u64, servers: &[u64]) -> bool
        ensures { (result ≡ true) ↔ All (λ server. Contains self.now.items.keys (record { op = op; server = server })) servers.now }
    {
        for server in servers {
            if !self.items.contains(&Grant {
                op,
                server: *server,
            }) {
                return false;
            }
        }
        true
    }

    /// Whether each of these servers granted one and the same operation, whichever that is.
    fn has_one(&self, servers: &[u64]) -> bool
        ensures { (result ≡ true) ↔ GrantOne self.now None servers.now }
    {
        if servers.is_empty() {
            return true;
        }
        for grant in self.items.iter() {
            if self.has_each(grant.op, servers) {
                return true;
            }
        }
        false
    }

    /// Whether each of these servers granted this operation, or, where none is given, one and the same.
    pub fn has_all(&self, given: Option<u64>, servers: &[u64]) -> bool
        ensures { (result ≡ true) ↔ GrantOne self.now given servers.now }
    {
        match given {
            Some(op) => self.has_each(op, servers),
            None => self.has_one(servers),
        }
    }
}
