//! A case: a volume, and the calls that are performed on it one behind the other.
use crate::words::{VOLUME, Words};
use sl_plain::{Volume, perform_plain};
use sl_types::{Call, Choice, Cred, Ended, Gids, NoMemory, Reply, Time};
use std::alloc::Global;

/// A volume, and what its next call is performed with.
#[derive(Drop)]
pub struct Case {
    volume: Volume,
    at: Time,
    uid: u32,
    gid: u32,
    /// The fileid for the next object that is made.
    next: u64,
    /// Whether no fileid is left.
    is_full: bool,
    /// Whether an unstable write is made stable at once.
    is_kept: bool,
    /// Whether calls are performed on the volume itself, and not each on a copy.
    is_in_place: bool,
}

impl Case {
    /// A new volume.
    pub fn new(alloc: Global) -> Result<Case, NoMemory> {
        Ok(Case {
            volume: Volume::new(alloc, VOLUME)?,
            at: Time { sec: 0, nsec: 0 },
            uid: 0,
            gid: 0,
            next: 2,
            is_full: false,
            is_kept: false,
            is_in_place: false,
        })
    }

    /// Does what a row says that is no call; whether it is such a row.
    pub fn told(&mut self, alloc: Global, row: &[u8]) -> Result<bool, NoMemory> {
        let mut words = Words::of(row, 0);
        let word = words.word();
        if word == b"at".as_slice() {
            self.at = words.time();
        } else if word == b"by".as_slice() {
            self.uid = words.number_u32();
            self.gid = words.number_u32();
        } else if word == b"full".as_slice() {
            self.is_full = true;
        } else if word == b"kept".as_slice() {
            self.is_kept = true;
        } else if word == b"flush".as_slice() {
            self.volume.flush(words.number_u64())?;
        } else if word == b"restart".as_slice() {
            self.volume.restart(alloc, words.number_u64());
        } else {
            return Ok(false);
        }
        Ok(true)
    }

    fn caller(&self) -> Cred {
        Cred {
            uid: self.uid,
            gid: self.gid,
            gids: Gids::new(),
        }
    }

    fn choice(&self) -> Choice {
        Choice {
            fileid: if self.is_full { 0 } else { self.next },
            kept: self.is_kept,
        }
    }

    /// From here on calls are performed on the volume itself, and not each on a copy.
    pub fn stay_in_place(&mut self) {
        self.is_in_place = true;
    }

    // The reply to a call, with whose volume the case goes on.
    fn reply_to(&mut self, alloc: Global, call: &Call) -> Result<Reply, Ended> {
        let (caller, choice) = (self.caller(), self.choice());
        if self.is_in_place {
            return self.volume.perform(alloc, call, &caller, self.at, &choice);
        }
        let (volume, reply) = perform_plain(&self.volume, call, &caller, self.at, &choice)?;
        self.volume = volume;
        Ok(reply)
    }

    /// Performs a call.
    pub fn perform(&mut self, alloc: Global, call: &Call) -> Result<Reply, Ended> {
        let reply = self.reply_to(alloc, call)?;
        if self.volume.node(self.next).is_some() {
            self.next = self.next.saturating_add(1);
        }
        Ok(reply)
    }
}
