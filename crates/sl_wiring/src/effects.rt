//! Whether effects come from those on whose disks they stand.
ghost use Rattle.std.specs.Prelude.{◌≡◌, ◌↔◌, ◌∷◌, List, Some, true};
ghost use Rattle.sl_defs.specs.declared.setup.Setup.{Setup};
ghost use Rattle.sl_model.specs.Volume as volumes;
ghost use Rattle.sl_history.specs.Turns as turns;
ghost use Rattle.sl_history.specs.Turns.{so_far};
ghost use Rattle.sl_history.specs.Arrivals.{asked};
ghost use Rattle.sl_history.specs.Deciding.{Says};
ghost use Rattle.sl_history.specs.Wired.{IsPacketFor, IsWiredDid, IsWiredDidIf, IsWiredEffect, IsWiredFlush, StandsRightly};
ghost use Rattle.sl_datagram.specs.Datagrams.{asked_of};
ghost use Rattle.sl_wiring.specs.Given.{GrantOne};
ghost use Rattle.sl_wiring.specs.Standing.{directory_if, directory_in, unkept_write};
ghost use Rattle.sl_wiring.specs.Dockets.{IsDocketOf};

use crate::docket::Docket;
use crate::places::byte_server;
use crate::replying::is_this_event;
use crate::sites::is_of_site;
use crate::standing::{are_all, changed_servers};
use sl_datagram::{Asked, fileid_of};
use sl_defs::{Choice, NoMemory};
use sl_plain::Volume;
use sl_types::Call;
use std::alloc::Global;

/// The file and the offset of a WRITE that isn't kept.
fn unkept_write(call: &Call, kept: bool) -> Option<(u64, u64)>
    ensures { result ≡ unkept_write kept call.now }
{
    match call {
        Call::Write { file, offset, .. } => {
            if kept {
                None
            } else {
                Some((fileid_of(file.as_slice()), *offset))
            }
        }
        _ => None,
    }
}

/// The actor, if it is a directory server.
fn directory_if(actor: u8) -> Option<u64>
    ensures { result ≡ directory_if actor }
{
    if 16 <= actor && actor <= 23 {
        Some(u64::from(actor))
    } else {
        None
    }
}

impl Docket {
    /// The directory server whose event the newest turn is.
    fn acting_directory(&self) -> Option<u64>
        ensures { result ≡ directory_in self.now.actor }
    {
        match self.actor {
            Some(actor) => directory_if(actor),
            None => None,
        }
    }

    /// Whether the newest turn is an event of the coordinator.
    fn is_coordinating(&self) -> bool
        ensures { (result ≡ true) ↔ (self.now.actor ≡ Some 1) }
    {
        match self.actor {
            Some(actor) => actor == 1,
            None => false,
        }
    }

    /// Whether the newest turn is the coordinator's, and each of these servers granted one and the same operation: the one
    /// whose Grant is given then, if one is.
    fn is_granted(&self, servers: &[u64]) -> bool
        ensures { (result ≡ true) ↔ ((self.now.actor ≡ Some 1) × GrantOne self.now.given.grants self.now.granted servers.now) }
    {
        self.is_coordinating() && self.given.grants().has_all(self.granted, servers)
    }

    /// Whether what changes stands where it may: each part with a server that granted one operation, in the coordinator's
    /// event, or all of it with the directory server whose event it is.
    fn stands_rightly(&self, alloc: Global, after: &Volume) -> Result<bool, NoMemory>
        ensures { (setup : Setup) (start : volumes.Volume) (t : turns.Turn) (past : turns.History) (before : List turns.Remark) → IsDocketOf setup start (so_far t before ∷ past) self.now → Says result (StandsRightly setup past t (t ∷ past) self.now.volume after.now) }
    {
        let servers = changed_servers(alloc, self.setup, &self.volume, after)?;
        if self.is_granted(servers.as_slice()) {
            return Ok(true);
        }
        match self.acting_directory() {
            Some(server) => Ok(are_all(servers.as_slice(), server)),
            None => Ok(false),
        }
    }

    /// Whether the proxy is given the answer of the request for this call from the server of this byte.
    fn is_packet_for(&self, arrival: u64, file: u64, offset: u64) -> bool
        ensures { (setup : Setup) (start : volumes.Volume) (t : turns.Turn) (past : turns.History) (before : List turns.Remark) → IsDocketOf setup start (so_far t before ∷ past) self.now → (result ≡ true) ↔ IsPacketFor setup past t arrival file offset }
    {
        let server = byte_server(self.setup, file, offset);
        match self.served(server) {
            Some(_) => is_this_event(self.answered, arrival),
            None => false,
        }
    }

    /// Whether an effect is noted where it may be, if it changes something.
    fn is_wired_effect(
        &self,
        alloc: Global,
        after: &Volume,
        arrival: u64,
        kept: bool,
        call: &Call,
    ) -> Result<bool, NoMemory>
        ensures { (setup : Setup) (start : volumes.Volume) (t : turns.Turn) (past : turns.History) (before : List turns.Remark) → IsDocketOf setup start (so_far t before ∷ past) self.now → Says result (IsWiredEffect setup past t (t ∷ past) self.now.volume after.now arrival kept call.now) }
    {
        match unkept_write(call, kept) {
            Some((file, offset)) => Ok(self.is_packet_for(arrival, file, offset)),
            None => self.stands_rightly(alloc, after),
        }
    }

    /// Whether an effect of the call, after which the volume is this one, is noted where it may be.
    fn is_wired_call(
        &self,
        alloc: Global,
        after: &Volume,
        arrival: u64,
        choice: Choice,
        asked: &Asked,
    ) -> Result<bool, NoMemory>
        ensures { (setup : Setup) (start : volumes.Volume) (t : turns.Turn) (past : turns.History) (before : List turns.Remark) → IsDocketOf setup start (so_far t before ∷ past) self.now → Says result (IsWiredDid setup past t (t ∷ past) self.now.volume after.now arrival choice (asked_of asked.now)) }
    {
        let of_site = is_of_site(alloc, self.setup.policy, &self.volume, after, choice.fileid)?;
        if !of_site {
            return Ok(false);
        }
        if self.volume.is_same(after) {
            return Ok(true);
        }
        self.is_wired_effect(alloc, after, arrival, choice.kept, &asked.call)
    }

    /// Whether the effect of an event's call, after which the volume is this one, is noted where it may be.
    pub fn is_wired_did(
        &self,
        alloc: Global,
        after: &Volume,
        arrival: u64,
        choice: Choice,
    ) -> Result<bool, NoMemory>
        ensures { (setup : Setup) (start : volumes.Volume) (t : turns.Turn) (past : turns.History) (before : List turns.Remark) → IsDocketOf setup start (so_far t before ∷ past) self.now → Says result (IsWiredDidIf setup past t (t ∷ past) self.now.volume after.now arrival choice (asked (so_far t before ∷ past) arrival)) }
    {
        match self.ledger.asked(arrival) {
            Some(asked) => self.is_wired_call(alloc, after, arrival, choice, asked),
            None => Ok(true),
        }
    }

    /// Whether a flush, after which the volume is this one, is noted in the coordinator's event, and all servers of what
    /// changes granted it.
    pub fn is_wired_flush(&self, alloc: Global, after: &Volume) -> Result<bool, NoMemory>
        ensures { (setup : Setup) (start : volumes.Volume) (t : turns.Turn) (past : turns.History) (before : List turns.Remark) → IsDocketOf setup start (so_far t before ∷ past) self.now → Says result (IsWiredFlush setup past t (t ∷ past) self.now.volume after.now) }
    {
        let servers = changed_servers(alloc, self.setup, &self.volume, after)?;
        Ok(self.is_granted(servers.as_slice()))
    }
}
