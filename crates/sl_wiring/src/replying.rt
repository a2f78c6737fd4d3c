//! Whether the bytes of a READ come from where they lie.
ghost use Rattle.std.specs.Prelude.{◌≡◌, ◌↔◌, ◌∷◌, ℕ, List, Some, true};
ghost use Rattle.std.specs.Option.{option_copied};
ghost use Rattle.sl_defs.specs.declared.setup.Setup.{Setup};
ghost use Rattle.sl_model.specs.Volume as volumes;
ghost use Rattle.sl_history.specs.Turns as turns;
ghost use Rattle.sl_history.specs.Turns.{so_far};
ghost use Rattle.sl_history.specs.Arrivals.{asked};
ghost use Rattle.sl_history.specs.Placing.{byte_server};
ghost use Rattle.sl_history.specs.Deciding.{Says};
ghost use Rattle.sl_history.specs.Wired.{IsRead, IsWiredReply};
ghost use Rattle.sl_datagram.specs.Datagrams.{asked_of};
ghost use Rattle.sl_wiring.specs.Served.{packet_from, served_by};
ghost use Rattle.sl_wiring.specs.Dockets.{IsDocketOf};

use crate::docket::Docket;
use crate::packets::bytes_read;
use crate::places::byte_server;
use sl_datagram::{Asked, fileid_of};
use sl_defs::{Bytes, NoMemory};
use sl_frames::{Body, Frame};
use sl_types::Call;
use std::alloc::Global;

/// The packet that a frame brings the proxy from this server.
fn packet_from(frame: &Frame, server: u64) -> Option<&[u8]>
    ensures { option_copied result ≡ packet_from frame.now server }
{
    if frame.to != 0 || u64::from(frame.from) != server {
        return None;
    }
    match &frame.body {
        Body::Packet(packet) => Some(packet.as_slice()),
        _ => None,
    }
}

/// Whether the event is this one, if there is one.
pub fn is_this_event(sent: Option<u64>, event: u64) -> bool
    ensures { (result ≡ true) ↔ (sent ≡ Some event) }
{
    match sent {
        Some(sent) => sent == event,
        None => false,
    }
}

/// Whether the bytes are these, if there are some.
fn are_these(read: &Option<Bytes>, bytes: &[u8]) -> bool
    ensures { (result ≡ true) ↔ (read.now ≡ Some bytes.now) }
{
    match read {
        Some(read) => read.as_slice() == bytes,
        None => false,
    }
}

impl Docket {
    /// The packet of this server that the proxy is given in the newest turn.
    pub fn served(&self, server: u64) -> Option<&[u8]>
        ensures { (setup : Setup) (start : volumes.Volume) (t : turns.Turn) (past : turns.History) (before : List turns.Remark) → IsDocketOf setup start (so_far t before ∷ past) self.now → option_copied result ≡ served_by past t server }
    {
        packet_from(self.ledger.reached()?, server)
    }

    /// Whether the bytes of a READ come from this server, in the answer to the request of this arrival's call, and the answer
    /// was sent in this event.
    fn is_read(
        &self,
        alloc: Global,
        server: u64,
        arrival: u64,
        event: u64,
        bytes: &[u8],
    ) -> Result<bool, NoMemory>
        ensures { (setup : Setup) (start : volumes.Volume) (t : turns.Turn) (past : turns.History) (before : List turns.Remark) (file offset : ℕ) → IsDocketOf setup start (so_far t before ∷ past) self.now → server ≡ byte_server setup file offset → Says result (IsRead setup past t arrival event file offset bytes.now) }
    {
        let Some(packet) = self.served(server) else {
            return Ok(false);
        };
        if !is_this_event(self.answered, arrival) {
            return Ok(false);
        }
        if !is_this_event(self.ledger.sent_in(), event) {
            return Ok(false);
        }
        let read = bytes_read(alloc, 6, packet)?;
        Ok(are_these(&read, bytes))
    }

    /// Whether the bytes of the reply to a READ that arrived in an event come from where they lie, in its answer that was sent
    /// in another.
    fn is_wired_read(
        &self,
        alloc: Global,
        asked: &Asked,
        arrival: u64,
        event: u64,
        reply: &[u8],
    ) -> Result<bool, NoMemory>
        ensures { (setup : Setup) (start : volumes.Volume) (t : turns.Turn) (past : turns.History) (before : List turns.Remark) → IsDocketOf setup start (so_far t before ∷ past) self.now → Says result (IsWiredReply setup past t arrival event reply.now (Some (asked_of asked.now))) }
    {
        let Call::Read { file, offset, .. } = &asked.call else {
            return Ok(true);
        };
        match bytes_read(alloc, asked.procedure, reply)? {
            Some(bytes) => {
                let server = byte_server(self.setup, fileid_of(file.as_slice()), *offset);
                self.is_read(alloc, server, arrival, event, bytes.as_slice())
            }
            None => Ok(true),
        }
    }

    /// Whether the reply to the call of an event is wired, whose answer is that of another.
    pub fn is_wired_reply(
        &self,
        alloc: Global,
        arrival: u64,
        event: u64,
        reply: &[u8],
    ) -> Result<bool, NoMemory>
        ensures { (setup : Setup) (start : volumes.Volume) (t : turns.Turn) (past : turns.History) (before : List turns.Remark) → IsDocketOf setup start (so_far t before ∷ past) self.now → Says result (IsWiredReply setup past t arrival event reply.now (asked (so_far t before ∷ past) arrival)) }
    {
        match self.ledger.asked(arrival) {
            Some(asked) => self.is_wired_read(alloc, asked, arrival, event, reply),
            None => Ok(true),
        }
    }
}
