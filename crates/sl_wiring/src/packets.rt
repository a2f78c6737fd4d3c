//! What packets say: the replies of servers, and the calls that are forwarded to them.
ghost use Rattle.std.specs.Prelude.{◌≡◌, Some, IfOk};
ghost use Rattle.sl_types.specs.Handles.{internal_of};
ghost use Rattle.sl_history.specs.Arrivals.{asked_in};
ghost use Rattle.sl_history.specs.Wired.{getattr_by, getattr_file, getattr_of, looked_at, read_bytes, results_of};
ghost use Rattle.sl_datagram.specs.Datagrams.{datagram_of};

use sl_datagram::{Datagram, read_datagram};
use sl_defs::{Bytes, NoMemory};
use sl_frames::Body;
use sl_ledger::results_of;
use sl_types::{Call, InternalHandle, Kind, Reply};
use std::alloc::Global;

/// The bytes of a READ's reply.
fn read_bytes(reply: Reply) -> Option<Bytes>
    ensures { result ≡ read_bytes (Some reply) }
{
    match reply {
        Reply::Read(Ok(read)) => Some(read.bytes),
        _ => None,
    }
}

/// The bytes that a packet has, where it is the reply to a READ and its results are those of this procedure.
pub fn bytes_read(alloc: Global, procedure: u32, packet: &[u8]) -> Result<Option<Bytes>, NoMemory>
    ensures { IfOk result (λ bytes. bytes ≡ read_bytes (results_of procedure packet.now)) }
{
    match results_of(alloc, procedure, packet)? {
        Some(reply) => Ok(read_bytes(reply)),
        None => Ok(None),
    }
}

/// The regular file of a handle among the servers.
fn file_of(handle: &[u8]) -> Option<u64>
    ensures { result ≡ getattr_file (internal_of handle.now) }
{
    let internal = InternalHandle::read(handle)?;
    match internal.handle.kind {
        Kind::Reg => Some(internal.handle.fileid),
        _ => None,
    }
}

/// The regular file whose attributes a call asks a server for.
fn looked_at_by(call: &Call) -> Option<u64>
    ensures { result ≡ getattr_by call.now }
{
    match call {
        Call::Getattr { object } => file_of(object.as_slice()),
        _ => None,
    }
}

/// That of a datagram.
fn looked_at_in(datagram: &Datagram) -> Option<u64>
    ensures { result ≡ getattr_of (asked_in (datagram_of datagram.now)) }
{
    match datagram {
        Datagram::Asked(asked) => looked_at_by(&asked.call),
        Datagram::Junk | Datagram::Answered(_) => None,
    }
}

/// The regular file whose attributes a frame asks a server for.
pub fn looked_at(alloc: Global, body: &Body) -> Result<Option<u64>, NoMemory>
    ensures { IfOk result (λ file. file ≡ looked_at body.now) }
{
    let Body::Forward { packet, .. } = body else {
        return Ok(None);
    };
    match read_datagram(alloc, packet.as_slice()) {
        Ok(datagram) => Ok(looked_at_in(&datagram)),
        Err(_) => Err(NoMemory),
    }
}
