//! What the one server answers.
ghost use Rattle.std.specs.Prelude.{◌≡◌, IfErr, IfOk};
ghost use Rattle.sl_history.specs.Arrivals.{answer_to};
ghost use Rattle.sl_model.specs.Perform.{perform};
ghost use Rattle.sl_datagram.specs.Datagrams.{asked_of};
ghost use Rattle.sl_referee.specs.Stops.{StopsAt};

use crate::fault::RefereeFault;
use sl_datagram::Asked;
use sl_defs::{Bytes, Choice, Time};
use sl_packing::{PacketFault, reply_packet};
use sl_plain::Volume;
use sl_types::{Ended, Reply};
use std::alloc::Global;

/// Performs the call on the volume, at a moment with a choice: the reply, and its bytes.
pub fn answer(
    alloc: Global,
    volume: &mut Volume,
    asked: &Asked,
    at: Time,
    choice: Choice,
) -> Result<(Reply, Bytes), RefereeFault>
    ensures done { IfOk result (λ x. ((volume.new, x.0) ≡ perform volume.old asked.now.call asked.now.cred at choice) × (x.1 ≡ answer_to (asked_of asked.now) x.0)) }
    ensures stopped { IfErr result (λ fault. StopsAt fault volume.old (asked_of asked.now) at choice) }
{
    let reply = match volume.perform(alloc, &asked.call, &asked.cred, at, &choice) {
        Ok(reply) => reply,
        Err(Ended::NoMemory) => return Err(RefereeFault::NoMemory),
        Err(Ended::Spent) => return Err(RefereeFault::Spent),
    };
    match reply_packet(alloc, asked.xid, &reply) {
        Ok(bytes) => Ok((reply, bytes)),
        Err(PacketFault::NoMemory) => Err(RefereeFault::NoMemory),
        Err(PacketFault::TooLong) => Err(RefereeFault::TooLong),
    }
}
