ghost use Rattle.std.specs.Prelude.{◌≡◌, ◌++◌, Err, IfOk};
ghost use Rattle.sl_defs.specs.Rpc.{accepted_text};
ghost use Rattle.sl_replies.specs.Texts.{FitsReply, reply_text};
ghost use Rattle.sl_packing.specs.declared.packet.PacketFault.TheVariants.{TooLong};

use crate::fitting::fits;
use sl_replies::write_reply;
use sl_rpc::{AcceptStat, write_accept};
use sl_types::{Bytes, Reply};
use std::alloc::Global;

/// Why there is no packet of a reply.
#[derive(Clone, Copy, Debug, PartialEq, Eq)]
pub enum PacketFault {
    NoMemory,
    /// A part of the reply is longer than a packet can say, or its failure has the status OK.
    TooLong,
}

/// The packet of an accepted call's reply (RFC 5531, section 9): its head, and the results.
///
/// `TooLong` comes exactly where no packet can hold the reply.
pub fn reply_packet(alloc: Global, xid: u32, reply: &Reply) -> Result<Bytes, PacketFault>
    ensures ok { IfOk result (λ packet. packet ≡ accepted_text xid 0 ++ reply_text reply.now) }
    // A reply that has a packet fits one.
    ensures fits { IfOk result (λ packet. FitsReply reply.now) }
    // It is said to be too long exactly where it doesn't.
    ensures too_long { result ≡ Err TooLong → FitsReply reply.now → ⊥ }
    ensures unfit { (FitsReply reply.now → ⊥) → result ≡ Err TooLong }
{
    if !fits(reply) {
        return Err(PacketFault::TooLong);
    }
    let mut packet = Vec::new(alloc);
    if write_accept(xid, AcceptStat::Success, &mut packet).is_err() {
        return Err(PacketFault::NoMemory);
    }
    if write_reply(reply, &mut packet).is_err() {
        return Err(PacketFault::NoMemory);
    }
    Ok(Bytes::new(packet))
}
