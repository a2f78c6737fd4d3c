//! Replies as packets: those of the servers, and those to the clients.
ghost use Rattle.std.specs.Prelude.{◌≡◌, ◌++◌, IfOk, IfSome};
ghost use Rattle.sl_defs.specs.Items.{Gives};
ghost use Rattle.sl_defs.specs.Rpc.{accepted_text};
ghost use Rattle.sl_edit.specs.Spans as spans;
ghost use Rattle.sl_machine.specs.Packets as packets;
ghost use Rattle.sl_replies.specs.Texts.{FitsReply, reply_text};

use sl_replies::{read_reply, write_reply};
use sl_rpc::{AcceptStat, write_accept};
use sl_types::{ArgsFault, Bytes, NoMemory, Reply};
use sl_xdr::{Cursor, Short};
use std::alloc::Global;

/// Passes this number.
#[tactic(auto, unfolding(sl_edit::specs::Spans::word_at))]
fn pass(word: u32, cursor: &mut Cursor<'_>) -> Result<(), Short>
    ensures { Gives (λ u. cursor.new.rest) result (spans.word_at word cursor.old.rest) }
{
    if cursor.take_u32()? == word {
        Ok(())
    } else {
        Err(Short)
    }
}

/// The results of a call that was accepted and succeeded (RFC 5531, section 9): they stand behind the xid, the numbers of
/// such a reply, and an empty verifier.
#[tactic(auto, unfolding(sl_edit::specs::Spans::results_in))]
fn results_in(packet: &[u8]) -> Result<&[u8], Short>
    ensures { Gives (λ r. r.now) result (spans.results_in packet.now) }
{
    let mut cursor = Cursor::new(packet);
    cursor.take_u32()?;
    pass(1, &mut cursor)?;
    pass(0, &mut cursor)?;
    pass(0, &mut cursor)?;
    pass(0, &mut cursor)?;
    pass(0, &mut cursor)?;
    Ok(cursor.rest())
}

/// The reply to this procedure that a packet has, if it has one.
pub(crate) fn reply_in(
    alloc: Global,
    procedure: u32,
    packet: &[u8],
) -> Result<Option<Reply>, NoMemory>
    ensures exact { IfOk result (λ reply. reply ≡ packets.reply_in procedure packet.now) }
    ensures fits { IfOk result (λ reply. IfSome reply FitsReply) }
{
    let Ok(results) = results_in(packet) else {
        return Ok(None);
    };
    match read_reply(alloc, procedure, results) {
        Ok(reply) => Ok(Some(reply)),
        Err(ArgsFault::Garbage) => Ok(None),
        Err(ArgsFault::NoMemory) => Err(NoMemory),
    }
}

/// The whole reply to a call that succeeded.
pub(crate) fn reply_packet(alloc: Global, xid: u32, reply: &Reply) -> Result<Bytes, NoMemory>
    requires { FitsReply reply.now }
    ensures { IfOk result (λ packet. packet ≡ accepted_text xid 0 ++ reply_text reply.now) }
{
    let mut packet = Vec::new(alloc);
    if write_accept(xid, AcceptStat::Success, &mut packet).is_err() {
        return Err(NoMemory);
    }
    if write_reply(reply, &mut packet).is_err() {
        return Err(NoMemory);
    }
    Ok(Bytes::new(packet))
}
