//! Calls, performed on a volume.
ghost use Rattle.std.specs.Prelude.{◌≡◌, ℕ, List, IfOk};
ghost use Rattle.sl_defs.specs.declared.note.Choice.{Choice};
ghost use Rattle.sl_defs.specs.declared.setup.Time.{Time};
ghost use Rattle.plainly.specs.Answers.{FitsRequest, IsCallAnswer, IsReplyAnswer, IsAnswerTo, call_text};

use crate::answers::Answer;
use sl_calls::read_args;
use sl_packing::{PacketFault, reply_packet};
use sl_plain::Volume;
use sl_rpc::{Head, read_call};
use sl_text::{cut, hex_bytes, number_u32, number_u64};
use sl_types::{ArgsFault, Bytes, Call, Choice, Cred, Ended, NoMemory, Reply, Time};
use std::alloc::Global;

/// A moment, a choice and a datagram.
pub fn call_of(alloc: Global, text: &[u8]) -> Result<(Time, Choice, Bytes), NoMemory>
    ensures { (at : Time) (choice : Choice) (datagram : List ℕ) → FitsRequest at choice datagram → text.now ≡ call_text at choice datagram
        → IfOk result (λ x. (x.0 ≡ at) × (x.1 ≡ choice) × (x.2 ≡ datagram)) }
{
    let (sec, rest) = cut(text);
    let (nsec, rest) = cut(rest);
    let (fileid, rest) = cut(rest);
    let (kept, hex) = cut(rest);
    let at = Time {
        sec: number_u32(sec),
        nsec: number_u32(nsec),
    };
    let choice = Choice {
        fileid: number_u64(fileid),
        kept: number_u64(kept) == 1,
    };
    match hex_bytes(alloc, hex) {
        Ok(datagram) => Ok((at, choice, datagram)),
        Err(e) => Err(e),
    }
}

/// The answer that a reply is.
fn answer_reply(alloc: Global, xid: u32, reply: &Reply) -> Result<Answer, NoMemory>
    ensures { IfOk result (IsReplyAnswer xid reply.now) }
{
    match reply_packet(alloc, xid, reply) {
        Ok(packet) => Ok(Answer::Reply(packet)),
        Err(PacketFault::TooLong) => Ok(Answer::TooLong),
        Err(PacketFault::NoMemory) => Err(NoMemory),
    }
}

/// The answer to a call, which is performed.
fn answer_performed(
    alloc: Global,
    volume: &mut Volume,
    xid: u32,
    call: &Call,
    cred: &Cred,
    at: Time,
    choice: Choice,
) -> Result<Answer, NoMemory>
    ensures { IfOk result (IsAnswerTo volume.old volume.new xid call.now cred.now at choice) }
{
    match volume.perform(alloc, call, cred, at, &choice) {
        Ok(reply) => answer_reply(alloc, xid, &reply),
        Err(Ended::Spent) => Ok(Answer::Spent),
        Err(Ended::NoMemory) => Err(NoMemory),
    }
}

/// The answer to a datagram, whose call is performed at a moment with a choice.
pub fn answer_call(
    alloc: Global,
    volume: &mut Volume,
    datagram: &[u8],
    at: Time,
    choice: Choice,
) -> Result<Answer, NoMemory>
    ensures { IfOk result (IsCallAnswer volume.old volume.new at choice datagram.now) }
{
    let Head::Call {
        xid,
        procedure,
        cred,
        args,
    } = read_call(datagram)
    else {
        return Ok(Answer::NoCall);
    };
    match read_args(alloc, procedure, &datagram[args..]) {
        Ok(call) => answer_performed(alloc, volume, xid, &call, &cred, at, choice),
        Err(ArgsFault::Garbage) => Ok(Answer::Garbage),
        Err(ArgsFault::NoMemory) => Err(NoMemory),
    }
}
