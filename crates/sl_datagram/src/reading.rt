ghost use Rattle.std.specs.Prelude.{◌≡◌, ℕ, List, Option, IfOk};
ghost use Rattle.sl_defs.specs.Rpc.{accepted_text, call_header_at};
ghost use Rattle.sl_calls.specs.Reading.{args_at};
ghost use Rattle.sl_history.specs.Arrivals.{datagram};
ghost use Rattle.sl_datagram.specs.Datagrams.{datagram_of, with_read};

use crate::datagram::{Asked, Datagram};
use sl_calls::read_args;
use sl_rpc::{AcceptStat, Head, immediate_answer, read_call, write_accept};
use sl_types::{ArgsFault, Bytes, Cred, NoMemory};
use std::alloc::Global;

/// The reply to a call whose arguments aren't in the grammar.
fn garbage_args(alloc: Global, xid: u32) -> Result<Bytes, NoMemory>
    ensures { IfOk result (λ reply. reply ≡ accepted_text xid 4) }
{
    let mut out = Vec::new(alloc);
    match write_accept(xid, AcceptStat::GarbageArgs, &mut out) {
        Ok(()) => Ok(Bytes::new(out)),
        Err(_) => Err(NoMemory),
    }
}

/// A call that isn't answered by its header, with these bytes behind it.
fn read_asked(
    alloc: Global,
    xid: u32,
    procedure: u32,
    cred: Cred,
    args: &[u8],
) -> Result<Datagram, NoMemory>
    ensures { IfOk result (λ d. datagram_of d ≡ with_read xid procedure cred (args_at procedure args.now)) }
{
    match read_args(alloc, procedure, args) {
        Ok(call) => Ok(Datagram::Asked(Asked {
            xid,
            procedure,
            call,
            cred,
        })),
        Err(ArgsFault::Garbage) => Ok(Datagram::Answered(garbage_args(alloc, xid)?)),
        Err(ArgsFault::NoMemory) => Err(NoMemory),
    }
}

/// What these bytes are.
pub fn read_datagram(alloc: Global, bytes: &[u8]) -> Result<Datagram, NoMemory>
    ensures { IfOk result (λ d. datagram bytes.now ≡ datagram_of d) }
{
    let head = read_call(bytes);
    if let Some(reply) = immediate_answer(alloc, &head)? {
        return Ok(Datagram::Answered(reply));
    }
    match head {
        Head::Call {
            xid,
            procedure,
            cred,
            args,
        } => read_asked(alloc, xid, procedure, cred, &bytes[args..]),
        // Each other call is answered by its header.
        _ => Ok(Datagram::Junk),
    }
}
