ghost use Rattle.std.specs.Prelude.{◌≡◌, ◌++◌, OnOk, OnErr};
ghost use Rattle.sl_defs.specs.Rpc.{accepted_text, mismatch_text, auth_error_text};
ghost use Rattle.sl_rpc.specs.Heads.{deny_text, accept_text, stat_number, Grew};

use crate::head::{AcceptStat, Deny};
use sl_xdr::{NoMemory, put_u32};

/// The message type of a reply.
const REPLY: u32 = 1;

const MSG_ACCEPTED: u32 = 0;

const MSG_DENIED: u32 = 1;

const RPC_MISMATCH: u32 = 0;

const AUTH_ERROR: u32 = 1;

const AUTH_NONE: u32 = 0;

const RPC_VERSION: u32 = 2;

const NFS_VERSION: u32 = 3;

fn number_of(stat: AcceptStat) -> u32
    ensures { result ≡ stat_number stat }
{
    match stat {
        AcceptStat::Success => 0,
        AcceptStat::ProgUnavail => 1,
        AcceptStat::ProgMismatch => 2,
        AcceptStat::ProcUnavail => 3,
        AcceptStat::GarbageArgs => 4,
    }
}

#[tactic(auto, unfolding(sl_defs::specs::Rpc::accepted_text), using(crate::proofs::Texts::joined))]
fn append_head(xid: u32, stat: AcceptStat, out: &mut Vec<u8>) -> Result<(), NoMemory>
    ensures ok { OnOk result (out.new.items ≡ out.old.items ++ accepted_text xid (stat_number stat)) }
    ensures grew { Grew out.old.items out.new.items }
{
    put_u32(out, xid)?;
    put_u32(out, REPLY)?;
    put_u32(out, MSG_ACCEPTED)?;
    put_u32(out, AUTH_NONE)?;
    put_u32(out, 0)?;
    put_u32(out, number_of(stat))?;
    Ok(())
}

#[tactic(auto, using(crate::proofs::Texts::joined))]
fn append_accept(xid: u32, stat: AcceptStat, out: &mut Vec<u8>) -> Result<(), NoMemory>
    ensures ok { OnOk result (out.new.items ≡ out.old.items ++ accept_text xid stat) }
    ensures grew { Grew out.old.items out.new.items }
{
    append_head(xid, stat, out)?;
    if stat == AcceptStat::ProgMismatch {
        put_u32(out, NFS_VERSION)?;
        put_u32(out, NFS_VERSION)?;
    }
    Ok(())
}

#[tactic(auto, unfolding(sl_defs::specs::Rpc::mismatch_text), using(crate::proofs::Texts::joined))]
fn append_mismatch(xid: u32, out: &mut Vec<u8>) -> Result<(), NoMemory>
    ensures ok { OnOk result (out.new.items ≡ out.old.items ++ mismatch_text xid) }
    ensures grew { Grew out.old.items out.new.items }
{
    put_u32(out, xid)?;
    put_u32(out, REPLY)?;
    put_u32(out, MSG_DENIED)?;
    put_u32(out, RPC_MISMATCH)?;
    put_u32(out, RPC_VERSION)?;
    put_u32(out, RPC_VERSION)?;
    Ok(())
}

#[tactic(auto, unfolding(sl_defs::specs::Rpc::auth_error_text), using(crate::proofs::Texts::joined))]
fn append_auth_error(xid: u32, error: u32, out: &mut Vec<u8>) -> Result<(), NoMemory>
    ensures ok { OnOk result (out.new.items ≡ out.old.items ++ auth_error_text xid error) }
    ensures grew { Grew out.old.items out.new.items }
{
    put_u32(out, xid)?;
    put_u32(out, REPLY)?;
    put_u32(out, MSG_DENIED)?;
    put_u32(out, AUTH_ERROR)?;
    put_u32(out, error)?;
    Ok(())
}

fn append_deny(xid: u32, deny: Deny, out: &mut Vec<u8>) -> Result<(), NoMemory>
    ensures ok { OnOk result (out.new.items ≡ out.old.items ++ deny_text xid deny) }
    ensures grew { Grew out.old.items out.new.items }
{
    match deny {
        Deny::RpcMismatch => append_mismatch(xid, out),
        Deny::AuthError(error) => append_auth_error(xid, error, out),
    }
}

/// Appends the reply that denies a call. Without memory nothing is appended.
#[tactic(auto, using(crate::proofs::Texts::joined))]
pub fn write_deny(xid: u32, deny: Deny, out: &mut Vec<u8>) -> Result<(), NoMemory>
    ensures ok { OnOk result (out.new.items ≡ out.old.items ++ deny_text xid deny) }
    ensures err { OnErr result (out.new.items ≡ out.old.items) }
{
    let before = out.len();
    match append_deny(xid, deny, out) {
        Ok(()) => Ok(()),
        Err(e) => {
            out.truncate(before);
            Err(e)
        }
    }
}

/// Appends an accepted reply, up to its results. Without memory nothing is appended.
#[tactic(auto, using(crate::proofs::Texts::joined))]
pub fn write_accept(xid: u32, stat: AcceptStat, out: &mut Vec<u8>) -> Result<(), NoMemory>
    ensures ok { OnOk result (out.new.items ≡ out.old.items ++ accept_text xid stat) }
    ensures err { OnErr result (out.new.items ≡ out.old.items) }
{
    let before = out.len();
    match append_accept(xid, stat, out) {
        Ok(()) => Ok(()),
        Err(e) => {
            out.truncate(before);
            Err(e)
        }
    }
}
