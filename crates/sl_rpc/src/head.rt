ghost use Rattle.std.specs.Prelude.{◌≡◌, ◌≤◌, IfOk, OnErr, true, false};
ghost use Rattle.sl_defs.specs.Rpc.{is_broken};
ghost use Rattle.sl_rpc.specs.Heads.{view, caller_of, head_of, IsHeadOf};

use crate::credential::{no_user, read_auth_sys};
use crate::header::{RawHeader, take_header};
use sl_types::Cred;
use sl_xdr::{Cursor, Short};

/// Why a call is denied (RFC 5531, section 9, `reject_stat`).
#[derive(Clone, Copy, Debug, PartialEq, Eq)]
pub enum Deny {
    /// The RPC version isn't 2.
    RpcMismatch,
    /// The credential isn't taken, with the number that says why (`auth_stat`).
    AuthError(u32),
}

/// How a call that wasn't denied went (RFC 5531, section 9, `accept_stat`).
#[derive(Clone, Copy, Debug, PartialEq, Eq)]
pub enum AcceptStat {
    Success,
    ProgUnavail,
    ProgMismatch,
    ProcUnavail,
    GarbageArgs,
}

/// What a datagram is, by its header: no call, a call that is refused, or one of NFS version 3.
#[derive(Drop, Debug)]
pub enum Head {
    NotCall,
    Deny {
        xid: u32,
        deny: Deny,
    },
    Accept {
        xid: u32,
        stat: AcceptStat,
    },
    /// A call of a procedure from 0 to 21, whose arguments begin at this place.
    Call {
        xid: u32,
        procedure: u32,
        cred: Cred,
        args: usize,
    },
}

const RPC_VERSION: u32 = 2;

const AUTH_SYS: u32 = 1;

const AUTH_BADCRED: u32 = 1;

const AUTH_TOOWEAK: u32 = 5;

const NFS_PROGRAM: u32 = 100_003;

const NFS_VERSION: u32 = 3;

const LAST_PROCEDURE: u32 = 21;

/// Whom the header's credential names.
fn caller(h: &RawHeader<'_>) -> Result<Cred, Short>
    requires { h.now.flavor ≤ 1 }
    ensures named { IfOk result (λ cred. (is_broken (view h.now) ≡ false) × (cred ≡ caller_of (view h.now))) }
    ensures broken { OnErr result (is_broken (view h.now) ≡ true) }
{
    if h.flavor == AUTH_SYS {
        read_auth_sys(h.credential)
    } else {
        Ok(no_user())
    }
}

/// What this header says, whose arguments begin at this place.
#[tactic(auto, unfolding(sl_defs::specs::Rpc::refusal_of))]
fn judge(h: &RawHeader<'_>, args: usize) -> Head
    ensures { result ≡ head_of (view h.now) args }
{
    let xid = h.xid;
    if h.rpc_version != RPC_VERSION {
        let deny = Deny::RpcMismatch;
        return Head::Deny { xid, deny };
    }
    if h.flavor > AUTH_SYS {
        let deny = Deny::AuthError(AUTH_TOOWEAK);
        return Head::Deny { xid, deny };
    }
    let Ok(cred) = caller(h) else {
        let deny = Deny::AuthError(AUTH_BADCRED);
        return Head::Deny { xid, deny };
    };
    let procedure = h.procedure;
    let stat = if h.program != NFS_PROGRAM {
        AcceptStat::ProgUnavail
    } else if h.version != NFS_VERSION {
        AcceptStat::ProgMismatch
    } else if procedure > LAST_PROCEDURE {
        AcceptStat::ProcUnavail
    } else {
        return Head::Call {
            xid,
            procedure,
            cred,
            args,
        };
    };
    Head::Accept { xid, stat }
}

/// What any bytes are as a call: the first of the reasons to refuse it that applies, or the call.
pub fn read_call(bytes: &[u8]) -> Head
    ensures { IsHeadOf bytes.now result }
{
    let mut cursor = Cursor::new(bytes);
    match take_header(&mut cursor) {
        Ok(h) => judge(&h, cursor.place()),
        Err(_) => Head::NotCall,
    }
}
