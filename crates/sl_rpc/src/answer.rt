ghost use Rattle.std.specs.Prelude.{◌≡◌, ℕ, None, IfOk};
ghost use Rattle.sl_defs.specs.Rpc.{CallHeader, immediate_reply};
ghost use Rattle.sl_rpc.specs.Heads.{head_of, deny_text, accept_text, answer_to};

use crate::head::{AcceptStat, Deny, Head};
use crate::reply::{write_accept, write_deny};
use sl_types::{Bytes, NoMemory};
use std::alloc::Global;

const NULL: u32 = 0;

/// The reply that denies a call.
fn denied(alloc: Global, xid: u32, deny: Deny) -> Result<Bytes, NoMemory>
    ensures { IfOk result (λ reply. reply ≡ deny_text xid deny) }
{
    let mut out = Vec::new(alloc);
    match write_deny(xid, deny, &mut out) {
        Ok(()) => Ok(Bytes::new(out)),
        Err(_) => Err(NoMemory),
    }
}

/// The reply that a call was accepted, with no results.
fn accepted(alloc: Global, xid: u32, stat: AcceptStat) -> Result<Bytes, NoMemory>
    ensures { IfOk result (λ reply. reply ≡ accept_text xid stat) }
{
    let mut out = Vec::new(alloc);
    match write_accept(xid, stat, &mut out) {
        Ok(()) => Ok(Bytes::new(out)),
        Err(_) => Err(NoMemory),
    }
}

fn answer(alloc: Global, head: &Head) -> Result<Option<Bytes>, NoMemory>
    ensures { IfOk result (λ answer. answer ≡ answer_to head.now) }
{
    match head {
        Head::NotCall => Ok(None),
        Head::Deny { xid, deny } => Ok(Some(denied(alloc, *xid, *deny)?)),
        Head::Accept { xid, stat } => Ok(Some(accepted(alloc, *xid, *stat)?)),
        Head::Call { xid, procedure, .. } => {
            if *procedure == NULL {
                Ok(Some(accepted(alloc, *xid, AcceptStat::Success)?))
            } else {
                Ok(None)
            }
        }
    }
}

/// The reply that a head calls for, whatever the server holds: a refusal, or the empty result of NULL.
pub fn immediate_answer(alloc: Global, head: &Head) -> Result<Option<Bytes>, NoMemory>
    ensures header { (h : CallHeader) (args : ℕ) → head.now ≡ head_of h args → IfOk result (λ answer. answer ≡ immediate_reply h) }
    ensures no_call { head.now ≡ Head.NotCall → IfOk result (λ answer. answer ≡ None) }
{
    answer(alloc, head)
}
