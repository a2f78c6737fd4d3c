//! The one server's volume along a history.
ghost use Rattle.std.specs.Prelude.{◌≡◌, ◌∷◌, IfErr, IfOk, OnOk};
ghost use Rattle.sl_model.specs.Volume as volumes;
ghost use Rattle.sl_history.specs.Turns.{History, Turn, noted};
ghost use Rattle.sl_history.specs.Volumes.{after_note, volume_after};
ghost use Rattle.sl_past.specs.Words.{remark_of};
ghost use Rattle.sl_ledger.specs.Ledgers.{IsLedgerOf};
ghost use Rattle.sl_ledger.specs.Replies.{IsReplyOf};
ghost use Rattle.sl_ledger.specs.Stops.{StopsAtNote};

use crate::fault::AuditFault;
use crate::ledger::Ledger;
use sl_past::Remark;
use sl_plain::Volume;
use sl_types::{Ended, Reply};
use std::alloc::Global;

/// Lets the one server take a note.
fn take(
    alloc: Global,
    ledger: &Ledger,
    volume: &mut Volume,
    remark: &Remark,
) -> Result<Option<Reply>, AuditFault>
    ensures serves { IfOk result (λ reply. (h : History) → IsLedgerOf h ledger.now → (volume.new ≡ after_note h (remark_of remark.now) volume.old) × IsReplyOf reply h (remark_of remark.now) volume.old) }
    ensures stopped { IfErr result (λ fault. (h : History) → IsLedgerOf h ledger.now → StopsAtNote fault volume.old h (remark_of remark.now)) }
{
    match remark {
        Remark::Did {
            arrival,
            at,
            choice,
        } => match ledger.asked(*arrival) {
            Some(asked) => match volume.perform(alloc, &asked.call, &asked.cred, *at, choice) {
                Ok(reply) => Ok(Some(reply)),
                Err(Ended::NoMemory) => Err(AuditFault::NoMemory),
                Err(Ended::Spent) => Err(AuditFault::Spent),
            },
            None => Ok(None),
        },
        Remark::Flush(file) => match volume.flush(*file) {
            Ok(()) => Ok(None),
            Err(_) => Err(AuditFault::NoMemory),
        },
        Remark::Verf(verifier) => {
            volume.restart(alloc, *verifier);
            Ok(None)
        }
        _ => Ok(None),
    }
}

/// Lets the one server take a note behind those that the ledger knows: a call takes effect, a file's unstable writes become
/// stable, or all are lost. The reply is that of the effect, where one is noted.
pub fn serve(
    alloc: Global,
    ledger: &Ledger,
    volume: &mut Volume,
    remark: &Remark,
) -> Result<Option<Reply>, AuditFault>
    // The volume follows the history, whether the ledger has the note already or not.
    ensures follows { OnOk result ((start : volumes.Volume) (t : Turn) (past : History) → IsLedgerOf (t ∷ past) ledger.now → volume.old ≡ volume_after start (t ∷ past)
        → volume.new ≡ volume_after start (noted (t ∷ past) (remark_of remark.now))) }
    ensures serves { IfOk result (λ reply. (h : History) → IsLedgerOf h ledger.now → (volume.new ≡ after_note h (remark_of remark.now) volume.old) × IsReplyOf reply h (remark_of remark.now) volume.old) }
    ensures stopped { IfErr result (λ fault. (h : History) → IsLedgerOf h ledger.now → StopsAtNote fault volume.old h (remark_of remark.now)) }
{
    take(alloc, ledger, volume, remark)
}
