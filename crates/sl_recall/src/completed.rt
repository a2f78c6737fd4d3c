//! Whether a history completes.
ghost use Rattle.std.specs.Prelude.{◌≡◌, ◌↔◌, ◌∷◌, [], true, IfOk, OnOk};
ghost use Rattle.sl_history.specs.Turns as turns;
ghost use Rattle.sl_history.specs.Arrivals.{is_welcomed, same_fence};
ghost use Rattle.sl_history.specs.Completing.{Completed, Completes};
ghost use Rattle.sl_history.specs.Deciding.{Says};
ghost use Rattle.sl_ledger.specs.Ledgers.{IsLedgerOf};

use crate::counts::{is_bounded, is_undisturbed};
use sl_defs::NoMemory;
use sl_ledger::Ledger;
use sl_past::Turn;
use std::alloc::Global;

/// The ledger takes a turn with its remarks.
fn take_turn(alloc: Global, ledger: &mut Ledger, turn: &Turn) -> Result<(), NoMemory>
    ensures { OnOk result ((past : turns.History) → IsLedgerOf past ledger.old → IsLedgerOf (turn.now ∷ past) ledger.new) }
{
    ledger.begin(alloc, turn.happening())?;
    for remark in turn.remarks() {
        ledger.note(alloc, remark)?;
    }
    Ok(())
}

/// The ledger of a history.
fn ledger_of(alloc: Global, history: &[Turn]) -> Result<Ledger, NoMemory>
    ensures { IfOk result (IsLedgerOf history.now) }
{
    let mut ledger = Ledger::new(alloc)?;
    let mut left = history.len();
    while left > 0 {
        left -= 1;
        take_turn(alloc, &mut ledger, &history[left])?;
    }
    Ok(ledger)
}

/// Whether both are the same fence.
fn is_same_fence(hello: Option<u64>, verf: Option<u64>) -> bool
    ensures { result ≡ same_fence hello verf }
{
    match (hello, verf) {
        (Some(hello), Some(verf)) => hello == verf,
        _ => false,
    }
}

/// Whether the coordinator welcomed the proxy under the proxy's fence.
fn is_welcomed(ledger: &Ledger) -> bool
    ensures { (h : turns.History) → IsLedgerOf h ledger.now → result ≡ is_welcomed h }
{
    is_same_fence(ledger.last_hello(), ledger.last_verf())
}

/// Whether everything is answered, by no more frames than may be.
fn completes(ledger: &Ledger, history: &[Turn]) -> bool
    ensures { IsLedgerOf history.now ledger.now → (result ≡ true) ↔ Completes history.now }
{
    is_bounded(history)
        && (!ledger.is_still() || is_welcomed(ledger) && ledger.waiting().is_empty())
}

/// Whether everything is answered, by a bounded number of frames, unless something is lost, stops or fails. The newest turn
/// of the history is the first.
pub fn is_completed(alloc: Global, history: &[Turn]) -> Result<bool, NoMemory>
    ensures { Says result (Completed history.now) }
{
    if !is_undisturbed(history) {
        return Ok(true);
    }
    let ledger = ledger_of(alloc, history)?;
    Ok(completes(&ledger, history))
}
