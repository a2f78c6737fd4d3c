//! Whether a history is fenced.
ghost use Rattle.std.specs.Prelude.{◌≡◌, ◌↔◌, ◌∷◌, [], true, Ok};
ghost use Rattle.std.specs.Option.{option_copied};
ghost use Rattle.sl_history.specs.Turns as turns;
ghost use Rattle.sl_history.specs.Turns.{begun};
ghost use Rattle.sl_history.specs.Arrivals.{asked};
ghost use Rattle.sl_history.specs.Licensed.{is_in};
ghost use Rattle.sl_history.specs.Fenced.{AllMayBeNoted, Fenced, IsCurrent, IsNotBefore, MayNote, StillWaits};
ghost use Rattle.sl_history.specs.Deciding.{Says};
ghost use Rattle.sl_past.specs.Words.{remark_of};
ghost use Rattle.sl_ledger.specs.Ledgers.{IsLedgerOf};

use sl_defs::NoMemory;
use sl_frames::Frame;
use sl_ledger::Ledger;
use sl_past::{Remark, Turn};
use std::alloc::Global;

/// Whether the fence is that of the last write verifier, or a later one.
fn is_not_before(verf: Option<u64>, fence: u64) -> bool
    ensures { (result ≡ true) ↔ IsNotBefore verf fence }
{
    match verf {
        Some(verf) => verf <= fence,
        None => true,
    }
}

/// Whether the frame isn't one of an earlier fence for the coordinator.
fn is_current(ledger: &Ledger, frame: Option<&Frame>) -> bool
    ensures { (h : turns.History) → IsLedgerOf h ledger.now → (result ≡ true) ↔ IsCurrent h (option_copied frame.entry) }
{
    match frame {
        Some(frame) => frame.to != 1 || is_not_before(ledger.last_verf(), frame.fence),
        None => true,
    }
}

/// Whether this number is among them.
fn is_among(numbers: &[u64], number: u64) -> bool
    ensures { result ≡ is_in number numbers.now }
{
    numbers.iter().any(|other| *other == number)
}

/// Whether the call of this event, if one came, still waits.
fn still_waits(ledger: &Ledger, arrival: u64) -> bool
    ensures { (h : turns.History) → IsLedgerOf h ledger.now → (result ≡ true) ↔ StillWaits h arrival (asked h arrival) }
{
    match ledger.asked(arrival) {
        Some(_) => is_among(ledger.waiting(), arrival),
        None => true,
    }
}

/// Whether the remark may be noted next.
fn may_note(ledger: &Ledger, remark: &Remark) -> bool
    ensures { (t : turns.Turn) (past : turns.History) → IsLedgerOf (t ∷ past) ledger.now → (result ≡ true) ↔ MayNote past t (t ∷ past) (remark_of remark.now) }
{
    match remark {
        Remark::Did { .. } => is_current(ledger, ledger.reached()),
        Remark::Flush(_) => is_current(ledger, ledger.reached()),
        Remark::Replied { arrival, .. } => still_waits(ledger, *arrival),
        _ => true,
    }
}

/// Whether the remarks of a turn that has begun may be noted one after another.
fn may_be_noted(alloc: Global, ledger: &mut Ledger, turn: &Turn) -> Result<bool, NoMemory>
    ensures decides { (past : turns.History) → IsLedgerOf (begun past turn.now.happening turn.now.moment) ledger.old → Says result (AllMayBeNoted turn.now past [] turn.now.remarks) }
    ensures takes { result ≡ Ok true → (past : turns.History) → IsLedgerOf (begun past turn.now.happening turn.now.moment) ledger.old → IsLedgerOf (turn.now ∷ past) ledger.new }
{
    for remark in turn.remarks() {
        if !may_note(ledger, remark) {
            return Ok(false);
        }
        ledger.note(alloc, remark)?;
    }
    Ok(true)
}

/// Whether the turn may stand behind those before it.
fn is_fenced_turn(alloc: Global, ledger: &mut Ledger, turn: &Turn) -> Result<bool, NoMemory>
    ensures decides { (past : turns.History) → IsLedgerOf past ledger.old → Says result (AllMayBeNoted turn.now past [] turn.now.remarks) }
    ensures takes { result ≡ Ok true → (past : turns.History) → IsLedgerOf past ledger.old → IsLedgerOf (turn.now ∷ past) ledger.new }
{
    ledger.begin(alloc, turn.happening())?;
    may_be_noted(alloc, ledger, turn)
}

/// Whether the turns of a history may stand there, from the oldest on. The ledger is that of no turn.
fn are_fenced(alloc: Global, ledger: &mut Ledger, history: &[Turn]) -> Result<bool, NoMemory>
    ensures { IsLedgerOf [] ledger.old → Says result (Fenced history.now) }
{
    let mut left = history.len();
    while left > 0 {
        left -= 1;
        if !is_fenced_turn(alloc, ledger, &history[left])? {
            return Ok(false);
        }
    }
    Ok(true)
}

/// Whether nothing of an earlier fence takes effect by the coordinator, or is replied, once a later fence's write verifier
/// stands. The newest turn of the history is the first.
pub fn is_fenced(alloc: Global, history: &[Turn]) -> Result<bool, NoMemory>
    ensures { Says result (Fenced history.now) }
{
    let mut ledger = Ledger::new(alloc)?;
    are_fenced(alloc, &mut ledger, history)
}
