//! Whether a history is licensed.
ghost use Rattle.std.specs.Prelude.{◌≡◌, [], ◌∷◌, true, Ok, IfErr};
ghost use Rattle.sl_model.specs.Volume as volumes;
ghost use Rattle.sl_history.specs.Turns as turns;
ghost use Rattle.sl_history.specs.Turns.{begun};
ghost use Rattle.sl_history.specs.Licensed.{IsLicensedTurn, Licensed};
ghost use Rattle.sl_history.specs.Deciding.{Says};
ghost use Rattle.sl_ledger.specs.Stops.{StopsAmong, StopsIn};
ghost use Rattle.sl_licence.specs.Crowds.{AreCrowdsOf};
ghost use Rattle.sl_licence.specs.Dockets.{AreDue, IsDocketOf, Stands};

use crate::asking::FlushRequest;
use crate::crowds::Crowds;
use crate::docket::Docket;
use crate::drops::{drop_exactly, due_drop, next_met};
use sl_ledger::AuditFault;
use sl_past::Turn;
use sl_plain::Volume;
use std::alloc::Global;

/// Whether the remarks of a turn that has begun may be noted one after another, as far as that can be said before the
/// turn has ended.
fn may_be_noted(
    alloc: Global,
    docket: &mut Docket,
    crowds: &Crowds,
    turn: &Turn,
    wanted: &mut Vec<FlushRequest>,
) -> Result<bool, AuditFault>
    // Those that are wanted now are those before and the new ones.
    ensures decides { wanted.old.items ≡ [] → (start : volumes.Volume) (past : turns.History) → IsDocketOf start (begun past turn.now.happening turn.now.moment) docket.old → AreCrowdsOf start past crowds.now
        → Stands result start turn.now past wanted.new.items }
    ensures takes { wanted.old.items ≡ [] → result ≡ Ok true → (start : volumes.Volume) (past : turns.History) → IsDocketOf start (begun past turn.now.happening turn.now.moment) docket.old → AreCrowdsOf start past crowds.now
        → IsDocketOf start (turn.now ∷ past) docket.new }
    ensures stopped { wanted.old.items ≡ [] → (start : volumes.Volume) (past : turns.History) → IsDocketOf start (begun past turn.now.happening turn.now.moment) docket.old → AreCrowdsOf start past crowds.now
        → IfErr result (λ fault. StopsAmong fault start turn.now past [] turn.now.remarks) }
{
    for remark in turn.remarks() {
        let may = docket.note(alloc, crowds, remark, wanted)?;
        if !may {
            return Ok(false);
        }
    }
    Ok(true)
}

/// Whether these flushes may be asked for, as the turn has ended.
fn are_due(alloc: Global, docket: &Docket, requests: &[FlushRequest]) -> Result<bool, AuditFault>
    ensures decides { (start : volumes.Volume) (h : turns.History) → IsDocketOf start h docket.now → Says result (AreDue start h requests.now) }
    ensures stopped { IfErr result (λ fault. fault ≡ AuditFault.NoMemory) }
{
    for request in requests {
        match docket.is_due(alloc, *request) {
            Ok(true) => {}
            Ok(false) => return Ok(false),
            Err(_) => return Err(AuditFault::NoMemory),
        }
    }
    Ok(true)
}

/// Whether the turn is licensed behind those before it.
fn is_licensed_turn(
    alloc: Global,
    docket: &mut Docket,
    crowds: &mut Crowds,
    turn: &Turn,
) -> Result<bool, AuditFault>
    ensures decides { (start : volumes.Volume) (past : turns.History) → IsDocketOf start past docket.old → AreCrowdsOf start past crowds.old → Says result (IsLicensedTurn start past turn.now) }
    ensures takes { result ≡ Ok true → (start : volumes.Volume) (past : turns.History) → IsDocketOf start past docket.old → AreCrowdsOf start past crowds.old
        → IsDocketOf start (turn.now ∷ past) docket.new × AreCrowdsOf start (turn.now ∷ past) crowds.new }
    ensures stopped { (start : volumes.Volume) (past : turns.History) → IsDocketOf start past docket.old → AreCrowdsOf start past crowds.old → IfErr result (λ fault. StopsIn fault start (turn.now ∷ past)) }
{
    let door = next_met(docket.ledger());
    let Ok(()) = docket.begin(alloc, turn.happening()) else {
        return Err(AuditFault::NoMemory);
    };
    if !drop_exactly(turn.remarks(), due_drop(docket.ledger(), door)) {
        return Ok(false);
    }
    let mut wanted = Vec::new(alloc);
    let may = may_be_noted(alloc, docket, crowds, turn, &mut wanted)?;
    if !may {
        return Ok(false);
    }
    let due = are_due(alloc, docket, &wanted)?;
    if !due {
        return Ok(false);
    }
    match docket.end(alloc, crowds) {
        Ok(()) => Ok(true),
        Err(_) => Err(AuditFault::NoMemory),
    }
}

/// Whether the turns of a history are licensed, from the oldest on. The docket is that of no turn.
fn are_licensed(
    alloc: Global,
    docket: &mut Docket,
    crowds: &mut Crowds,
    history: &[Turn],
) -> Result<bool, AuditFault>
    ensures decides { (start : volumes.Volume) → IsDocketOf start [] docket.old → AreCrowdsOf start [] crowds.old → Says result (Licensed start history.now) }
    ensures stopped { (start : volumes.Volume) → IsDocketOf start [] docket.old → AreCrowdsOf start [] crowds.old → IfErr result (λ fault. StopsIn fault start history.now) }
{
    let mut left = history.len();
    while left > 0 {
        left -= 1;
        let licensed = is_licensed_turn(alloc, docket, crowds, &history[left])?;
        if !licensed {
            return Ok(false);
        }
    }
    Ok(true)
}

/// Whether what the history drops, forgets, flushes and keeps, it may: whether it is licensed for a server that began with
/// this volume. It goes through the turns once, the oldest first.
pub fn is_licensed(alloc: Global, start: Volume, history: &[Turn]) -> Result<bool, AuditFault>
    ensures decides { Says result (Licensed start history.now) }
    ensures stopped { IfErr result (λ fault. StopsIn fault start history.now) }
{
    let Ok(mut docket) = Docket::new(alloc, start) else {
        return Err(AuditFault::NoMemory);
    };
    let mut crowds = Crowds::new(alloc);
    are_licensed(alloc, &mut docket, &mut crowds, history)
}
