//! Whether a history is wired.
ghost use Rattle.std.specs.Prelude.{◌≡◌, [], ◌∷◌, List, true, Ok, IfErr};
ghost use Rattle.sl_defs.specs.declared.setup.Setup.{Setup};
ghost use Rattle.sl_model.specs.Volume as volumes;
ghost use Rattle.sl_history.specs.Turns as turns;
ghost use Rattle.sl_history.specs.Turns.{begun, so_far};
ghost use Rattle.sl_history.specs.Volumes.{volume_after};
ghost use Rattle.sl_history.specs.Deciding.{Says};
ghost use Rattle.sl_history.specs.Wired.{AllMayBeNoted, IsWiredTurn, MayNote, Wired};
ghost use Rattle.sl_past.specs.Words.{happening_of, remark_of};
ghost use Rattle.sl_ledger.specs.Stops.{StopsAmong, StopsAtNote, StopsIn};
ghost use Rattle.sl_wiring.specs.Dockets.{IsDocketOf};
ghost use Rattle.sl_wiring.specs.Notes.{Notes, audit};

use crate::docket::Docket;
use sl_defs::{NoMemory, Setup};
use sl_ledger::AuditFault;
use sl_past::{Happening, Remark, Turn};
use sl_plain::Volume;
use std::alloc::Global;

/// The same answer, where memory may have run out.
fn audited(answer: Result<bool, NoMemory>) -> Result<bool, AuditFault>
    ensures { result ≡ audit answer }
{
    match answer {
        Ok(answer) => Ok(answer),
        Err(_) => Err(AuditFault::NoMemory),
    }
}

/// Whether a remark of the newest turn may be noted next.
fn may_note(
    alloc: Global,
    docket: &Docket,
    happening: &Happening,
    remark: &Remark,
) -> Result<bool, AuditFault>
    ensures decides { (setup : Setup) (start : volumes.Volume) (t : turns.Turn) (past : turns.History) (before : List turns.Remark) → t.happening ≡ happening_of happening.now → IsDocketOf setup start (so_far t before ∷ past) docket.now
        → Says result (MayNote setup start past t (so_far t before ∷ past) (remark_of remark.now)) }
    ensures stopped { IfErr result (λ fault. (setup : Setup) (start : volumes.Volume) (h : turns.History) → IsDocketOf setup start h docket.now → StopsAtNote fault (volume_after start h) h (remark_of remark.now)) }
{
    match remark {
        Remark::Sent { number, frame } => {
            audited(docket.is_sent(alloc, happening, *number, frame))
        }
        Remark::Replied {
            arrival,
            event,
            bytes,
        } => audited(docket.is_wired_reply(alloc, *arrival, *event, bytes.as_slice())),
        Remark::Did {
            arrival,
            choice,
            ..
        } => {
            let after = docket.volume_after(alloc, remark)?;
            audited(docket.is_wired_did(alloc, &after, *arrival, *choice))
        }
        Remark::Flush(_) => {
            let after = docket.volume_after(alloc, remark)?;
            audited(docket.is_wired_flush(alloc, &after))
        }
        Remark::Verf(_)
        | Remark::Junk(_)
        | Remark::Early(_)
        | Remark::Full(_)
        | Remark::Lost(_)
        | Remark::Down(_) => Ok(true),
    }
}

/// Takes a remark of the newest turn, where it may be noted next.
fn note(
    alloc: Global,
    docket: &mut Docket,
    happening: &Happening,
    remark: &Remark,
) -> Result<bool, AuditFault>
    ensures notes { Notes docket.old docket.new (happening_of happening.now) (remark_of remark.now) result }
{
    let may = may_note(alloc, docket, happening, remark)?;
    if !may {
        return Ok(false);
    }
    docket.take(alloc, remark)?;
    Ok(true)
}

/// Whether the remarks of a turn that has begun may be noted one after another.
fn may_be_noted(alloc: Global, docket: &mut Docket, turn: &Turn) -> Result<bool, AuditFault>
    ensures decides { (setup : Setup) (start : volumes.Volume) (past : turns.History) → IsDocketOf setup start (begun past turn.now.happening turn.now.moment) docket.old
        → Says result (AllMayBeNoted setup start turn.now past [] turn.now.remarks) }
    ensures takes { result ≡ Ok true → (setup : Setup) (start : volumes.Volume) (past : turns.History) → IsDocketOf setup start (begun past turn.now.happening turn.now.moment) docket.old
        → IsDocketOf setup start (turn.now ∷ past) docket.new }
    ensures stopped { (setup : Setup) (start : volumes.Volume) (past : turns.History) → IsDocketOf setup start (begun past turn.now.happening turn.now.moment) docket.old
        → IfErr result (λ fault. StopsAmong fault start turn.now past [] turn.now.remarks) }
{
    for remark in turn.remarks() {
        let may = note(alloc, docket, turn.happening(), remark)?;
        if !may {
            return Ok(false);
        }
    }
    Ok(true)
}

/// Whether the turn is wired behind those before it.
fn is_wired_turn(alloc: Global, docket: &mut Docket, turn: &Turn) -> Result<bool, AuditFault>
    ensures decides { (setup : Setup) (start : volumes.Volume) (past : turns.History) → IsDocketOf setup start past docket.old → Says result (IsWiredTurn setup start past turn.now) }
    ensures takes { result ≡ Ok true → (setup : Setup) (start : volumes.Volume) (past : turns.History) → IsDocketOf setup start past docket.old → IsDocketOf setup start (turn.now ∷ past) docket.new }
    ensures stopped { (setup : Setup) (start : volumes.Volume) (past : turns.History) → IsDocketOf setup start past docket.old → IfErr result (λ fault. StopsIn fault start (turn.now ∷ past)) }
{
    if !docket.is_flying(turn.happening()) {
        return Ok(false);
    }
    if docket.begin(alloc, turn.happening()).is_err() {
        return Err(AuditFault::NoMemory);
    }
    let may = may_be_noted(alloc, docket, turn)?;
    if !may {
        return Ok(false);
    }
    audited(docket.are_true(alloc, turn.remarks()))
}

/// Whether the turns of a history are wired, from the oldest on. The docket is that of no turn.
fn are_wired(alloc: Global, docket: &mut Docket, history: &[Turn]) -> Result<bool, AuditFault>
    ensures decides { (setup : Setup) (start : volumes.Volume) → IsDocketOf setup start [] docket.old → Says result (Wired setup start history.now) }
    ensures stopped { (setup : Setup) (start : volumes.Volume) → IsDocketOf setup start [] docket.old → IfErr result (λ fault. StopsIn fault start history.now) }
{
    let mut left = history.len();
    while left > 0 {
        left -= 1;
        let wired = is_wired_turn(alloc, docket, &history[left])?;
        if !wired {
            return Ok(false);
        }
    }
    Ok(true)
}

/// Whether the history's frames and servers play their parts: whether it is wired in an ensemble of this setup, for a
/// server that began with this volume. It goes through the turns once, the oldest first.
pub fn is_wired(
    alloc: Global,
    setup: Setup,
    start: Volume,
    history: &[Turn],
) -> Result<bool, AuditFault>
    ensures decides { Says result (Wired setup start history.now) }
    ensures stopped { IfErr result (λ fault. StopsIn fault start history.now) }
{
    let Ok(mut docket) = Docket::new(alloc, setup, start) else {
        return Err(AuditFault::NoMemory);
    };
    are_wired(alloc, &mut docket, history)
}
