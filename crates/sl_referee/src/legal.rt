//! Whether a history is legal.
ghost use Rattle.std.specs.Prelude.{◌≡◌, [], ◌∷◌, true, false, Ok, IfErr};
ghost use Rattle.sl_model.specs.Volume as volumes;
ghost use Rattle.sl_history.specs.Turns as turns;
ghost use Rattle.sl_history.specs.Legal.{AllMayBeNoted, IsLegalTurn, Legal};
ghost use Rattle.sl_history.specs.Deciding.{Says};
ghost use Rattle.sl_referee.specs.Dockets.{IsDocketOf};
ghost use Rattle.sl_history.specs.Turns.{begun};
ghost use Rattle.sl_referee.specs.Stops.{StopsAmong, StopsIn};

use crate::docket::Docket;
use crate::fault::RefereeFault;
use crate::turns::replies_at_once;
use sl_past::Turn;
use sl_plain::Volume;
use std::alloc::Global;

/// Whether the remarks of a turn that has begun may be noted one after another.
fn may_be_noted(alloc: Global, docket: &mut Docket, turn: &Turn) -> Result<bool, RefereeFault>
    ensures decides { (start : volumes.Volume) (past : turns.History) → IsDocketOf start (begun past turn.now.happening turn.now.moment) docket.old
        → Says result (AllMayBeNoted start turn.now past [] turn.now.remarks) }
    ensures takes { result ≡ Ok true → (start : volumes.Volume) (past : turns.History) → IsDocketOf start (begun past turn.now.happening turn.now.moment) docket.old
        → IsDocketOf start (turn.now ∷ past) docket.new }
    ensures stopped { (start : volumes.Volume) (past : turns.History) → IsDocketOf start (begun past turn.now.happening turn.now.moment) docket.old
        → IfErr result (λ fault. StopsAmong fault start turn.now past [] turn.now.remarks) }
{
    for remark in turn.remarks() {
        let may = docket.note(alloc, turn.moment(), remark)?;
        if !may {
            return Ok(false);
        }
    }
    Ok(true)
}

/// Whether the turn is legal behind those before it.
fn is_legal_turn(alloc: Global, docket: &mut Docket, turn: &Turn) -> Result<bool, RefereeFault>
    ensures decides { (start : volumes.Volume) (past : turns.History) → IsDocketOf start past docket.old → Says result (IsLegalTurn start past turn.now) }
    ensures takes { result ≡ Ok true → (start : volumes.Volume) (past : turns.History) → IsDocketOf start past docket.old → IsDocketOf start (turn.now ∷ past) docket.new }
    ensures stopped { (start : volumes.Volume) (past : turns.History) → IsDocketOf start past docket.old → IfErr result (λ fault. StopsIn fault start (turn.now ∷ past)) }
{
    let was_up = docket.is_proxy_up();
    docket.begin(alloc, turn.happening(), turn.moment())?;
    let may = may_be_noted(alloc, docket, turn)?;
    if !may {
        return Ok(false);
    }
    if !was_up {
        return Ok(true);
    }
    let newest = docket.newest();
    replies_at_once(alloc, turn.happening(), turn.remarks(), newest)
}

/// Whether the turns of a history are legal, from the oldest on. The docket is that of no turn.
fn are_legal(alloc: Global, docket: &mut Docket, history: &[Turn]) -> Result<bool, RefereeFault>
    ensures decides { (start : volumes.Volume) → IsDocketOf start [] docket.old → Says result (Legal start history.now) }
    ensures stopped { (start : volumes.Volume) → IsDocketOf start [] docket.old → IfErr result (λ fault. StopsIn fault start history.now) }
{
    let mut left = history.len();
    while left > 0 {
        left -= 1;
        let legal = is_legal_turn(alloc, docket, &history[left])?;
        if !legal {
            return Ok(false);
        }
    }
    Ok(true)
}

/// Whether the history, whose newest turn is the first, is legal for a server that began with this volume: whether its
/// effects, in the order in which they are noted, give exactly the replies that one server gives (RFC 1813). It goes
/// through the turns once, and keeps a copy of the volume for each event.
pub fn is_legal(alloc: Global, start: Volume, history: &[Turn]) -> Result<bool, RefereeFault>
    ensures decides { Says result (Legal start history.now) }
    // Memory ran out, or performing a call that the history names stops.
    ensures stopped { IfErr result (λ fault. StopsIn fault start history.now) }
{
    let mut docket = Docket::new(alloc, start)?;
    are_legal(alloc, &mut docket, history)
}
