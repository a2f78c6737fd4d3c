//! Effects.
ghost use Rattle.std.specs.Prelude.{◌≡◌, ◌↔◌, ◌⊎◌, None, true, IfErr, IfOk, MatchOption};
ghost use Rattle.std.specs.FinMap as map;
ghost use Rattle.sl_model.specs.Perform.{perform};
ghost use Rattle.sl_history.specs.Arrivals.{answer_to};
ghost use Rattle.sl_datagram.specs.Datagrams.{asked_of};
ghost use Rattle.sl_referee.specs.Cases.{MayBegin, TakesEffect};
ghost use Rattle.sl_referee.specs.Stops.{StopsAt};

use crate::answer::answer;
use crate::case::Case;
use crate::fault::RefereeFault;
use crate::words::{is_kept, is_not_after};
use sl_datagram::{Asked, is_changing};
use sl_defs::{Bytes, Choice, Time};
use sl_plain::Volume;
use sl_types::Call;
use std::alloc::Global;

/// Whether the fileid of a new object was never used, or there is no new object.
fn is_unused(volume: &Volume, fileid: u64) -> bool
    ensures { (result ≡ true) ↔ ((fileid ≡ 0) ⊎ (map.get volume.now.used fileid ≡ None)) }
{
    fileid == 0 || !volume.was_used(fileid)
}

/// Whether the call of the case may take effect at a moment, as far as that follows without performing it.
fn may_begin(case: &Case, call: &Call, volume: &Volume, now: Time, at: Time, choice: Choice) -> bool
    ensures { (result ≡ true) ↔ MayBegin case.now call.now volume.now now at choice }
{
    is_changing(call)
        && !case.dropped
        && case.effect.is_none()
        && is_not_after(case.moment, at)
        && is_not_after(at, now)
        && is_unused(volume, choice.fileid)
}

/// Lets the call of the case take effect at a moment, where it may: the bytes that it answers.
pub fn take_effect(
    alloc: Global,
    case: &Case,
    asked: &Asked,
    volume: &mut Volume,
    now: Time,
    at: Time,
    choice: Choice,
) -> Result<Option<Bytes>, RefereeFault>
    ensures taken { IfOk result (λ taken. MatchOption taken (TakesEffect case.now (asked_of asked.now) volume.old now at choice → ⊥) (λ bytes. TakesEffect case.now (asked_of asked.now) volume.old now at choice
        × (volume.new ≡ (perform volume.old asked.now.call asked.now.cred at choice).0) × (bytes ≡ answer_to (asked_of asked.now) (perform volume.old asked.now.call asked.now.cred at choice).1))) }
    ensures stopped { IfErr result (λ fault. StopsAt fault volume.old (asked_of asked.now) at choice) }
{
    if !may_begin(case, &asked.call, volume, now, at, choice) {
        return Ok(None);
    }
    let (reply, bytes) = answer(alloc, volume, asked, at, choice)?;
    if choice.kept == is_kept(&reply) {
        Ok(Some(bytes))
    } else {
        Ok(None)
    }
}
