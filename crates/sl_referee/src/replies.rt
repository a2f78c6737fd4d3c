//! Replies.
ghost use Rattle.std.specs.Prelude.{◌≡◌, ◌↔◌, true, Option, Some, None, IfErr, option_map};
ghost use Rattle.std.specs.Option.{option_copied};
ghost use Rattle.sl_history.specs.Legal.{no_choice};
ghost use Rattle.sl_datagram.specs.Datagrams.{asked_of};
ghost use Rattle.sl_referee.specs.Cases.{IsAnswerIf, IsAtOnce, IsLookAt};
ghost use Rattle.sl_history.specs.Deciding.{Says};
ghost use Rattle.sl_referee.specs.Stops.{StopsAt};

use crate::answer::answer;
use crate::case::{Answer, Case};
use crate::fault::RefereeFault;
use crate::words::{is_settled, succeeded};
use sl_datagram::Asked;
use sl_defs::{Choice, NoMemory, Time};
use sl_plain::Volume;
use std::alloc::Global;

/// Whether the reply to a call that is answered whatever the server holds comes in the event of its arrival, and is the
/// answer.
pub fn is_at_once(
    is_proxy_up: bool,
    newest: u64,
    arrival: u64,
    event: u64,
    bytes: &[u8],
    answer: &[u8],
) -> bool
    ensures { (result ≡ true) ↔ IsAtOnce is_proxy_up newest arrival event bytes.now answer.now }
{
    is_proxy_up && arrival == newest && event == arrival && bytes == answer
}

/// Whether the reply to a call that may change something is the answer of its effect.
pub fn is_of_effect(event: u64, bytes: &[u8], effect: Option<&Answer>) -> bool
    ensures { (result ≡ true) ↔ IsAnswerIf event bytes.now (option_copied effect.entry) }
{
    match effect {
        Some(answer) => event == answer.event && bytes == answer.bytes.as_slice(),
        None => false,
    }
}

/// Whether the reply to a call that only asks is what the server answers on this volume, which is that at the end of the
/// event that gave the answer.
pub fn is_look(
    alloc: Global,
    case: &Case,
    asked: &Asked,
    volume: &Volume,
    now: Time,
    arrival: u64,
    event: u64,
    newest: u64,
    bytes: &[u8],
) -> Result<bool, RefereeFault>
    ensures decides { Says result (IsLookAt case.now volume.now now arrival event newest bytes.now (asked_of asked.now)) }
    ensures stopped { IfErr result (λ fault. StopsAt fault volume.now (asked_of asked.now) now no_choice) }
{
    if case.dropped || event < arrival || newest < event {
        return Ok(false);
    }
    let Ok(mut copy) = volume.copy() else {
        return Err(RefereeFault::NoMemory);
    };
    let (reply, expected) = answer(alloc, &mut copy, asked, now, NO_CHOICE)?;
    Ok(bytes == expected.as_slice() && (!succeeded(&reply) || is_settled(volume, &asked.call)))
}

/// No choice is left to a call that only asks.
const NO_CHOICE: Choice = Choice {
    fileid: 0,
    kept: false,
};
