//! What follows from what happens, and what has to be noted of it.
ghost use Rattle.std.specs.Prelude.{◌≡◌, ◌↔◌, true, map, Contains};
ghost use Rattle.sl_history.specs.Frames.{up_by};
ghost use Rattle.sl_history.specs.Turns as turns;
ghost use Rattle.sl_past.specs.Words.{happening_of, remark_of};
ghost use Rattle.sl_referee.specs.Cases.{RepliesIn};
ghost use Rattle.sl_history.specs.Deciding.{Says};

use crate::fault::RefereeFault;
use sl_datagram::{Datagram, read_datagram};
use sl_defs::Event;
use sl_past::{Happening, Remark};
use std::alloc::Global;

/// Whether the proxy is up when this has happened, and no fault took it down.
pub fn is_proxy_up(happening: &Happening, was: bool) -> bool
    ensures { result ≡ up_by (happening_of happening.now) 0 was }
{
    match happening {
        Happening::Opens(_) => true,
        Happening::Happens(Event::Stop { actor, .. }) => was && *actor != 0,
        Happening::Happens(Event::Start(actor)) => was || *actor == 0,
        Happening::Reaches(_) | Happening::Happens(_) => was,
    }
}

/// Whether the remark is the reply to this call, noted in the event of its arrival.
fn is_reply_at_once(remark: &Remark, newest: u64, answer: &[u8]) -> bool
    ensures { (result ≡ true) ↔ (remark_of remark.now ≡ turns.Replied newest newest answer.now) }
{
    match remark {
        Remark::Replied {
            arrival,
            event,
            bytes,
        } => *arrival == newest && *event == newest && bytes.as_slice() == answer,
        _ => false,
    }
}

/// Whether this reply to the datagram of the newest event is among the remarks.
fn is_replied(remarks: &[Remark], newest: u64, answer: &[u8]) -> bool
    ensures { (result ≡ true) ↔ Contains (map remark_of remarks.now) (turns.Replied newest newest answer.now) }
{
    for remark in remarks {
        if is_reply_at_once(remark, newest, answer) {
            return true;
        }
    }
    false
}

/// Whether the remarks have the reply to the datagram that arrives, where it is answered whatever the server holds.
pub fn replies_at_once(
    alloc: Global,
    happening: &Happening,
    remarks: &[Remark],
    newest: u64,
) -> Result<bool, RefereeFault>
    ensures decides { Says result (RepliesIn newest (map remark_of remarks.now) (happening_of happening.now)) }
    ensures stopped { (fault : RefereeFault) → result ≡ Err fault → fault ≡ RefereeFault.NoMemory }
{
    let Happening::Happens(Event::Call { datagram, .. }) = happening else {
        return Ok(true);
    };
    match read_datagram(alloc, datagram.as_slice()) {
        Ok(Datagram::Answered(answer)) => Ok(is_replied(remarks, newest, answer.as_slice())),
        Ok(Datagram::Junk | Datagram::Asked(_)) => Ok(true),
        Err(_) => Err(RefereeFault::NoMemory),
    }
}
