//! Whether unstable writes may be lost.
ghost use Rattle.std.specs.Prelude.{◌≡◌, ◌||◌, ◌∷◌, []};
ghost use Rattle.sl_defs.specs.declared.setup.Time.{Time};
ghost use Rattle.sl_history.specs.Turns.{History, begun};
ghost use Rattle.sl_history.specs.Licensed.{lost_on, may_lose, stops_one};
ghost use Rattle.sl_past.specs.Words.{happening_of, remark_of};
ghost use Rattle.sl_ledger.specs.Ledgers.{IsLedgerOf};

use sl_defs::Event;
use sl_ledger::Ledger;
use sl_past::{Happening, Remark};

/// Whether the end of this actor may lose unstable writes: it is the proxy or a data server.
fn may_lose(actor: u8) -> bool
    ensures { result ≡ may_lose actor }
{
    actor == 0 || (32 <= actor && actor <= 35) || (48 <= actor && actor <= 55)
}

/// Whether unstable writes may be lost as the turn begins that the ledger has begun, where they might or might not before.
pub fn lost_as_begins(ledger: &Ledger, happening: &Happening, was: bool) -> bool
    ensures { (past : History) (moment : Time) → IsLedgerOf (begun past (happening_of happening.now) moment) ledger.now → result ≡ (was || stops_one past (happening_of happening.now)) }
{
    was || stops_one(ledger, happening)
}

/// Whether the turn that the ledger has begun stops such an actor.
fn stops_one(ledger: &Ledger, happening: &Happening) -> bool
    ensures { (past : History) (moment : Time) → IsLedgerOf (begun past (happening_of happening.now) moment) ledger.now → result ≡ stops_one past (happening_of happening.now) }
{
    match happening {
        Happening::Happens(Event::Stop { actor, .. }) => {
            may_lose(*actor) && ledger.was_up(*actor)
        }
        _ => false,
    }
}

/// Whether unstable writes may be lost after a note, where they might or might not before.
pub fn lost_by(remark: &Remark, was: bool) -> bool
    ensures { result ≡ lost_on (remark_of remark.now ∷ []) was }
{
    match remark {
        Remark::Verf(_) => false,
        Remark::Down(actor) => was || may_lose(*actor),
        _ => was,
    }
}
