//! Which datagrams are dropped.
ghost use Rattle.std.specs.Prelude.{◌≡◌, ◌↔◌, ◌∷◌, [], true, map};
ghost use Rattle.sl_history.specs.Turns.{History, Turn, so_far};
ghost use Rattle.sl_history.specs.Turns as turns;
ghost use Rattle.sl_history.specs.Arrivals.{is_welcomed};
ghost use Rattle.sl_history.specs.Licensed.{due_drop, dropping};
ghost use Rattle.sl_past.specs.Words.{remark_of};
ghost use Rattle.sl_datagram.specs.Datagrams.{datagram_of};
ghost use Rattle.sl_ledger.specs.Ledgers.{IsLedgerOf};
ghost use Rattle.sl_licence.specs.Drops.{drop_in, dropped_at, next_met, notes_of};

use sl_datagram::Datagram;
use sl_ledger::Ledger;
use sl_past::Remark;

/// So many calls wait at most.
const MOST_WAITING: usize = 256;

/// How the proxy meets a datagram.
#[derive(Clone, Copy, Debug, PartialEq, Eq)]
pub enum Door {
    /// It is down.
    Down,
    /// It isn't welcomed by the coordinator.
    Unwelcomed,
    /// As many calls wait as may.
    Full,
    Open,
}

/// That the datagram of an event is dropped, and why.
#[derive(Clone, Copy, Debug, PartialEq, Eq)]
pub enum Dropped {
    Junk(u64),
    Early(u64),
    Full(u64),
    Lost(u64),
}

/// Whether the coordinator welcomed the proxy under the fence that the proxy has.
fn is_welcomed(ledger: &Ledger) -> bool
    ensures { (h : History) → IsLedgerOf h ledger.now → result ≡ is_welcomed h }
{
    match (ledger.last_hello(), ledger.last_verf()) {
        (Some(hello), Some(verifier)) => hello == verifier,
        _ => false,
    }
}

/// How the proxy meets a datagram that comes next.
pub fn next_met(ledger: &Ledger) -> Door
    ensures { (h : History) → IsLedgerOf h ledger.now → result ≡ next_met h }
{
    if !ledger.is_up(0) {
        Door::Down
    } else if !is_welcomed(ledger) {
        Door::Unwelcomed
    } else if ledger.waiting().len() >= MOST_WAITING {
        Door::Full
    } else {
        Door::Open
    }
}

/// The note that drops the datagram of this event, if it has to be.
fn dropped_by(door: Door, event: u64, datagram: &Datagram) -> Option<Dropped>
    ensures { result ≡ dropped_at door event (datagram_of datagram.now) }
{
    match (door, datagram) {
        (Door::Down, _) => Some(Dropped::Lost(event)),
        (_, Datagram::Junk) => Some(Dropped::Junk(event)),
        (_, Datagram::Answered(_)) => None,
        (Door::Unwelcomed, Datagram::Asked(_)) => Some(Dropped::Early(event)),
        (Door::Full, Datagram::Asked(_)) => Some(Dropped::Full(event)),
        (Door::Open, Datagram::Asked(_)) => None,
    }
}

/// The note that has to drop the datagram of the turn that has begun, if one arrived and has to be dropped.
pub fn due_drop(ledger: &Ledger, door: Door) -> Option<Dropped>
    ensures { (t : Turn) (past : History) → IsLedgerOf (so_far t [] ∷ past) ledger.now → door ≡ next_met past → notes_of result ≡ due_drop past t (turns.datagram_of t.happening) }
{
    match ledger.arrived() {
        Some(datagram) => dropped_by(door, ledger.events(), datagram),
        None => None,
    }
}

/// What a note drops, if it does.
fn drop_in(remark: &Remark) -> Option<Dropped>
    ensures { result ≡ drop_in (remark_of remark.now) }
{
    match remark {
        Remark::Junk(event) => Some(Dropped::Junk(*event)),
        Remark::Early(event) => Some(Dropped::Early(*event)),
        Remark::Full(event) => Some(Dropped::Full(*event)),
        Remark::Lost(event) => Some(Dropped::Lost(*event)),
        _ => None,
    }
}

/// Whether the notes drop what is due, once, and nothing else.
pub fn drop_exactly(remarks: &[Remark], due: Option<Dropped>) -> bool
    ensures { (result ≡ true) ↔ (dropping (map remark_of remarks.now) ≡ notes_of due) }
{
    let mut left = due;
    for remark in remarks {
        let dropped = drop_in(remark);
        if dropped.is_some() {
            if dropped != left {
                return false;
            }
            left = None;
        }
    }
    left.is_none()
}
