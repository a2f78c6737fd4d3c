//! Fresh fileids: which calls asked for one, and which requests were told that none is left.
ghost use Rattle.std.specs.Prelude.{◌≡◌, ◌↔◌, ◌||◌, ◌∷◌, ℕ, [], true, OnOk};
ghost use Rattle.sl_defs.specs.Histories as histories;
ghost use Rattle.sl_defs.specs.declared.setup.Time.{Time};
ghost use Rattle.sl_history.specs.Turns.{History, Turn, begun, noted};
ghost use Rattle.sl_history.specs.Licensed.{IsTold, is_in};
ghost use Rattle.sl_past.specs.Words.{remark_of};
ghost use Rattle.sl_ledger.specs.Ledgers.{IsLedgerOf};
ghost use Rattle.sl_licence.specs.Mints.{AreMintsOf, Asks, AsksFor, IsNoneLeft, IsRefused, TellsIf, has_ticket, is_same_ticket, numbers_at};

use sl_defs::NoMemory;
use sl_frames::{Body, Frame};
use sl_ledger::Ledger;
use sl_past::Remark;
use std::alloc::Global;
use std::collections::{BTreeMap, BTreeSet};

/// A request's fence and tag.
#[derive(Clone, Copy, Debug, PartialEq, Eq, PartialOrd, Ord)]
pub struct Ticket {
    pub fence: u64,
    pub tag: u64,
}

/// The requests for a fresh fileid, and those that the proxy was told that none is left.
#[derive(Drop)]
pub struct Mints {
    /// By the events in which the calls came, the numbers of the frames that ask for one.
    numbers: BTreeMap<u64, Vec<u64>>,
    /// The requests that were answered that none is left.
    exhausted: BTreeSet<Ticket>,
}

/// Whether the frame tells the proxy that no fileid is left.
fn is_none_left(frame: &Frame) -> bool
    ensures { (result ≡ true) ↔ IsNoneLeft frame.now }
{
    frame.to == 0 && matches!(frame.body, Body::Minted { fileid: 0 })
}

/// Whether the frame asks for a fresh fileid for the call of this event.
fn asks_for(frame: &Frame, arrival: u64) -> bool
    ensures { (result ≡ true) ↔ AsksFor frame.now arrival }
{
    frame.arrival == arrival && matches!(frame.body, Body::Mint { .. })
}

/// One number more for this event.
fn add_number(
    alloc: Global,
    numbers: &mut BTreeMap<u64, Vec<u64>>,
    arrival: u64,
    number: u64,
) -> Result<(), NoMemory>
    ensures here { OnOk result (is_in number (numbers_at numbers.new arrival) ≡ true) }
    ensures kept { OnOk result ((n k : ℕ) → is_in k (numbers_at numbers.old n) ≡ true → is_in k (numbers_at numbers.new n) ≡ true) }
{
    let mut known = match numbers.remove(&arrival) {
        Some(known) => known,
        None => Vec::new(alloc),
    };
    let Ok(()) = known.push(number) else {
        return Err(NoMemory);
    };
    match numbers.insert(arrival, known) {
        Ok(_) => Ok(()),
        Err(_) => Err(NoMemory),
    }
}

/// One ticket more.
fn add_ticket(tickets: &mut BTreeSet<Ticket>, ticket: Ticket) -> Result<(), NoMemory>
    ensures { OnOk result ((q : Ticket) → has_ticket tickets.new q ≡ (is_same_ticket ticket q || has_ticket tickets.old q)) }
{
    match tickets.insert(ticket) {
        Ok(_) => Ok(()),
        Err(_) => Err(NoMemory),
    }
}

/// The numbers that stand at this event.
fn numbers_of(numbers: &BTreeMap<u64, Vec<u64>>, arrival: u64) -> &[u64]
    ensures { result.now ≡ numbers_at numbers.now arrival }
{
    match numbers.get(&arrival) {
        Some(known) => known.as_slice(),
        None => &[],
    }
}

impl Mints {
    /// Nothing was asked for yet.
    pub fn new(alloc: Global) -> Mints
        ensures { AreMintsOf [] result }
    {
        Mints {
            numbers: BTreeMap::new(alloc),
            exhausted: BTreeSet::new(alloc),
        }
    }

    /// A turn has begun. Its frame may tell that no fileid is left.
    pub fn begin(&mut self, ledger: &Ledger) -> Result<(), NoMemory>
        ensures { OnOk result ((past : History) (happening : histories.Happening) (moment : Time) → IsLedgerOf (begun past happening moment) ledger.now
            → AreMintsOf past self.old → AreMintsOf (begun past happening moment) self.new) }
    {
        match ledger.reached() {
            Some(frame) => self.reach(frame),
            None => Ok(()),
        }
    }

    /// The turn's frame may tell that no fileid is left.
    fn reach(&mut self, frame: &Frame) -> Result<(), NoMemory>
        ensures { OnOk result (TellsIf self.old self.new frame.now) }
    {
        if !is_none_left(frame) {
            return Ok(());
        }
        let ticket = Ticket {
            fence: frame.fence,
            tag: frame.tag,
        };
        add_ticket(&mut self.exhausted, ticket)
    }

    /// Takes a note: a frame may ask for a fileid.
    pub fn note(&mut self, alloc: Global, remark: &Remark) -> Result<(), NoMemory>
        ensures { OnOk result ((t : Turn) (past : History) → AreMintsOf (t ∷ past) self.old → AreMintsOf (noted (t ∷ past) (remark_of remark.now)) self.new) }
    {
        match remark {
            Remark::Sent { number, frame } => self.send(alloc, *number, frame),
            _ => Ok(()),
        }
    }

    /// A frame is sent under this number.
    fn send(&mut self, alloc: Global, number: u64, frame: &Frame) -> Result<(), NoMemory>
        ensures { OnOk result (Asks self.old self.new number frame.now) }
    {
        match frame.body {
            Body::Mint { .. } => add_number(alloc, &mut self.numbers, frame.arrival, number),
            _ => Ok(()),
        }
    }

    /// Whether the request that was sent under this number is for this event's call, and was told that none is left.
    fn is_refused(&self, ledger: &Ledger, number: u64, arrival: u64) -> bool
        ensures { (h : History) → IsLedgerOf h ledger.now → (result ≡ true) ↔ IsRefused h self.now number arrival }
    {
        match ledger.frame(number) {
            Some(frame) => {
                let ticket = Ticket {
                    fence: frame.fence,
                    tag: frame.tag,
                };
                asks_for(frame, arrival) && self.exhausted.contains(&ticket)
            }
            None => false,
        }
    }

    /// Whether the proxy was told, for the call of this event, that no fileid is left.
    pub fn is_told(&self, ledger: &Ledger, arrival: u64) -> bool
        ensures { (h : History) → IsLedgerOf h ledger.now → AreMintsOf h self.now → (result ≡ true) ↔ IsTold h arrival }
    {
        for number in numbers_of(&self.numbers, arrival) {
            if self.is_refused(ledger, *number, arrival) {
                return true;
            }
        }
        false
    }
}
