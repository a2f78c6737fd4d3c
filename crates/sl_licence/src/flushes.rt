//! Flushes, and the requests for them that the coordinator was given.
ghost use Rattle.std.specs.Prelude.{◌≡◌, ◌↔◌, ◌||◌, ◌==◌, ◌∷◌, ◌+◌, ◌-◌, ◌<◌, ◌≤◌, ℕ, [], not, true, length, IfOk, OnOk, if◌then◌else◌};
ghost use Rattle.sl_defs.specs.Histories as histories;
ghost use Rattle.sl_defs.specs.declared.setup.Time.{Time};
ghost use Rattle.sl_history.specs.Turns.{History, Turn, begun, noted};
ghost use Rattle.sl_history.specs.Licensed.{flushes, requests_given};
ghost use Rattle.sl_past.specs.Words.{remark_of};
ghost use Rattle.sl_ledger.specs.Ledgers.{IsLedgerOf};
ghost use Rattle.sl_licence.specs.Evidence.{MayUse};
ghost use Rattle.sl_licence.specs.Flushes.{AreFlushesOf, TakesIf, count_at, has_ticket, is_same_ticket, ticket_in};

use crate::words::flush_in;
use sl_defs::NoMemory;
use sl_frames::Frame;
use sl_ledger::Ledger;
use sl_past::Remark;
use std::alloc::Global;
use std::collections::{BTreeMap, BTreeSet};

/// A request for a file's flush, as the coordinator knows it.
#[derive(Clone, Copy, Debug, PartialEq, Eq, PartialOrd, Ord)]
pub struct FlushTicket {
    pub file: u64,
    pub fence: u64,
    pub tag: u64,
}

/// The requests for a flush that the coordinator was given, and how many of them no flush has used up.
#[derive(Drop)]
pub struct Flushes {
    given: BTreeSet<FlushTicket>,
    /// By files, how many more requests were given than flushes were noted.
    unused: BTreeMap<u64, u64>,
}

/// The request that a frame gives to the coordinator, where it does.
fn ticket_of(frame: &Frame) -> Option<FlushTicket>
    ensures { result ≡ ticket_in frame.now }
{
    if frame.to != 1 {
        return None;
    }
    match flush_in(&frame.body) {
        Some(file) => Some(FlushTicket {
            file,
            fence: frame.fence,
            tag: frame.tag,
        }),
        None => None,
    }
}

/// The count of a file.
fn count_of(counts: &BTreeMap<u64, u64>, file: u64) -> u64
    ensures { result ≡ count_at counts.now file }
{
    match counts.get(&file) {
        Some(count) => *count,
        None => 0,
    }
}

/// Sets the count of a file.
fn set_count(counts: &mut BTreeMap<u64, u64>, file: u64, count: u64) -> Result<(), NoMemory>
    ensures { OnOk result ((f : ℕ) → count_at counts.new f ≡ (if file == f then count else count_at counts.old f)) }
{
    match counts.insert(file, count) {
        Ok(_) => Ok(()),
        Err(_) => Err(NoMemory),
    }
}

/// One ticket more, where it is new.
fn add_ticket(tickets: &mut BTreeSet<FlushTicket>, ticket: FlushTicket) -> Result<bool, NoMemory>
    ensures new { IfOk result (λ new. new ≡ not (has_ticket tickets.old ticket)) }
    ensures added { OnOk result ((q : FlushTicket) → has_ticket tickets.new q ≡ (is_same_ticket ticket q || has_ticket tickets.old q)) }
{
    match tickets.insert(ticket) {
        Ok(is_new) => Ok(is_new),
        Err(_) => Err(NoMemory),
    }
}

impl Flushes {
    /// No flush was asked for yet.
    pub fn new(alloc: Global) -> Flushes
        ensures { AreFlushesOf [] result }
    {
        Flushes {
            given: BTreeSet::new(alloc),
            unused: BTreeMap::new(alloc),
        }
    }

    /// A turn has begun. Its frame may give the coordinator a request.
    pub fn begin(&mut self, ledger: &Ledger) -> Result<(), NoMemory>
        ensures { OnOk result ((past : History) (happening : histories.Happening) (moment : Time) → IsLedgerOf (begun past happening moment) ledger.now
            → AreFlushesOf past self.old → AreFlushesOf (begun past happening moment) self.new) }
    {
        // There are no more requests than events, so that their number fits.
        let events = ledger.events();
        match ledger.reached() {
            Some(frame) => self.reach(frame, events),
            None => Ok(()),
        }
    }

    /// The turn's frame may give the coordinator a request.
    fn reach(&mut self, frame: &Frame, events: u64) -> Result<(), NoMemory>
        ensures { OnOk result (((f : ℕ) → count_at self.old.unused f < events) → TakesIf self.old self.new (ticket_in frame.now)) }
    {
        let Some(ticket) = ticket_of(frame) else {
            return Ok(());
        };
        if !add_ticket(&mut self.given, ticket)? {
            return Ok(());
        }
        let unused = count_of(&self.unused, ticket.file);
        set_count(&mut self.unused, ticket.file, unused.saturating_add(1))
    }

    /// Whether a request of this file is left that no flush has used up.
    pub fn has_one(&self, file: u64) -> bool
        ensures { (h : History) → AreFlushesOf h self.now → (result ≡ true) ↔ (flushes h file + 1 ≤ length (requests_given h file)) }
    {
        count_of(&self.unused, file) > 0
    }

    /// A flush of this file uses up a request.
    fn flush(&mut self, file: u64) -> Result<(), NoMemory>
        ensures given { OnOk result (self.new.given ≡ self.old.given) }
        ensures counts { OnOk result ((f : ℕ) → count_at self.new.unused f ≡ (if file == f then count_at self.old.unused file - 1 else count_at self.old.unused f)) }
    {
        let unused = count_of(&self.unused, file);
        set_count(&mut self.unused, file, unused.saturating_sub(1))
    }

    /// Takes a note: a flush uses up a request.
    pub fn note(&mut self, remark: &Remark) -> Result<(), NoMemory>
        ensures { OnOk result ((t : Turn) (past : History) → AreFlushesOf (t ∷ past) self.old → MayUse (t ∷ past) (remark_of remark.now) → AreFlushesOf (noted (t ∷ past) (remark_of remark.now)) self.new) }
    {
        match remark {
            Remark::Flush(file) => self.flush(*file),
            _ => Ok(()),
        }
    }
}
