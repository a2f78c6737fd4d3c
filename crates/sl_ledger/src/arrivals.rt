//! What arrived, and the calls that wait for their reply.
ghost use Rattle.std.specs.Prelude.{◌≡◌, ◌==◌, ℕ, ◌∷◌, ◌++◌, [], List, ◌-◌, length, not, filter, is_some, IfOk, OnOk, option_and_then, option_map};
ghost use Rattle.std.specs.Option.{option_copied};
ghost use Rattle.sl_defs.specs.Histories.{Happens};
ghost use Rattle.sl_defs.specs.declared.setup.Time.{Time};
ghost use Rattle.sl_history.specs.Turns as turns;
ghost use Rattle.sl_history.specs.Turns.{History, Remark, Replied, Turn, Verf, begun, events, noted};
ghost use Rattle.sl_history.specs.Arrivals as arrivals;
ghost use Rattle.sl_history.specs.Arrivals.{asked};
ghost use Rattle.sl_past.specs.Words.{happening_of};
ghost use Rattle.sl_datagram.specs.Datagrams.{asked_of, datagram_of};
ghost use Rattle.sl_ledger.specs.Waiting.{AreArrivalsOf, IsDropOf, arrived, brought, kept_at};

use crate::lists::push;
use sl_datagram::{Asked, Datagram, read_datagram};
use sl_defs::{Event, NoMemory};
use sl_past::Happening;
use std::alloc::Global;

/// What arrived in each event, and which calls still wait.
#[derive(Drop)]
pub(crate) struct Arrivals {
    /// By the numbers of the events. The first is of none: events are numbered from 1.
    datagrams: Vec<Option<Datagram>>,
    /// Whether the newest turn is an event.
    is_event: bool,
    /// The events in which the calls came that wait, the oldest first.
    waiting: Vec<u64>,
}

/// What the event's datagram is, where it brings one.
fn datagram_in(alloc: Global, event: &Event) -> Result<Option<Datagram>, NoMemory>
    ensures { IfOk result (λ d. option_map datagram_of d ≡ option_map arrivals.datagram (turns.datagram_of (Happens event.now))) }
{
    let Event::Call { datagram, .. } = event else {
        return Ok(None);
    };
    match read_datagram(alloc, datagram.as_slice()) {
        Ok(datagram) => Ok(Some(datagram)),
        Err(_) => Err(NoMemory),
    }
}

/// The datagram at this place, where one stands there.
fn datagram_at(datagrams: &[Option<Datagram>], place: usize) -> Option<&Datagram>
    ensures { option_copied result ≡ kept_at datagrams.now place }
{
    match datagrams.get(place) {
        Some(datagram) => datagram.as_ref(),
        None => None,
    }
}

/// The call that the datagram is, where it asks something of the server.
fn asked_in(datagram: Option<&Datagram>) -> Option<&Asked>
    ensures { option_map asked_of (option_copied result) ≡ option_and_then arrivals.asked_in (option_map datagram_of (option_copied datagram.entry)) }
{
    match datagram {
        Some(Datagram::Asked(asked)) => Some(asked),
        Some(Datagram::Junk | Datagram::Answered(_)) | None => None,
    }
}

/// Whether the datagram is a call that asks something of the server.
fn is_asked(datagram: &Option<Datagram>) -> bool
    ensures { result ≡ is_some (option_and_then arrivals.asked_in (option_map datagram_of datagram.now)) }
{
    matches!(datagram, Some(Datagram::Asked(_)))
}

/// Takes an event's call away.
fn take_out(waiting: &mut Vec<u64>, arrival: u64)
    ensures { waiting.new.items ≡ filter (λ k. not (k == arrival)) waiting.old.items }
{
    waiting.retain(|event| *event != arrival);
}

impl Arrivals {
    /// Nothing has arrived yet.
    pub(crate) fn new(alloc: Global) -> Result<Arrivals, NoMemory>
        ensures { IfOk result (λ a. AreArrivalsOf [] a) }
    {
        let mut datagrams = Vec::new(alloc);
        push(&mut datagrams, None)?;
        Ok(Arrivals {
            datagrams,
            is_event: false,
            waiting: Vec::new(alloc),
        })
    }

    /// How many events there were: the number of the newest one.
    pub(crate) fn events(&self) -> u64
        ensures counted { result ≡ length self.now.datagrams.items - 1 }
        ensures newest { (h : History) → AreArrivalsOf h self.now → result ≡ events h }
    {
        (self.datagrams.len() as u64).saturating_sub(1)
    }

    /// What arrived in this event, where a datagram did.
    pub(crate) fn datagram(&self, event: u64) -> Option<&Datagram>
        ensures { (h : History) → AreArrivalsOf h self.now → option_map datagram_of (option_copied result) ≡ arrived h event }
    {
        datagram_at(self.datagrams.as_slice(), event as usize)
    }

    /// The call that arrived in this event, where one did that asks something of the server.
    pub(crate) fn asked(&self, event: u64) -> Option<&Asked>
        ensures { (h : History) → AreArrivalsOf h self.now → option_map asked_of (option_copied result) ≡ asked h event }
    {
        asked_in(self.datagram(event))
    }

    /// What the datagram of the newest turn is, where one arrived.
    pub(crate) fn newest(&self) -> Option<&Datagram>
        ensures { (t : Turn) (past : History) → AreArrivalsOf (t ∷ past) self.now → option_map datagram_of (option_copied result) ≡ brought t }
    {
        if self.is_event {
            self.datagram(self.events())
        } else {
            None
        }
    }

    /// The events in which the calls came that wait, the oldest first.
    pub(crate) fn waiting(&self) -> &[u64]
        ensures { (h : History) → AreArrivalsOf h self.now → result.now ≡ arrivals.waiting h }
    {
        self.waiting.as_slice()
    }

    /// A turn begins. The call that it brings waits.
    pub(crate) fn begin(&mut self, alloc: Global, happening: &Happening) -> Result<(), NoMemory>
        ensures { OnOk result ((past : History) (moment : Time) → AreArrivalsOf past self.old → AreArrivalsOf (begun past (happening_of happening.now) moment) self.new) }
    {
        if let Happening::Happens(event) = happening {
            return self.begin_event(alloc, event);
        }
        self.is_event = false;
        Ok(())
    }

    /// An event begins.
    fn begin_event(&mut self, alloc: Global, event: &Event) -> Result<(), NoMemory>
        ensures { OnOk result ((past : History) (moment : Time) → AreArrivalsOf past self.old → AreArrivalsOf (begun past (Happens event.now) moment) self.new) }
    {
        self.is_event = true;
        let datagram = datagram_in(alloc, event)?;
        let waits = is_asked(&datagram);
        push(&mut self.datagrams, datagram)?;
        if waits {
            let newest = self.events();
            push(&mut self.waiting, newest)?;
        }
        Ok(())
    }

    /// A note drops the datagram of this event. Only a note of its own event counts.
    pub(crate) fn turn_away(&mut self, arrival: u64)
        ensures { (t : Turn) (past : History) (r : Remark) → IsDropOf arrival r → AreArrivalsOf (t ∷ past) self.old → AreArrivalsOf (noted (t ∷ past) r) self.new }
    {
        if self.is_event && arrival == self.events() {
            take_out(&mut self.waiting, arrival);
        }
    }

    /// This event's call has its reply.
    pub(crate) fn answer(&mut self, arrival: u64)
        ensures { (t : Turn) (past : History) (e : ℕ) (bytes : List ℕ) → AreArrivalsOf (t ∷ past) self.old → AreArrivalsOf (noted (t ∷ past) (Replied arrival e bytes)) self.new }
    {
        take_out(&mut self.waiting, arrival);
    }

    /// No call waits any more.
    pub(crate) fn forget(&mut self)
        ensures { (t : Turn) (past : History) (v : ℕ) → AreArrivalsOf (t ∷ past) self.old → AreArrivalsOf (noted (t ∷ past) (Verf v)) self.new }
    {
        self.waiting.clear();
    }
}
