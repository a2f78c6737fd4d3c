//! What the proxy may remember of files.
ghost use Rattle.std.specs.Prelude.{◌≡◌, ◌↔◌, ◌∷◌, ◌+◌, ◌≤◌, ◌<◌, ◌^◌, [], ℕ, true, IfOk, OnOk};
ghost use Rattle.sl_defs.specs.declared.setup.Time.{Time};
ghost use Rattle.sl_history.specs.Turns as turns;
ghost use Rattle.sl_history.specs.Turns.{History, Replied, Turn, begun, events, noted};
ghost use Rattle.sl_history.specs.Arrivals.{asked};
ghost use Rattle.sl_history.specs.Remembering.{changes_by, is_calm, is_idle, tells_by};
ghost use Rattle.sl_past.specs.Words.{happening_of, remark_of};
ghost use Rattle.sl_ledger.specs.Ledgers.{IsLedgerOf};
ghost use Rattle.sl_recall.specs.Changing.{brought};
ghost use Rattle.sl_recall.specs.Droppings.{Forgets};
ghost use Rattle.sl_recall.specs.Files.{is_this};
ghost use Rattle.sl_recall.specs.Memories.{Follows, IsMemoryOf, Knows};

use crate::changes::Changes;
use crate::replies::file_told;
use crate::tellings::Tellings;
use crate::words::is_datagram;
use sl_datagram::{Datagram, may_change};
use sl_defs::NoMemory;
use sl_ledger::Ledger;
use sl_past::{Happening, Remark};
use std::alloc::Global;

/// So many datagrams make the proxy forget a file.
const MOST_DATAGRAMS: u64 = 3840;

/// What a history shows so far, and what replies told of files.
#[derive(Drop)]
pub(crate) struct Memory {
    ledger: Ledger,
    tellings: Tellings,
    /// The event in which a write verifier or a flush was noted last, 0 where none was.
    forgot: u64,
    changes: Changes,
}

/// The newest event, where it brings a call that may change something, else 0.
fn brought(ledger: &Ledger) -> u64
    ensures { (t : Turn) (past : History) → IsLedgerOf (t ∷ past) ledger.now → result ≡ brought past t }
{
    match ledger.arrived() {
        Some(Datagram::Asked(asked)) => {
            if may_change(&asked.call) {
                ledger.events()
            } else {
                0
            }
        }
        _ => 0,
    }
}

/// Whether the call of this event may change something.
fn is_change(ledger: &Ledger, arrival: u64) -> bool
    ensures { (h : History) → IsLedgerOf h ledger.now → result ≡ changes_by (asked h arrival) }
{
    match ledger.asked(arrival) {
        Some(asked) => may_change(&asked.call),
        None => false,
    }
}

/// Whether no call waits that may change something.
fn is_idle(ledger: &Ledger) -> bool
    ensures { (h : History) (n : ℕ) → IsLedgerOf h ledger.now → events h < n → result ≡ is_idle h n }
{
    for arrival in ledger.waiting() {
        if is_change(ledger, *arrival) {
            return false;
        }
    }
    true
}

/// The file whose attributes the reply to a call tells.
fn told_by(
    alloc: Global,
    ledger: &Ledger,
    arrival: u64,
    bytes: &[u8],
) -> Result<Option<u64>, NoMemory>
    ensures { IfOk result (λ file. (h : History) → IsLedgerOf h ledger.now → (f : ℕ) → tells_by f bytes.now (asked h arrival) ≡ is_this f file) }
{
    match ledger.asked(arrival) {
        Some(asked) => file_told(alloc, asked.procedure, bytes),
        None => Ok(None),
    }
}

impl Memory {
    /// Nothing has happened yet.
    pub(crate) fn new(alloc: Global) -> Result<Memory, NoMemory>
        ensures begins { IfOk result (IsMemoryOf []) }
        ensures counted { IfOk result (λ m. m.tellings.datagrams ≡ 0) }
    {
        Ok(Memory {
            ledger: Ledger::new(alloc)?,
            tellings: Tellings::new(alloc),
            forgot: 0,
            changes: Changes::new(),
        })
    }

    /// What the history shows so far.
    pub(crate) fn ledger(&self) -> &Ledger
        ensures { result.now ≡ self.now.ledger }
    {
        &self.ledger
    }

    /// A turn begins: nothing is noted of it yet.
    pub(crate) fn begin(&mut self, alloc: Global, happening: &Happening) -> Result<(), NoMemory>
        requires { self.old.tellings.datagrams + 1 < 2 ^ 64 }
        ensures begins { OnOk result ((past : History) (moment : Time) → IsMemoryOf past self.old → IsMemoryOf (begun past (happening_of happening.now) moment) self.new) }
        ensures counted { OnOk result (self.new.tellings.datagrams ≤ self.old.tellings.datagrams + 1) }
    {
        self.tellings
            .begin(self.ledger.events(), is_datagram(happening))?;
        self.ledger.begin(alloc, happening)?;
        self.changes.begin(brought(&self.ledger));
        Ok(())
    }

    /// Takes a note of the newest turn.
    pub(crate) fn note(&mut self, alloc: Global, remark: &Remark) -> Result<(), NoMemory>
        ensures notes { OnOk result ((t : Turn) (past : History) → IsMemoryOf (t ∷ past) self.old → IsMemoryOf (noted (t ∷ past) (remark_of remark.now)) self.new) }
        ensures counted { OnOk result (self.new.tellings.datagrams ≡ self.old.tellings.datagrams) }
    {
        self.follow(alloc, remark)?;
        self.ledger.note(alloc, remark)
    }

    /// Takes a note of the newest turn, which the ledger hasn't yet.
    fn follow(&mut self, alloc: Global, remark: &Remark) -> Result<(), NoMemory>
        ensures follows { OnOk result ((t : Turn) (past : History) → IsMemoryOf (t ∷ past) self.old → Follows (noted (t ∷ past) (remark_of remark.now)) self.new) }
        ensures ledger { OnOk result (self.new.ledger ≡ self.old.ledger) }
        ensures counted { OnOk result (self.new.tellings.datagrams ≡ self.old.tellings.datagrams) }
    {
        match remark {
            Remark::Replied { arrival, bytes, .. } => {
                return self.learn(alloc, *arrival, bytes.as_slice());
            }
            Remark::Verf(_) => self.forget(),
            Remark::Flush(_) => self.forget(),
            Remark::Junk(arrival) => self.changes.turn_away(*arrival),
            Remark::Early(arrival) => self.changes.turn_away(*arrival),
            Remark::Full(arrival) => self.changes.turn_away(*arrival),
            Remark::Lost(arrival) => self.changes.turn_away(*arrival),
            Remark::Sent { .. } => {}
            Remark::Did { .. } => {}
            Remark::Down(_) => {}
        }
        Ok(())
    }

    /// All that was told is forgotten.
    fn forget(&mut self)
        ensures follows { (t : Turn) (past : History) (r : turns.Remark) → Forgets r → IsMemoryOf (t ∷ past) self.old → Follows (noted (t ∷ past) r) self.new }
        ensures ledger { self.new.ledger ≡ self.old.ledger }
        ensures counted { self.new.tellings.datagrams ≡ self.old.tellings.datagrams }
    {
        self.tellings.forget();
        self.forgot = self.ledger.events();
    }

    /// What the reply to a call tells is remembered, unless a call waits that may change it.
    fn learn(&mut self, alloc: Global, arrival: u64, bytes: &[u8]) -> Result<(), NoMemory>
        ensures follows { OnOk result ((t : Turn) (past : History) (e : ℕ) → IsMemoryOf (t ∷ past) self.old → Follows (noted (t ∷ past) (Replied arrival e bytes.now)) self.new) }
        ensures ledger { OnOk result (self.new.ledger ≡ self.old.ledger) }
        ensures counted { OnOk result (self.new.tellings.datagrams ≡ self.old.tellings.datagrams) }
    {
        if !is_idle(&self.ledger) {
            return Ok(());
        }
        match told_by(alloc, &self.ledger, arrival, bytes)? {
            Some(file) => self.tellings.learn(file),
            None => Ok(()),
        }
    }

    /// Whether nothing behind the event made the proxy forget, but maybe this call.
    fn is_calm(&self, event: u64, call: u64) -> bool
        ensures { (h : History) → IsMemoryOf h self.now → result ≡ is_calm h event call }
    {
        if self.forgot > event {
            return false;
        }
        self.changes.is_calm(event, call)
    }

    /// Whether the proxy has the file's attributes, when it works on this call.
    pub(crate) fn knows(&self, call: u64, file: u64) -> bool
        ensures { (h : History) → IsMemoryOf h self.now → call ≤ events h → (result ≡ true) ↔ Knows h call file }
    {
        match self.tellings.last_before(file, call) {
            Some(telling) => {
                self.is_calm(telling.event, call)
                    && self.tellings.datagrams_since(telling) < MOST_DATAGRAMS
            }
            None => false,
        }
    }
}
