//! The calls that may change something, as far as they matter to what the proxy remembers.
ghost use Rattle.std.specs.Prelude.{◌≡◌, ◌∷◌, [], ℕ};
ghost use Rattle.sl_defs.specs.Histories.{Happening};
ghost use Rattle.sl_defs.specs.declared.setup.Time.{Time};
ghost use Rattle.sl_history.specs.Turns.{History, Remark, Turn, begun, noted};
ghost use Rattle.sl_recall.specs.Changing.{AreChangesOf, brought, is_no_other, is_unchanged};
ghost use Rattle.sl_recall.specs.Droppings.{IsDropOf};

/// The events in which the last calls came that may change something, 0 where there is none.
#[derive(Clone, Copy, Drop, Debug)]
pub(crate) struct Changes {
    /// That of the newest turn, until it is dropped.
    newest: u64,
    /// Those before it, of which none was dropped.
    last: u64,
    before: u64,
}

/// Whether the call isn't one that came behind an event, unless it is this one.
fn is_no_other(change: u64, event: u64, call: u64) -> bool
    ensures { result ≡ is_no_other change event call }
{
    change <= event || change == call
}

impl Changes {
    /// No call came.
    pub(crate) fn new() -> Changes
        ensures { AreChangesOf [] result }
    {
        Changes {
            newest: 0,
            last: 0,
            before: 0,
        }
    }

    /// A turn begins, which brings such a call in this event, or none, 0.
    pub(crate) fn begin(&mut self, event: u64)
        ensures { (h : History) (happening : Happening) (moment : Time) → event ≡ brought h (record { happening = happening; moment = moment; remarks = [] }) → AreChangesOf h self.old
            → AreChangesOf (begun h happening moment) self.new }
    {
        if self.newest != 0 {
            self.before = self.last;
            self.last = self.newest;
        }
        self.newest = event;
    }

    /// The datagram of this event is dropped. Only a note of its own turn counts.
    pub(crate) fn turn_away(&mut self, event: u64)
        ensures { (t : Turn) (past : History) (r : Remark) → IsDropOf event r → AreChangesOf (t ∷ past) self.old → AreChangesOf (noted (t ∷ past) r) self.new }
    {
        if self.newest == event {
            self.newest = 0;
        }
    }

    /// Whether no such call but this one came behind the event.
    pub(crate) fn is_calm(&self, event: u64, call: u64) -> bool
        ensures { (h : History) → AreChangesOf h self.now → result ≡ is_unchanged h event call }
    {
        is_no_other(self.newest, event, call)
            && is_no_other(self.last, event, call)
            && is_no_other(self.before, event, call)
    }
}
