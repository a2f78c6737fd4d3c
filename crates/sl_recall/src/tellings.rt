//! What replies told of files, and when.
ghost use Rattle.std.specs.Prelude.{◌≡◌, ◌==◌, ◌∷◌, ◌++◌, ◌+◌, ◌≤◌, ◌<◌, ◌^◌, [], ℕ, true, false, Some, ◌&&◌, if◌then◌else◌, OnOk};
ghost use Rattle.std.specs.BTreeMap.{BTreeMap};
ghost use Rattle.sl_defs.specs.Histories.{Happening};
ghost use Rattle.sl_defs.specs.declared.setup.Time.{Time};
ghost use Rattle.sl_history.specs.Turns.{History, Remark, Turn, begun, events, noted};
ghost use Rattle.sl_history.specs.Licensed.{is_in};
ghost use Rattle.sl_history.specs.Remembering.{datagrams_since, forgets, is_datagram};
ghost use Rattle.sl_recall.specs.Telling.{AreTellingsOf, IsLastBefore, told_at};

use sl_defs::NoMemory;
use std::alloc::Global;
use std::collections::BTreeMap;

/// In which events replies told the attributes of files.
#[derive(Drop)]
pub(crate) struct Tellings {
    /// Before the newest turn: by the file and the event, how many datagrams had come by then.
    told: BTreeMap<(u64, u64), u64>,
    /// The files that the newest turn told of behind its last write verifier or flush.
    fresh: Vec<u64>,
    datagrams: u64,
}

/// A reply told a file's attributes in this event, when so many datagrams had come.
#[derive(Clone, Copy, Drop, Debug)]
pub(crate) struct Telling {
    pub event: u64,
    pub datagrams: u64,
}

/// Puts the files that were told of in an event, when so many datagrams had come.
fn put_all(
    told: &mut BTreeMap<(u64, u64), u64>,
    files: &[u64],
    event: u64,
    datagrams: u64,
) -> Result<(), NoMemory>
    ensures { OnOk result ((f e : ℕ) → told_at told.new f e ≡ (if e == event && is_in f files.now then Some datagrams else told_at told.old f e)) }
{
    for file in files {
        let Ok(_) = told.insert((*file, event), datagrams) else {
            return Err(NoMemory);
        };
    }
    Ok(())
}

/// When a file's attributes were told last before an event.
fn last_before(told: &BTreeMap<(u64, u64), u64>, file: u64, event: u64) -> Option<Telling>
    ensures { IsLastBefore told.now file event result }
{
    match told.range((file, 0)..(file, event)).next_back() {
        Some((place, datagrams)) => Some(Telling {
            event: place.1,
            datagrams: *datagrams,
        }),
        None => None,
    }
}

impl Tellings {
    /// Nothing was told.
    pub(crate) fn new(alloc: Global) -> Tellings
        ensures begins { AreTellingsOf [] result }
        ensures counted { result.datagrams ≡ 0 }
    {
        Tellings {
            told: BTreeMap::new(alloc),
            fresh: Vec::new(alloc),
            datagrams: 0,
        }
    }

    /// A turn begins, behind so many events. It may bring a datagram.
    pub(crate) fn begin(&mut self, past_events: u64, brings: bool) -> Result<(), NoMemory>
        requires { self.old.datagrams + 1 < 2 ^ 64 }
        ensures begins { OnOk result ((h : History) (happening : Happening) (moment : Time) → past_events ≡ events h → brings ≡ is_datagram happening → AreTellingsOf h self.old
            → AreTellingsOf (begun h happening moment) self.new) }
        ensures counted { OnOk result (self.new.datagrams ≤ self.old.datagrams + 1) }
    {
        put_all(
            &mut self.told,
            self.fresh.as_slice(),
            past_events,
            self.datagrams,
        )?;
        self.fresh.clear();
        if brings {
            self.datagrams += 1;
        }
        Ok(())
    }

    /// The newest turn tells of a file.
    pub(crate) fn learn(&mut self, file: u64) -> Result<(), NoMemory>
        ensures { OnOk result ((self.new.told ≡ self.old.told) × ((self.new.fresh.items ≡ self.old.fresh.items ++ file ∷ []) × (self.new.datagrams ≡ self.old.datagrams))) }
    {
        match self.fresh.push(file) {
            Ok(()) => Ok(()),
            Err(_) => Err(NoMemory),
        }
    }

    /// What the newest turn told of is forgotten.
    pub(crate) fn forget(&mut self)
        ensures forgets { (t : Turn) (past : History) (r : Remark) → forgets r ≡ true → AreTellingsOf (t ∷ past) self.old → AreTellingsOf (noted (t ∷ past) r) self.new }
        ensures counted { self.new.datagrams ≡ self.old.datagrams }
    {
        self.fresh.clear();
    }

    /// When a file's attributes were told last before an event.
    pub(crate) fn last_before(&self, file: u64, event: u64) -> Option<Telling>
        ensures { IsLastBefore self.now.told file event result }
    {
        last_before(&self.told, file, event)
    }

    /// How many datagrams came since then.
    pub(crate) fn datagrams_since(&self, telling: Telling) -> u64
        ensures { (h : History) (file : ℕ) → AreTellingsOf h self.now → told_at self.now.told file telling.event ≡ Some telling.datagrams → result ≡ datagrams_since h telling.event }
    {
        self.datagrams.saturating_sub(telling.datagrams)
    }
}
