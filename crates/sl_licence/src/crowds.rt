//! The ends of turns at which many files had unstable writes.
ghost use Rattle.std.specs.Prelude.{◌≡◌, ◌&&◌, ◌++◌, ◌∷◌, [], ℕ, nat_le, IfOk, OnOk};
ghost use Rattle.std.specs.List.{list_any};
ghost use Rattle.sl_model.specs.Volume as volumes;
ghost use Rattle.sl_history.specs.Turns.{History, Turn, events};
ghost use Rattle.sl_history.specs.Licensed.{had_many};
ghost use Rattle.sl_history.specs.Volumes.{volume_after};
ghost use Rattle.sl_licence.specs.Crowds.{AreCrowdsOf, are_many, had, had_if};
ghost use Rattle.sl_licence.specs.Dirty.{AreFlushing};

use crate::dirty::{Files, Flushing, MOST_DIRTY};
use sl_defs::NoMemory;
use sl_plain::Volume;
use std::alloc::Global;

/// The many files that had unstable writes at the end of a turn.
#[derive(Drop)]
struct Crowd {
    /// The number of the newest event then.
    event: u64,
    files: Files,
}

/// The ends of past turns at which many files had unstable writes.
#[derive(Drop)]
pub struct Crowds {
    crowds: Vec<Crowd>,
}

impl Crowd {
    /// Whether this was at event n or later, and that many were other files than this one.
    fn had(&self, n: u64, file: u64) -> bool
        ensures { result ≡ had n file self.now }
    {
        n <= self.event && self.files.are_many_besides(file)
    }
}

/// The crowd of these files, where they are many.
fn crowd_of(
    alloc: Global,
    flushing: &Flushing,
    volume: &Volume,
    event: u64,
) -> Result<Option<Crowd>, NoMemory>
    ensures { IfOk result (λ crowd. (n f : ℕ) → had_if n f crowd ≡ (nat_le n event && are_many flushing.now.files.items volume.now.unstable f)) }
{
    if flushing
        .as_slice()
        .len()
        .saturating_add(volume.unstable().len())
        < MOST_DIRTY
    {
        return Ok(None);
    }
    let files = Files::dirty(alloc, flushing, volume)?;
    if files.are_many() {
        Ok(Some(Crowd { event, files }))
    } else {
        Ok(None)
    }
}

/// Whether one of these was at event n or later, and of that many other files than this one.
fn any_had(crowds: &[Crowd], n: u64, file: u64) -> bool
    ensures { result ≡ list_any (had n file) crowds.now }
{
    crowds.iter().any(|crowd| crowd.had(n, file))
}

/// One crowd more.
fn push_crowd(crowds: &mut Vec<Crowd>, crowd: Crowd) -> Result<(), NoMemory>
    ensures { OnOk result (crowds.new.items ≡ crowds.old.items ++ crowd ∷ []) }
{
    match crowds.push(crowd) {
        Ok(()) => Ok(()),
        Err(_) => Err(NoMemory),
    }
}

impl Crowds {
    /// No turn has ended.
    pub fn new(alloc: Global) -> Crowds
        ensures { (start : volumes.Volume) → AreCrowdsOf start [] result }
    {
        Crowds {
            crowds: Vec::new(alloc),
        }
    }

    /// A turn ends with these files, the newest event being this one.
    pub fn end(
        &mut self,
        alloc: Global,
        flushing: &Flushing,
        volume: &Volume,
        event: u64,
    ) -> Result<(), NoMemory>
        ensures { OnOk result ((start : volumes.Volume) (t : Turn) (past : History) → event ≡ events (t ∷ past) → AreFlushing (t ∷ past) flushing.now → volume.now ≡ volume_after start (t ∷ past)
            → AreCrowdsOf start past self.old → AreCrowdsOf start (t ∷ past) self.new) }
    {
        let Some(crowd) = crowd_of(alloc, flushing, volume, event)? else {
            return Ok(());
        };
        push_crowd(&mut self.crowds, crowd)
    }

    /// Whether from event n on so many other files than this one had unstable writes, at the end of a turn or now.
    pub fn had_many(
        &self,
        alloc: Global,
        flushing: &Flushing,
        volume: &Volume,
        newest: u64,
        n: u64,
        file: u64,
    ) -> Result<bool, NoMemory>
        ensures { IfOk result (λ many. (start : volumes.Volume) (t : Turn) (past : History) → newest ≡ events (t ∷ past) → AreFlushing (t ∷ past) flushing.now → volume.now ≡ volume_after start (t ∷ past)
            → AreCrowdsOf start past self.now → many ≡ had_many start (t ∷ past) n file) }
    {
        if any_had(self.crowds.as_slice(), n, file) {
            return Ok(true);
        }
        let Some(now) = crowd_of(alloc, flushing, volume, newest)? else {
            return Ok(false);
        };
        Ok(now.had(n, file))
    }
}
