//! What a disk in memory holds.
ghost use Rattle.std.specs.Prelude.{◌≡◌, ◌++◌, [], ◌∷◌, length, OnOk, OnErr, IfOk};
ghost use Rattle.std.specs.Prelude.{◌≤◌, List, ℕ};
ghost use Rattle.sl_disk.specs.Images.{after_steps, shown};

use crate::record::Change;
use crate::steps::{Edit, Step, read_after, show, show_all};
use sl_defs::NoMemory;
use std::alloc::Global;

/// A disk's contents, and what it was made from: a base and the steps since, of which so many are synced.
#[derive(Drop)]
pub(crate) struct Storage {
    pub(crate) contents: Vec<u8>,
    pub(crate) base: Vec<u8>,
    pub(crate) steps: Vec<Step>,
    pub(crate) settled: usize,
    ghost seen: { contents.items ≡ after_steps 1 base.items steps.items },
    ghost some_settled: { settled ≤ length steps.items },
}

impl Storage {
    ghost use Rattle.sl_disk.specs.Images.{image};
    ghost use Rattle.sl_disk.specs.Record.{changed};
    ghost use Rattle.sl_disk.specs.Stored.{state_of};

    /// An empty disk.
    pub(crate) fn new(alloc: Global) -> Storage
        ensures { state_of result ≡ record { synced = []; steps = [] } }
    {
        Storage {
            contents: Vec::new(alloc),
            base: Vec::new(alloc),
            steps: Vec::new(alloc),
            settled: 0,
        }
    }

    /// What a read gives.
    #[tactic(auto, using(crate::proofs::Pieces::seen_whole))]
    pub(crate) fn contents(&self) -> &[u8]
        ensures { result.now ≡ image 1 (state_of self.now) }
    {
        &self.contents
    }

    /// Does a change. After an error nothing is changed.
    #[tactic(auto, using(crate::proofs::Pieces::image_push))]
    pub(crate) fn change(&mut self, change: Change) -> Result<(), NoMemory>
        ensures ok { OnOk result (state_of self.new ≡ changed change (state_of self.old)) }
        ensures err { OnErr result (state_of self.new ≡ state_of self.old) }
    {
        match change {
            Change::Took(step) => self.take(step),
            Change::Synced => {
                self.settle();
                Ok(())
            }
            Change::Left(image) => {
                let left = self.image(image)?;
                self.leave(left)
            }
            Change::StoppedAt(step, image) => {
                let mut left = self.image(image)?;
                show(&mut left, &step, image)?;
                self.leave(left)?;
                Ok(())
            }
        }
    }

    #[tactic(auto, using(crate::proofs::Pieces::state_settled))]
    fn settle(&mut self)
        ensures { state_of self.new ≡ changed Change.Synced (state_of self.old) }
    {
        self.settled = self.steps.len();
    }

    #[tactic(auto, using(crate::proofs::Pieces::seen_push, crate::proofs::Pieces::state_push))]
    fn take(&mut self, step: Step) -> Result<(), NoMemory>
        ensures ok { OnOk result (state_of self.new ≡ changed (Change.Took step) (state_of self.old)) }
        ensures err { OnErr result (state_of self.new ≡ state_of self.old) }
    {
        add(&mut self.contents, &mut self.steps, step)?;
        Ok(())
    }

    /// The image of this number.
    fn image(&self, number: u64) -> Result<Vec<u8>, NoMemory>
        ensures { IfOk result (λ left. left.items ≡ image number (state_of self.now)) }
    {
        let (settled, pending) = self.steps.split_at(self.settled);
        let base = self.base.clone().map_err(|_| NoMemory)?;
        let synced = show_all(base, settled, 1)?;
        show_all(synced, pending, number)
    }

    /// Begins anew from these bytes, which are on the disk.
    fn leave(&mut self, left: Vec<u8>) -> Result<(), NoMemory>
        ensures ok { OnOk result (state_of self.new ≡ record { synced = left.items; steps = [] }) }
        ensures err { OnErr result (state_of self.new ≡ state_of self.old) }
    {
        match left.clone() {
            Ok(base) => {
                self.contents = left;
                self.base = base;
                self.steps.clear();
                self.settled = 0;
                Ok(())
            }
            Err(_) => Err(NoMemory),
        }
    }
}

/// Adds a step, and makes the contents what a read gives after it. After an error nothing is changed.
#[tactic(auto, using(crate::proofs::Pieces::seen_push, std::proofs::lemmas::List::length_push))]
fn add(contents: &mut Vec<u8>, steps: &mut Vec<Step>, step: Step) -> Result<(), NoMemory>
    ensures contents { OnOk result (contents.new.items ≡ shown 1 step.edit step.failed contents.old.items) }
    ensures steps { OnOk result (steps.new.items ≡ steps.old.items ++ step ∷ []) }
    ensures contents_err { OnErr result (contents.new.items ≡ contents.old.items) }
    ensures seen { (base : List ℕ) → contents.old.items ≡ after_steps 1 base steps.old.items → contents.new.items ≡ after_steps 1 base steps.new.items }
    ensures longer { length steps.old.items ≤ length steps.new.items }
    ensures steps_err { OnErr result (steps.new.items ≡ steps.old.items) }
{
    let before = steps.len();
    if steps.push(step).is_err() {
        return Err(NoMemory);
    }
    if read_after(contents, &steps[before]).is_err() {
        steps.truncate(before);
        return Err(NoMemory);
    }
    Ok(())
}
