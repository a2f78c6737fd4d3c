//! A shelf in memory, whose calls can be made to fail or to stop inside.
ghost use Rattle.std.specs.Prelude.{◌≡◌, ◌≢◌, ◌<◌, ◌++◌, [], ◌∷◌, ◌≤◌, ℕ, length, take, drop, replicate, OnOk, OnErr, IfOk};
ghost use Rattle.sl_disk.specs.Record.{changed, no_script, situation, shows, counts_now, since_now, together_now, only_together, each_of_them};
ghost use Rattle.sl_disk.specs.Stored.{Follow, AreEmpty, storage_state};
ghost use Rattle.sl_disk.specs.Performing.{noting, Performs};

use crate::record::{Call, Change, Work};
use crate::script::Script;
use crate::shelf::{Arm, Shelf, ShelfFault};
use crate::steps::Edit;
use crate::storage::Storage;
use sl_defs::{Bytes, NoMemory};
use std::alloc::Global;

const DISKS: usize = 64;

/// Disks in memory. They keep the disk model, and tell what they hold.
///
/// A failing call changes nothing that a read gives. A stop inside `write_at` or `cut` counts the work as done
/// and not synced, inside another call as not done. An image is what a stop leaves of the steps since the last
/// sync: image 0 has the contents at that sync, image 1 what a read would give, image 2 the first half of each
/// written range, and each further image junk in all of them. It is then what a read gives, and counts as synced.
#[derive(Drop)]
pub struct MemShelf {
    alloc: Global,
    storages: Vec<Storage>,
    scripts: Vec<Script>,
    calls: Vec<Call>,
    ghost all_storages: { length storages.items ≡ 64 },
    ghost all_scripts: { length scripts.items ≡ 64 },
    ghost follow: { Follow storages.items calls.items },
}

impl MemShelf {
    ghost use Rattle.sl_disk.specs.Performing.{Performs};
    ghost use Rattle.sl_disk.specs.Shelf.{IsNew};

    fn perform(&mut self, disk: u8, work: Work) -> Result<(), ShelfFault>
        requires { disk < 64 }
        ensures { Performs disk work self.old.calls.items self.new.calls.items self.old.scripts.items self.new.scripts.items result }
    {
        perform(
            &mut self.storages,
            &mut self.scripts,
            &mut self.calls,
            disk,
            work,
        )
    }

    /// A shelf of empty disks.
    pub fn new(alloc: Global) -> Result<MemShelf, NoMemory>
        ensures { IfOk result (λ shelf. IsNew (⟦<MemShelf as Shelf>⟧.now shelf)) }
    {
        Ok(MemShelf {
            alloc,
            storages: new_storages(alloc)?,
            scripts: new_scripts(alloc)?,
            calls: Vec::new(alloc),
        })
    }
}

/// Empty disks.
#[tactic(auto, using(crate::proofs::Replays::empty_push, std::proofs::lemmas::List::length_push))]
fn new_storages(alloc: Global) -> Result<Vec<Storage>, NoMemory>
    ensures size { IfOk result (λ storages. length storages.items ≡ 64) }
    ensures empty { IfOk result (λ storages. AreEmpty storages.items) }
{
    let mut storages = Vec::new(alloc);
    for _ in 0..DISKS {
        if storages.push(Storage::new(alloc)).is_err() {
            return Err(NoMemory);
        }
    }
    Ok(storages)
}

/// Scripts in which nothing is armed.
fn new_scripts(alloc: Global) -> Result<Vec<Script>, NoMemory>
    ensures { IfOk result (λ scripts. scripts.items ≡ replicate 64 no_script) }
{
    match vec![in alloc; Script::new(); DISKS] {
        Ok(scripts) => Ok(scripts),
        Err(_) => Err(NoMemory),
    }
}

impl Shelf for MemShelf {
    ghost now = { λ m. situation m.calls.items m.scripts.items };

    ghost shows = { λ m d modelled. shows m.calls.items m.scripts.items d };

    ghost counts_now = { λ m. counts_now m.calls.items m.scripts.items };

    ghost only_now = { λ m. since_now m.calls.items m.scripts.items };

    ghost counts_together = { λ m. together_now m.calls.items m.scripts.items };

    ghost only_together = { λ m. only_together m.calls.items m.scripts.items };

    ghost each_of_them = { λ m. each_of_them m.calls.items m.scripts.items };

    fn len(&mut self, disk: u8) -> Result<u64, ShelfFault> {
        match self.perform(disk, Work::Look) {
            Ok(()) => Ok(self.storages[disk as usize].contents().len() as u64),
            Err(fault) => Err(fault),
        }
    }

    fn read(&mut self, disk: u8, at: u64, into: &mut [u8]) -> Result<usize, ShelfFault> {
        match self.perform(disk, Work::Look) {
            Ok(()) => Ok(copy_from(self.storages[disk as usize].contents(), at as usize, into)),
            Err(fault) => Err(fault),
        }
    }

    fn write_at(&mut self, disk: u8, at: u64, bytes: &[u8]) -> Result<(), ShelfFault> {
        match copy_of(self.alloc, bytes) {
            Ok(copy) => self.perform(disk, Work::Alter(Edit::Write(at, copy))),
            Err(_) => Err(ShelfFault::NoMemory),
        }
    }

    fn cut(&mut self, disk: u8, size: u64) -> Result<(), ShelfFault> {
        self.perform(disk, Work::Alter(Edit::Cut(size)))
    }

    fn sync(&mut self, disk: u8) -> Result<(), ShelfFault> {
        self.perform(disk, Work::Sync)
    }

    fn arm(&mut self, disk: u8, after: u64, how: Arm) {
        let script = self.scripts[disk as usize];
        self.scripts[disk as usize] = script.arm(after, how);
    }

    fn crash(&mut self, disk: u8, image: u64) -> Result<(), ShelfFault> {
        let script = self.scripts[disk as usize];
        match note_change(
            &mut self.storages,
            &mut self.calls,
            disk,
            Change::Left(image),
        ) {
            Ok(()) => {
                self.scripts[disk as usize] = script.crash(image);
                Ok(())
            }
            Err(_) => Err(ShelfFault::NoMemory),
        }
    }
}

fn copy_of(alloc: Global, bytes: &[u8]) -> Result<Bytes, NoMemory>
    ensures { IfOk result (λ copy. copy ≡ bytes.now) }
{
    match bytes.to_vec(alloc) {
        Ok(copy) => Ok(Bytes::new(copy)),
        Err(_) => Err(NoMemory),
    }
}

/// Copies from that place on into the front of a buffer, as much as there is and fits.
fn copy_from(contents: &[u8], at: usize, into: &mut [u8]) -> usize
    ensures within { result ≤ length into.old }
    ensures bytes { take result into.new ≡ take (length into.old) (drop at contents.now) }
{
    let rest = &contents[at.min(contents.len())..];
    let some = rest.len().min(into.len());
    into[..some].copy_from_slice(&rest[..some]);
    some
}

/// Does a change on one disk. After an error nothing is changed.
#[tactic(auto, using(crate::proofs::Replays::set_here, crate::proofs::Replays::set_elsewhere, crate::proofs::Replays::read_here))]
fn change_at(storages: &mut Vec<Storage>, disk: u8, change: Change) -> Result<(), NoMemory>
    requires { disk < length storages.old.items }
    ensures ok { OnOk result (storage_state storages.new.items disk ≡ changed change (storage_state storages.old.items disk)) }
    ensures err { OnErr result (storage_state storages.new.items disk ≡ storage_state storages.old.items disk) }
    ensures elsewhere { (d : ℕ) → d ≢ disk → storage_state storages.new.items d ≡ storage_state storages.old.items d }
    ensures size { length storages.new.items ≡ length storages.old.items }
{
    storages[disk as usize].change(change)?;
    Ok(())
}

/// Does a change on one disk and notes it. After an error nothing is changed.
#[tactic(auto, using(crate::proofs::Replays::follow_push))]
fn note_change(
    storages: &mut Vec<Storage>,
    calls: &mut Vec<Call>,
    disk: u8,
    change: Change,
) -> Result<(), NoMemory>
    requires { disk < length storages.old.items }
    ensures ok { OnOk result (calls.new.items ≡ calls.old.items ++ (record { disk = disk; change = change }) ∷ []) }
    ensures err { OnErr result (calls.new.items ≡ calls.old.items) }
    ensures follow { Follow storages.old.items calls.old.items → Follow storages.new.items calls.new.items }
    ensures size { length storages.new.items ≡ length storages.old.items }
{
    let before = calls.len();
    let noted = change.copy()?;
    if calls
        .push(Call {
            disk,
            change: noted,
        })
        .is_err()
    {
        return Err(NoMemory);
    }
    match change_at(storages, disk, change) {
        Ok(()) => Ok(()),
        Err(error) => {
            calls.truncate(before);
            Err(error)
        }
    }
}

/// Does a change on one disk and notes it, where there is one. After an error nothing is changed.
fn note(
    storages: &mut Vec<Storage>,
    calls: &mut Vec<Call>,
    disk: u8,
    change: Option<Change>,
) -> Result<(), NoMemory>
    requires { disk < length storages.old.items }
    ensures ok { OnOk result (calls.new.items ≡ noting disk change calls.old.items) }
    ensures err { OnErr result (calls.new.items ≡ calls.old.items) }
    ensures follow { Follow storages.old.items calls.old.items → Follow storages.new.items calls.new.items }
    ensures size { length storages.new.items ≡ length storages.old.items }
{
    match change {
        None => Ok(()),
        Some(change) => note_change(storages, calls, disk, change),
    }
}

/// Does a device call's work, or what is armed in place of it.
fn perform(
    storages: &mut Vec<Storage>,
    scripts: &mut Vec<Script>,
    calls: &mut Vec<Call>,
    disk: u8,
    work: Work,
) -> Result<(), ShelfFault>
    requires storage { disk < length storages.old.items }
    requires script { disk < length scripts.old.items }
    ensures performs { Performs disk work calls.old.items calls.new.items scripts.old.items scripts.new.items result }
    ensures follow { Follow storages.old.items calls.old.items → Follow storages.new.items calls.new.items }
    ensures storages { length storages.new.items ≡ length storages.old.items }
    ensures scripts { length scripts.new.items ≡ length scripts.old.items }
{
    let script = scripts[disk as usize];
    match script.due() {
        None => {
            if note(storages, calls, disk, work.when_done()).is_err() {
                return Err(ShelfFault::NoMemory);
            }
            scripts[disk as usize] = script.one_on();
            Ok(())
        }
        Some(Arm::Fail) => {
            if note(storages, calls, disk, work.when_failed()).is_err() {
                return Err(ShelfFault::NoMemory);
            }
            scripts[disk as usize] = script.failed();
            Err(ShelfFault::Failed)
        }
        Some(Arm::Stop(image)) => {
            if note(storages, calls, disk, work.when_stopped(image)).is_err() {
                return Err(ShelfFault::NoMemory);
            }
            scripts[disk as usize] = script.stopped();
            Err(ShelfFault::Stopped)
        }
    }
}
