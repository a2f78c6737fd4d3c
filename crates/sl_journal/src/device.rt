//! Runs of device calls on the disk of a journal.
ghost use Rattle.std.specs.Prelude.{◌≡◌, ◌<◌, length, take, IsTrue, IfOk, OnOk, IsErrOf};
ghost use Rattle.sl_disk.specs.Shelf.{KeepsScript, NoMore, Only};
ghost use Rattle.sl_journal.specs.Moments.{LeavesOnly, IsTorn, IsWritten};
ghost use Rattle.sl_journal.specs.Settled.{Counts, fault_of};

use crate::fault::JournalFault;
use sl_disk::{Shelf, ShelfFault};
use std::alloc::Global;

/// The journal's fault for a fault of its disk.
pub(crate) fn fault_of(fault: ShelfFault) -> JournalFault
    ensures { result ≡ fault_of fault }
{
    match fault {
        ShelfFault::Failed => JournalFault::Failed,
        ShelfFault::Stopped => JournalFault::Stopped,
        ShelfFault::NoMemory => JournalFault::NoMemory,
    }
}

/// Writes these bytes at that place, and syncs.
pub(crate) fn write_synced<V: Shelf>(
    shelf: &mut V,
    disk: u8,
    at: u64,
    bytes: &[u8],
) -> Result<(), JournalFault>
    requires { disk < 64 }
    ensures written { IsTrue ((V.now shelf.old).disk disk).is_modelled → OnOk result (IsWritten disk at bytes.now (V.now shelf.old) (V.now shelf.new)) }
    ensures any_moment { LeavesOnly disk (V.now shelf.old) (V.now shelf.new) (IsTorn at (length bytes.now) ((V.now shelf.old).may_leave disk)) }
    ensures counts { Counts result ((V.now shelf.old).disk disk) ((V.now shelf.new).disk disk) }
    ensures script { KeepsScript ((V.now shelf.old).disk disk) ((V.now shelf.new).disk disk) }
    ensures known { IsErrOf result JournalFault.NotAJournal → ⊥ }
    ensures not_spent { IsErrOf result JournalFault.Spent → ⊥ }
{
    match shelf.write_at(disk, at, bytes) {
        Ok(()) => {}
        Err(fault) => return Err(fault_of(fault)),
    }
    match shelf.sync(disk) {
        Ok(()) => Ok(()),
        Err(fault) => Err(fault_of(fault)),
    }
}

/// Syncs, and reads all that is on the disk by one read.
pub(crate) fn sync_and_read<V: Shelf>(
    alloc: Global,
    shelf: &mut V,
    disk: u8,
) -> Result<Vec<u8>, JournalFault>
    requires { disk < 64 }
    ensures bytes { IsTrue ((V.now shelf.old).disk disk).is_modelled → IfOk result (λ bytes. bytes.items ≡ ((V.now shelf.old).disk disk).contents) }
    ensures contents { IsTrue ((V.now shelf.old).disk disk).is_modelled → OnOk result (((V.now shelf.new).disk disk).contents ≡ ((V.now shelf.old).disk disk).contents) }
    ensures durable { IsTrue ((V.now shelf.old).disk disk).is_modelled → OnOk result (Only ((V.now shelf.old).disk disk).contents ((V.now shelf.new).may_leave disk)) }
    ensures any_moment { LeavesOnly disk (V.now shelf.old) (V.now shelf.new) ((V.now shelf.old).may_leave disk) }
    ensures counts { Counts result ((V.now shelf.old).disk disk) ((V.now shelf.new).disk disk) }
    ensures script { KeepsScript ((V.now shelf.old).disk disk) ((V.now shelf.new).disk disk) }
    ensures known { IsErrOf result JournalFault.NotAJournal → ⊥ }
    ensures not_spent { IsErrOf result JournalFault.Spent → ⊥ }
{
    match shelf.sync(disk) {
        Ok(()) => {}
        Err(fault) => return Err(fault_of(fault)),
    }
    read_all(alloc, shelf, disk)
}

/// Reads all that is on the disk, by one read where there is something.
fn read_all<V: Shelf>(alloc: Global, shelf: &mut V, disk: u8) -> Result<Vec<u8>, JournalFault>
    requires { disk < 64 }
    ensures bytes { IsTrue ((V.now shelf.old).disk disk).is_modelled → IfOk result (λ bytes. bytes.items ≡ ((V.now shelf.old).disk disk).contents) }
    ensures contents { IsTrue ((V.now shelf.old).disk disk).is_modelled → OnOk result (((V.now shelf.new).disk disk).contents ≡ ((V.now shelf.old).disk disk).contents) }
    ensures any_moment { LeavesOnly disk (V.now shelf.old) (V.now shelf.new) ((V.now shelf.old).may_leave disk) }
    ensures no_more { NoMore ((V.now shelf.old).may_leave disk) ((V.now shelf.new).may_leave disk) }
    ensures counts { Counts result ((V.now shelf.old).disk disk) ((V.now shelf.new).disk disk) }
    ensures script { KeepsScript ((V.now shelf.old).disk disk) ((V.now shelf.new).disk disk) }
    ensures known { IsErrOf result JournalFault.NotAJournal → ⊥ }
    ensures not_spent { IsErrOf result JournalFault.Spent → ⊥ }
{
    match shelf.len(disk) {
        Ok(0) => Ok(Vec::new(alloc)),
        Ok(size) => read_front(alloc, shelf, disk, size as usize),
        Err(fault) => Err(fault_of(fault)),
    }
}

/// Reads so many bytes from the front, by one read.
fn read_front<V: Shelf>(
    alloc: Global,
    shelf: &mut V,
    disk: u8,
    size: usize,
) -> Result<Vec<u8>, JournalFault>
    requires { disk < 64 }
    ensures bytes { IsTrue ((V.now shelf.old).disk disk).is_modelled → IfOk result (λ bytes. bytes.items ≡ take size ((V.now shelf.old).disk disk).contents) }
    ensures contents { IsTrue ((V.now shelf.old).disk disk).is_modelled → OnOk result (((V.now shelf.new).disk disk).contents ≡ ((V.now shelf.old).disk disk).contents) }
    ensures any_moment { LeavesOnly disk (V.now shelf.old) (V.now shelf.new) ((V.now shelf.old).may_leave disk) }
    ensures no_more { NoMore ((V.now shelf.old).may_leave disk) ((V.now shelf.new).may_leave disk) }
    ensures counts { Counts result ((V.now shelf.old).disk disk) ((V.now shelf.new).disk disk) }
    ensures script { KeepsScript ((V.now shelf.old).disk disk) ((V.now shelf.new).disk disk) }
    ensures known { IsErrOf result JournalFault.NotAJournal → ⊥ }
    ensures not_spent { IsErrOf result JournalFault.Spent → ⊥ }
{
    let Ok(mut bytes) = vec![in alloc; 0; size] else {
        return Err(JournalFault::NoMemory);
    };
    match read_into(shelf, disk, &mut bytes) {
        Ok(some) => {
            bytes.truncate(some);
            Ok(bytes)
        }
        Err(fault) => Err(fault),
    }
}

fn read_into<V: Shelf>(shelf: &mut V, disk: u8, bytes: &mut Vec<u8>) -> Result<usize, JournalFault>
    requires { disk < 64 }
    ensures bytes { IsTrue ((V.now shelf.old).disk disk).is_modelled → IfOk result (λ n. take n bytes.new.items ≡ take (length bytes.old.items) ((V.now shelf.old).disk disk).contents) }
    ensures contents { IsTrue ((V.now shelf.old).disk disk).is_modelled → OnOk result (((V.now shelf.new).disk disk).contents ≡ ((V.now shelf.old).disk disk).contents) }
    ensures any_moment { LeavesOnly disk (V.now shelf.old) (V.now shelf.new) ((V.now shelf.old).may_leave disk) }
    ensures no_more { NoMore ((V.now shelf.old).may_leave disk) ((V.now shelf.new).may_leave disk) }
    ensures counts { Counts result ((V.now shelf.old).disk disk) ((V.now shelf.new).disk disk) }
    ensures script { KeepsScript ((V.now shelf.old).disk disk) ((V.now shelf.new).disk disk) }
    ensures known { IsErrOf result JournalFault.NotAJournal → ⊥ }
    ensures not_spent { IsErrOf result JournalFault.Spent → ⊥ }
{
    match shelf.read(disk, 0, bytes) {
        Ok(some) => Ok(some),
        Err(fault) => Err(fault_of(fault)),
    }
}
