//! Making a journal on a fresh disk.
ghost use Rattle.std.specs.Prelude.{◌≡◌, ◌<◌, ◌≤◌, ◌++◌, [], ◌∷◌, ℕ, List, length, IsTrue, IfOk, OnOk, OnErr, IsErrOf};
ghost use Rattle.sl_disk.specs.Shelf.{KeepsScript, LeavesOthers, Only};
ghost use Rattle.sl_journal.specs.Format.{BeginsClosed, IsFresh, HasHead, IsJournal, Stands};
ghost use Rattle.sl_journal.specs.Moments.{LeavesOnly};
ghost use Rattle.sl_journal.specs.Settled.{Counts};

use crate::device::write_synced;
use crate::fault::JournalFault;
use sl_disk::Shelf;

/// Closes the first byte of a disk that has at most one.
pub(crate) fn close_first<V: Shelf>(shelf: &mut V, disk: u8) -> Result<(), JournalFault>
    requires { disk < 64 }
    ensures closed { IsTrue ((V.now shelf.old).disk disk).is_modelled → length ((V.now shelf.old).disk disk).contents ≤ 1 → OnOk result (BeginsClosed ((V.now shelf.new).disk disk).contents × Only ((V.now shelf.new).disk disk).contents ((V.now shelf.new).may_leave disk)) }
    ensures any_moment { Only ((V.now shelf.old).disk disk).contents ((V.now shelf.old).may_leave disk) → length ((V.now shelf.old).disk disk).contents ≤ 1 → LeavesOnly disk (V.now shelf.old) (V.now shelf.new) (λ c. length c ≤ 1) }
    ensures others { LeavesOthers disk (V.now shelf.old) (V.now shelf.new) }
    ensures counts { Counts result ((V.now shelf.old).disk disk) ((V.now shelf.new).disk disk) }
    ensures script { KeepsScript ((V.now shelf.old).disk disk) ((V.now shelf.new).disk disk) }
    ensures known { IsErrOf result JournalFault.NotAJournal → ⊥ }
    ensures not_spent { IsErrOf result JournalFault.Spent → ⊥ }
{
    write_synced(shelf, disk, 0, &[0])
}

/// Writes the head and a closed gate behind a closed first byte, and then opens that byte.
///
/// The head has to be on the disk first, since behind an open byte it counts.
pub(crate) fn make_head<V: Shelf>(
    shelf: &mut V,
    disk: u8,
    head: &[u8; 20],
) -> Result<(), JournalFault>
    requires { disk < 64 }
    ensures made { IsTrue ((V.now shelf.old).disk disk).is_modelled → BeginsClosed ((V.now shelf.old).disk disk).contents → OnOk result (IsJournal ((V.now shelf.new).disk disk).contents head.now [] × Only ((V.now shelf.new).disk disk).contents ((V.now shelf.new).may_leave disk)) }
    ensures any_moment { IsTrue ((V.now shelf.old).disk disk).is_modelled → Only ((V.now shelf.old).disk disk).contents ((V.now shelf.old).may_leave disk) → BeginsClosed ((V.now shelf.old).disk disk).contents → LeavesOnly disk (V.now shelf.old) (V.now shelf.new) (λ c. Stands c head.now []) }
    ensures others { LeavesOthers disk (V.now shelf.old) (V.now shelf.new) }
    ensures counts { Counts result ((V.now shelf.old).disk disk) ((V.now shelf.new).disk disk) }
    ensures script { KeepsScript ((V.now shelf.old).disk disk) ((V.now shelf.new).disk disk) }
    ensures known { IsErrOf result JournalFault.NotAJournal → ⊥ }
    ensures not_spent { IsErrOf result JournalFault.Spent → ⊥ }
{
    let bytes = with_gate(head);
    match write_synced(shelf, disk, 1, &bytes) {
        Ok(()) => {}
        Err(fault) => return Err(fault),
    }
    match write_synced(shelf, disk, 0, &[1]) {
        Ok(()) => Ok(()),
        Err(fault) => Err(fault),
    }
}

/// Whether the first byte is there and closed.
fn begins_closed(bytes: &[u8]) -> bool
    ensures closed { IsTrue result → BeginsClosed bytes.now }
    ensures short { (IsTrue result → ⊥) → IsFresh bytes.now → length bytes.now ≤ 1 }
{
    match bytes {
        [0, ..] => true,
        _ => false,
    }
}

/// Makes a journal on a disk whose bytes are fresh.
///
/// Where the first byte already reads 0 it is left so, since a stop inside a write of it might open it over a
/// head that isn't whole.
pub(crate) fn make<V: Shelf>(
    shelf: &mut V,
    disk: u8,
    bytes: &[u8],
    head: &[u8; 20],
) -> Result<(), JournalFault>
    requires known { disk < 64 }
    requires fresh { IsFresh bytes.now }
    ensures made { IsTrue ((V.now shelf.old).disk disk).is_modelled → ((V.now shelf.old).disk disk).contents ≡ bytes.now → OnOk result (IsJournal ((V.now shelf.new).disk disk).contents head.now [] × Only ((V.now shelf.new).disk disk).contents ((V.now shelf.new).may_leave disk)) }
    ensures any_moment { IsTrue ((V.now shelf.old).disk disk).is_modelled → ((V.now shelf.old).disk disk).contents ≡ bytes.now → Only ((V.now shelf.old).disk disk).contents ((V.now shelf.old).may_leave disk) → LeavesOnly disk (V.now shelf.old) (V.now shelf.new) (λ c. Stands c head.now []) }
    ensures others { LeavesOthers disk (V.now shelf.old) (V.now shelf.new) }
    ensures counts { Counts result ((V.now shelf.old).disk disk) ((V.now shelf.new).disk disk) }
    ensures script { KeepsScript ((V.now shelf.old).disk disk) ((V.now shelf.new).disk disk) }
    ensures no_reading { IsErrOf result JournalFault.NotAJournal → ⊥ }
    ensures not_spent { IsErrOf result JournalFault.Spent → ⊥ }
{
    if begins_closed(bytes) {
        return match make_head(shelf, disk, head) {
            Ok(()) => Ok(()),
            Err(fault) => Err(fault),
        };
    }
    match close_first(shelf, disk) {
        Ok(()) => {}
        Err(fault) => return Err(fault),
    }
    match make_head(shelf, disk, head) {
        Ok(()) => Ok(()),
        Err(fault) => Err(fault),
    }
}

/// The head and a closed gate.
fn with_gate(head: &[u8; 20]) -> [u8; 21]
    ensures { result ≡ head.now ++ 0 ∷ [] }
{
    let mut bytes = [0; 21];
    bytes[..20].copy_from_slice(head);
    bytes
}
