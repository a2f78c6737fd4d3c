//! Adding a record.
ghost use Rattle.std.specs.Prelude.{◌≡◌, ◌+◌, ◌^◌, ◌<◌, ◌≤◌, ◌++◌, [], ◌∷◌, ℕ, List, length, IfOk, OnOk, OnErr, IsErrOf};
ghost use Rattle.sl_defs.specs.Items.{u32_text};
ghost use Rattle.sl_disk.specs.Shelf.{KeepsScript, LeavesOthers};
ghost use Rattle.sl_journal.specs.Moments.{LeavesOnly};
ghost use Rattle.sl_journal.specs.Settled.{Counts, SettledAt, StandsWithOrWithout};

use crate::device::write_synced;
use crate::fault::JournalFault;
use sl_defs::NoMemory;
use sl_disk::Shelf;
use sl_xdr::put_u32;

/// How many bytes a record takes beside its payload: its gate and its length.
const RECORD_FRAME: u64 = 5;

/// Fills a buffer with what stands behind a record's gate: its length, its payload, and the next gate, closed.
#[tactic(auto, using(std::proofs::lemmas::List::append_assoc))]
fn fill(buffer: &mut Vec<u8>, payload: &[u8]) -> Result<(), NoMemory>
    requires { length payload.now < 2 ^ 32 }
    ensures { OnOk result (buffer.new.items ≡ u32_text (length payload.now) ++ payload.now ++ 0 ∷ []) }
{
    buffer.clear();
    if put_u32(buffer, payload.len() as u32).is_err() {
        return Err(NoMemory);
    }
    if buffer.extend_from_slice(payload).is_err() {
        return Err(NoMemory);
    }
    if buffer.push(0).is_err() {
        return Err(NoMemory);
    }
    Ok(())
}

/// Writes a record behind the closed gate at `end`, and then opens the gate. The answer is the next gate's place.
///
/// The record and the closed gate behind it have to be on the disk before its own gate is opened, since what
/// stands behind an open gate counts.
pub(crate) fn add_record<V: Shelf>(
    shelf: &mut V,
    disk: u8,
    end: u64,
    payload: &[u8],
    buffer: &mut Vec<u8>,
) -> Result<u64, JournalFault>
    requires known { disk < 64 }
    requires short { length payload.now < 2 ^ 32 }
    ensures added { (head : List ℕ) (records : List (List ℕ)) → SettledAt disk end head records (V.now shelf.old) → IfOk result (λ next. SettledAt disk next head (records ++ payload.now ∷ []) (V.now shelf.new)) }
    ensures any_moment { (head : List ℕ) (records : List (List ℕ)) → SettledAt disk end head records (V.now shelf.old) → LeavesOnly disk (V.now shelf.old) (V.now shelf.new) (StandsWithOrWithout head records payload.now) }
    ensures others { LeavesOthers disk (V.now shelf.old) (V.now shelf.new) }
    ensures counts { Counts result ((V.now shelf.old).disk disk) ((V.now shelf.new).disk disk) }
    ensures script { KeepsScript ((V.now shelf.old).disk disk) ((V.now shelf.new).disk disk) }
    ensures known_disk { IsErrOf result JournalFault.NotAJournal → ⊥ }
    ensures spent { IsErrOf result JournalFault.Spent → 2 ^ 64 ≤ end + 5 + length payload.now }
{
    let Some(next) = end.checked_add(RECORD_FRAME + payload.len() as u64) else {
        return Err(JournalFault::Spent);
    };
    if fill(buffer, payload).is_err() {
        return Err(JournalFault::NoMemory);
    }
    match write_synced(shelf, disk, end + 1, buffer) {
        Ok(()) => {}
        Err(fault) => return Err(fault),
    }
    match write_synced(shelf, disk, end, &[1]) {
        Ok(()) => Ok(next),
        Err(fault) => Err(fault),
    }
}
