//! The journal.
ghost use Rattle.std.specs.Prelude.{◌≡◌, ◌⊎◌, ◌+◌, ◌^◌, ◌<◌, ◌≤◌, ◌++◌, [], ◌∷◌, ℕ, List, length, IsTrue, IfOk, IfErr, OnOk, OnErr, IsErrOf, Some, None};
ghost use Rattle.sl_disk.specs.Shelf.{KeepsScript, LeavesOthers, SameCounts, Only};
ghost use Rattle.sl_journal.specs.Format.{head_text, IsJournal, IsFresh, IsAlike, Stands, records_text};
ghost use Rattle.sl_journal.specs.Moments.{LeavesOnly};

use crate::appending::add_record;
use crate::device::sync_and_read;
use crate::fault::JournalFault;
use crate::head::head;
use crate::making::make;
use crate::reading::{is_fresh, read_made};
use crate::records::Records;
use sl_defs::Setup;
use sl_disk::Shelf;
use std::alloc::Global;
use std::marker::Model;

/// Where the first gate of a journal is.
const FIRST_GATE: u64 = 21;

/// A journal on a disk: a first byte, which is open, 20 bytes of head, and records, each a gate, a length of four
/// bytes and a payload; then a closed gate.
///
/// Contracts see its disk, the place of the next gate, and the fault that it met.
#[derive(Drop)]
pub struct Journal {
    disk: u8,
    end: u64,
    fault: Option<JournalFault>,
    buffer: Vec<u8>,
}

impl Model for Journal {
    ghost use Rattle.std.specs.Prelude.{◌≡◌, ◌<◌, Some};
    ghost use Rattle.sl_journal.specs.Settled.{JournalState};
    ghost use Rattle.sl_journal.specs.declared.fault.JournalFault.TheVariants.{NotAJournal};

    ghost Value = { JournalState };

    ghost view = { λ j. record { disk = j.disk; end = j.end; fault = j.fault } };

    ghost invariant = { λ j. (j.disk < 64) × (j.fault ≡ Some NotAJournal → ⊥) };
}

impl Journal {
    ghost use Rattle.sl_journal.specs.Settled.{Counts, IsSettled, SettledAt, StandsWithOrWithout};

    /// Adds a record. From Ok on, whatever a stop leaves of the disk has it.
    ///
    /// After an error each later call answers the same error: open the journal again.
    pub fn append<V: Shelf>(&mut self, shelf: &mut V, payload: &[u8]) -> Result<(), JournalFault>
        requires { length payload.now < 2 ^ 32 }

        // At Ok the disk holds the records with this one, and a stop leaves them.
        ensures added { (head : List ℕ) (records : List (List ℕ)) → IsSettled self.old (V.now shelf.old) head records → OnOk result (IsSettled self.new (V.now shelf.new) head (records ++ payload.now ∷ [])) }

        // At every moment of the call a stop leaves the records from before it, or these and the new one.
        ensures any_moment { (head : List ℕ) (records : List (List ℕ)) → IsSettled self.old (V.now shelf.old) head records → LeavesOnly self.old.disk (V.now shelf.old) (V.now shelf.new) (StandsWithOrWithout head records payload.now) }

        ensures counts { self.old.fault ≡ None → Counts result ((V.now shelf.old).disk self.old.disk) ((V.now shelf.new).disk self.old.disk) }
        ensures kept { (fault : JournalFault) → self.old.fault ≡ Some fault → IsErrOf result fault × SameCounts ((V.now shelf.old).disk self.old.disk) ((V.now shelf.new).disk self.old.disk) }
        ensures remembered { IfErr result (λ fault. self.new.fault ≡ Some fault) }
        ensures never { IsErrOf result JournalFault.NotAJournal → ⊥ }
        ensures spent { self.old.fault ≡ None → IsErrOf result JournalFault.Spent → 2 ^ 64 ≤ self.old.end + 5 + length payload.now }
        ensures others { LeavesOthers self.old.disk (V.now shelf.old) (V.now shelf.new) }
        ensures script { KeepsScript ((V.now shelf.old).disk self.old.disk) ((V.now shelf.new).disk self.old.disk) }
        ensures disk { self.new.disk ≡ self.old.disk }
    {
        match self.fault {
            Some(fault) => Err(fault),
            None => match add_record(shelf, self.disk, self.end, payload, &mut self.buffer) {
                Ok(next) => {
                    self.end = next;
                    Ok(())
                }
                Err(fault) => {
                    self.fault = Some(fault);
                    Err(fault)
                }
            },
        }
    }

    /// Opens the journal of a disk's actor, which has the disk's number: syncs, reads it, and makes it where the
    /// disk is fresh. The records come with it, in order.
    ///
    /// `NotAJournal` comes exactly where no device call failed or stopped and the disk stands for no records.
    pub fn open<V: Shelf>(
        alloc: Global,
        shelf: &mut V,
        disk: u8,
        setup: &Setup,
    ) -> Result<(Journal, Records), JournalFault>
        requires { disk < 64 }

        // The records are those that the disk stands for; the disk then holds them, and a stop leaves them.
        ensures opened { IsTrue ((V.now shelf.old).disk disk).is_modelled → IfOk result (λ x. IsSettled x.0 (V.now shelf.new) (head_text disk setup.now) x.1) }
        ensures exact { IsTrue ((V.now shelf.old).disk disk).is_modelled → IfOk result (λ x. Stands ((V.now shelf.old).disk disk).contents (head_text disk setup.now) x.1) }
        ensures none { IsTrue ((V.now shelf.old).disk disk).is_modelled → IsErrOf result JournalFault.NotAJournal → (records : List (List ℕ)) → Stands ((V.now shelf.old).disk disk).contents (head_text disk setup.now) records → ⊥ }

        // At every moment of the call a stop leaves what one before it might have left, or what stands for the
        // records that the disk stood for.
        ensures any_moment { IsTrue ((V.now shelf.old).disk disk).is_modelled → LeavesOnly disk (V.now shelf.old) (V.now shelf.new) (λ c. (V.now shelf.old).may_leave disk c ⊎ IsAlike ((V.now shelf.old).disk disk).contents (head_text disk setup.now) c) }

        ensures counts { Counts result ((V.now shelf.old).disk disk) ((V.now shelf.new).disk disk) }
        ensures not_spent { IsErrOf result JournalFault.Spent → ⊥ }
        ensures others { LeavesOthers disk (V.now shelf.old) (V.now shelf.new) }
        ensures script { KeepsScript ((V.now shelf.old).disk disk) ((V.now shelf.new).disk disk) }
        ensures disk { IfOk result (λ x. x.0.disk ≡ disk) }
    {
        let bytes = match sync_and_read(alloc, shelf, disk) {
            Ok(bytes) => bytes,
            Err(fault) => return Err(fault),
        };
        let head = head(disk, setup);
        if is_fresh(&bytes) {
            return match make(shelf, disk, &bytes, &head) {
                Ok(()) => Ok((Journal::at(alloc, disk, FIRST_GATE), Records::new(alloc))),
                Err(fault) => Err(fault),
            };
        }
        match read_made(alloc, &bytes, &head) {
            Ok((records, end)) => Ok((Journal::at(alloc, disk, end as u64), records)),
            Err(fault) => Err(fault),
        }
    }

    /// A journal with its next gate there.
    fn at(alloc: Global, disk: u8, end: u64) -> Journal
        requires { disk < 64 }
        ensures { result ≡ record { disk = disk; end = end; fault = None } }
    {
        Journal {
            disk,
            end,
            fault: None,
            buffer: Vec::new(alloc),
        }
    }
}
