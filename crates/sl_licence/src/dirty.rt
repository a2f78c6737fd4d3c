//! Files with unstable writes, as the proxy sees them.
ghost use Rattle.std.specs.Prelude.{◌≡◌, ◌&&◌, ◌∷◌, ℕ, List, [], nat_le, map, IfOk, OnOk};
ghost use Rattle.std.specs.BTreeSet.{btree_set_len};
ghost use Rattle.std.specs.Option.{option_copied};
ghost use Rattle.sl_defs.specs.Histories as histories;
ghost use Rattle.sl_defs.specs.declared.setup.Time.{Time};
ghost use Rattle.sl_frames.specs.Actors.{is_proxy};
ghost use Rattle.sl_history.specs.Turns.{History, Turn, begun, noted};
ghost use Rattle.sl_history.specs.Bodies.{is_decided};
ghost use Rattle.sl_history.specs.Licensed.{ended_by, files_of, flush_of_request, most_dirty, reaches, together, with, without};
ghost use Rattle.sl_past.specs.Words.{remark_of};
ghost use Rattle.sl_plain.specs.Unstables.{write_of};
ghost use Rattle.sl_ledger.specs.Ledgers.{IsLedgerOf};
ghost use Rattle.sl_licence.specs.Dirty.{AreFiles, AreFlushing, others_in};

use crate::words::flush_in;
use sl_defs::NoMemory;
use sl_frames::{Body, Frame};
use sl_ledger::Ledger;
use sl_past::Remark;
use sl_plain::{Pending, Volume};
use std::alloc::Global;
use std::collections::BTreeSet;

/// So many files may have unstable writes.
pub const MOST_DIRTY: usize = 1024;

/// The files that were flushed, whose flush the proxy hasn't been told of yet, the last one first.
#[derive(Drop)]
pub struct Flushing {
    files: Vec<u64>,
}

/// The file whose flush the turn's frame ends, which tells the proxy what became of a request.
fn ended_by(ledger: &Ledger) -> Option<u64>
    ensures { (past : History) (happening : histories.Happening) (moment : Time) → IsLedgerOf (begun past happening moment) ledger.now
        → result ≡ ended_by past (reaches past (record { happening = happening; moment = moment; remarks = [] })) }
{
    match ledger.reached() {
        Some(frame) => {
            if is_decision(frame) {
                flush_of(ledger.request(frame.fence, frame.tag))
            } else {
                None
            }
        }
        None => None,
    }
}

/// Whether the frame tells the proxy what became of an intent.
fn is_decision(frame: &Frame) -> bool
    ensures { result ≡ (is_proxy frame.now.to && is_decided frame.now.body) }
{
    frame.to == 0 && matches!(frame.body, Body::Decided { .. })
}

/// The file whose flush the request asks for.
fn flush_of(request: Option<&Frame>) -> Option<u64>
    ensures { result ≡ flush_of_request (option_copied request.entry) }
{
    match request {
        Some(frame) => flush_in(&frame.body),
        None => None,
    }
}

/// The list with this file in front, unless it has it.
fn add_to(files: &mut Vec<u64>, file: u64) -> Result<(), NoMemory>
    ensures { OnOk result (files.new.items ≡ with file files.old.items) }
{
    if files.contains(&file) {
        return Ok(());
    }
    match files.insert(0, file) {
        Ok(()) => Ok(()),
        Err(_) => Err(NoMemory),
    }
}

/// The list without this file.
fn take_out(files: &mut Vec<u64>, file: u64)
    ensures { files.new.items ≡ without file files.old.items }
{
    files.retain(|other| *other != file);
}

impl Flushing {
    /// No file is being flushed.
    pub fn new(alloc: Global) -> Flushing
        ensures { AreFlushing [] result }
    {
        Flushing {
            files: Vec::new(alloc),
        }
    }

    /// A turn has begun. Its frame may end a flush.
    pub fn begin(&mut self, ledger: &Ledger)
        ensures { (past : History) (happening : histories.Happening) (moment : Time) → IsLedgerOf (begun past happening moment) ledger.now
            → AreFlushing past self.old → AreFlushing (begun past happening moment) self.new }
    {
        if let Some(file) = ended_by(ledger) {
            take_out(&mut self.files, file);
        }
    }

    /// Takes a note: a flush, or a write verifier, behind which nothing is being flushed.
    pub fn note(&mut self, remark: &Remark) -> Result<(), NoMemory>
        ensures { OnOk result ((t : Turn) (past : History) → AreFlushing (t ∷ past) self.old → AreFlushing (noted (t ∷ past) (remark_of remark.now)) self.new) }
    {
        match remark {
            Remark::Flush(file) => add_to(&mut self.files, *file),
            Remark::Verf(_) => {
                self.files.clear();
                Ok(())
            }
            _ => Ok(()),
        }
    }

    /// The files, the last one first.
    pub fn as_slice(&self) -> &[u64]
        ensures { result.now ≡ self.now.files.items }
    {
        self.files.as_slice()
    }
}

/// A set of files.
#[derive(Drop)]
pub struct Files {
    files: BTreeSet<u64>,
}

impl Files {
    /// The files that have unstable writes, or are being flushed.
    pub fn dirty(alloc: Global, flushing: &Flushing, volume: &Volume) -> Result<Files, NoMemory>
        ensures { IfOk result (AreFiles (together flushing.now.files.items (files_of volume.now.unstable))) }
    {
        let mut files = Files {
            files: BTreeSet::new(alloc),
        };
        files.add_writes(volume.unstable())?;
        files.add_all(flushing.as_slice())?;
        Ok(files)
    }

    /// One file more.
    fn add(&mut self, file: u64) -> Result<(), NoMemory>
        ensures { OnOk result ((fs : List ℕ) → AreFiles fs self.old → AreFiles (with file fs) self.new) }
    {
        match self.files.insert(file) {
            Ok(_) => Ok(()),
            Err(_) => Err(NoMemory),
        }
    }

    /// The files of these writes, from the last one on.
    fn add_writes(&mut self, writes: &[Pending]) -> Result<(), NoMemory>
        ensures { OnOk result (AreFiles [] self.old → AreFiles (files_of (map write_of writes.now)) self.new) }
    {
        let mut left = writes.len();
        while left > 0 {
            left -= 1;
            self.add(writes[left].fileid)?;
        }
        Ok(())
    }

    /// These files, from the last one on.
    fn add_all(&mut self, files: &[u64]) -> Result<(), NoMemory>
        ensures { OnOk result ((fs : List ℕ) → AreFiles fs self.old → AreFiles (together files.now fs) self.new) }
    {
        let mut left = files.len();
        while left > 0 {
            left -= 1;
            self.add(files[left])?;
        }
        Ok(())
    }

    /// How many there are besides this one.
    fn others(&self, file: u64) -> usize
        ensures { result ≡ others_in self.now file }
    {
        let count = self.files.len();
        if self.files.contains(&file) {
            count.saturating_sub(1)
        } else {
            count
        }
    }

    /// Whether there are as many besides this one as may have unstable writes.
    pub fn are_many_besides(&self, file: u64) -> bool
        ensures { result ≡ nat_le most_dirty (others_in self.now file) }
    {
        self.others(file) >= MOST_DIRTY
    }

    /// Whether there are so many that some file might have many besides it.
    pub fn are_many(&self) -> bool
        ensures { result ≡ nat_le most_dirty (btree_set_len self.now.files) }
    {
        self.files.len() >= MOST_DIRTY
    }
}
