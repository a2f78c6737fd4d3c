ghost use Rattle.std.specs.Prelude.{◌≡◌, ◌++◌, length, take, IfOk, OnOk};
ghost use Rattle.sl_items.specs.Reading.{GivesArgs};

use crate::fault::RecordFault;
use crate::payload::{garbage, read_record, write_record};
use crate::started::Started;
use sl_cells::Item;
use sl_types::{ArgsFault, NoMemory};
use sl_xdr::{Cursor, put_flag, put_u32, put_u64};
use std::alloc::Global;

/// A record of the coordinator's journal.
#[derive(Drop, Debug)]
pub enum LogEntry {
    /// This is the greatest fence that it has seen.
    Fence(u64),
    /// An intent is started as an operation.
    Intent(Started),
    /// The operation is done, or isn't.
    Decide { op: u64, yes: bool },
    /// All servers of the operation were told.
    Done(u64),
}

impl Item for LogEntry {
    ghost use Rattle.sl_records.specs.Records.{log_at, log_text, ShortLog};

    ghost at = { log_at };

    ghost text = { log_text };

    ghost is_short = { ShortLog };

    #[tactic(auto, unfolding(crate::specs::Records::log_at, crate::specs::Records::log_body_at))]
    fn take(alloc: Global, cursor: &mut Cursor<'_>) -> Result<LogEntry, ArgsFault> {
        match cursor.take_u32().map_err(garbage)? {
            1 => {
                let fence = cursor.take_u64().map_err(garbage)?;
                Ok(LogEntry::Fence(fence))
            }
            2 => {
                let started = Started::take(alloc, cursor)?;
                Ok(LogEntry::Intent(started))
            }
            3 => {
                let op = cursor.take_u64().map_err(garbage)?;
                let yes = cursor.flag().map_err(garbage)?;
                Ok(LogEntry::Decide { op, yes })
            }
            4 => {
                let op = cursor.take_u64().map_err(garbage)?;
                Ok(LogEntry::Done(op))
            }
            _ => Err(ArgsFault::Garbage),
        }
    }

    #[tactic(auto, using(sl_items::proofs::Appended::appended), unfolding(crate::specs::Records::log_text))]
    fn put(&self, out: &mut Vec<u8>) -> Result<(), sl_xdr::NoMemory> {
        match self {
            LogEntry::Fence(fence) => {
                put_u32(out, 1)?;
                put_u64(out, *fence)
            }
            LogEntry::Intent(started) => {
                put_u32(out, 2)?;
                started.put(out)
            }
            LogEntry::Decide { op, yes } => {
                put_u32(out, 3)?;
                put_u64(out, *op)?;
                put_flag(out, *yes)
            }
            LogEntry::Done(op) => {
                put_u32(out, 4)?;
                put_u64(out, *op)
            }
        }
    }

    fn copy(&self) -> Result<LogEntry, NoMemory> {
        match self {
            LogEntry::Fence(fence) => Ok(LogEntry::Fence(*fence)),
            LogEntry::Intent(started) => {
                let started = started.copy()?;
                Ok(LogEntry::Intent(started))
            }
            LogEntry::Decide { op, yes } => Ok(LogEntry::Decide { op: *op, yes: *yes }),
            LogEntry::Done(op) => Ok(LogEntry::Done(*op)),
        }
    }
}

impl LogEntry {
    ghost use Rattle.std.specs.Prelude.{◌≡◌, ◌++◌, ℕ, List, Err, IfOk, OnOk, OnErr};
    ghost use Rattle.sl_records.specs.declared.coordinator.LogEntry.{LogEntry};
    ghost use Rattle.sl_records.specs.Records.{IsLogEntry, FitsLog, ShortLog, log_text};

    /// The record that the whole payload spells.
    pub fn read(alloc: Global, bytes: &[u8]) -> Result<LogEntry, RecordFault>
        // The bytes are this record's text, and no other record's.
        ensures found { IfOk result (λ r. IsLogEntry r bytes.now) }
        ensures only { IfOk result (λ r. (other : LogEntry) → IsLogEntry other bytes.now → other ≡ r) }
        // It can be written.
        ensures short { IfOk result ShortLog }
        // They are no record's.
        ensures bad { result ≡ Err RecordFault.BadRecord → (r : LogEntry) → IsLogEntry r bytes.now → ⊥ }
    {
        read_record(alloc, bytes)
    }

    /// Appends its payload. Without memory nothing is appended.
    pub fn write(&self, out: &mut Vec<u8>) -> Result<(), sl_xdr::NoMemory>
        requires { ShortLog self.now }
        ensures ok { OnOk result (out.new.items ≡ out.old.items ++ log_text self.now) }
        // What is appended is in the grammar.
        ensures spelled { FitsLog self.now → OnOk result ((text : List ℕ) × IsLogEntry self.now text × (out.new.items ≡ out.old.items ++ text)) }
        ensures err { OnErr result (out.new.items ≡ out.old.items) }
    {
        write_record(self, out)
    }
}
