ghost use Rattle.std.specs.Prelude.{◌≡◌, ◌++◌, length, take, IfOk, OnOk};
ghost use Rattle.sl_items.specs.Reading.{GivesArgs};

use crate::fault::RecordFault;
use crate::payload::{garbage, read_record, write_record};
use crate::works::take_bytes_work;
use sl_cells::Item;
use sl_frames::Work;
use sl_types::{ArgsFault, NoMemory};
use sl_xdr::{Cursor, put_flag, put_u32, put_u64};
use std::alloc::Global;

/// A record of a data server's journal.
#[derive(Drop, Debug)]
pub enum DataRecord {
    /// It was started, and this is its boot.
    Boot(u64),
    /// It is locked for this operation, which has this work of it. A Keep has its writes.
    Lock { op: u64, fence: u64, work: Work },
    /// The operation ended here, with its work done or not.
    Finish { op: u64, applied: bool },
}

impl Item for DataRecord {
    ghost use Rattle.sl_records.specs.Records.{data_at, data_text, ShortData};

    ghost at = { data_at };

    ghost text = { data_text };

    ghost is_short = { ShortData };

    #[tactic(auto, unfolding(crate::specs::Records::data_at, crate::specs::Records::data_body_at))]
    fn take(alloc: Global, cursor: &mut Cursor<'_>) -> Result<DataRecord, ArgsFault> {
        match cursor.take_u32().map_err(garbage)? {
            1 => {
                let boot = cursor.take_u64().map_err(garbage)?;
                Ok(DataRecord::Boot(boot))
            }
            2 => {
                let op = cursor.take_u64().map_err(garbage)?;
                let fence = cursor.take_u64().map_err(garbage)?;
                let work = take_bytes_work(alloc, cursor)?;
                Ok(DataRecord::Lock { op, fence, work })
            }
            3 => {
                let op = cursor.take_u64().map_err(garbage)?;
                let applied = cursor.flag().map_err(garbage)?;
                Ok(DataRecord::Finish { op, applied })
            }
            _ => Err(ArgsFault::Garbage),
        }
    }

    #[tactic(auto, using(sl_items::proofs::Appended::appended), unfolding(crate::specs::Records::data_text))]
    fn put(&self, out: &mut Vec<u8>) -> Result<(), sl_xdr::NoMemory> {
        match self {
            DataRecord::Boot(boot) => {
                put_u32(out, 1)?;
                put_u64(out, *boot)
            }
            DataRecord::Lock { op, fence, work } => {
                put_u32(out, 2)?;
                put_u64(out, *op)?;
                put_u64(out, *fence)?;
                work.put(out)
            }
            DataRecord::Finish { op, applied } => {
                put_u32(out, 3)?;
                put_u64(out, *op)?;
                put_flag(out, *applied)
            }
        }
    }

    fn copy(&self) -> Result<DataRecord, NoMemory> {
        match self {
            DataRecord::Boot(boot) => Ok(DataRecord::Boot(*boot)),
            DataRecord::Lock { op, fence, work } => {
                let work = work.copy()?;
                Ok(DataRecord::Lock {
                    op: *op,
                    fence: *fence,
                    work,
                })
            }
            DataRecord::Finish { op, applied } => Ok(DataRecord::Finish {
                op: *op,
                applied: *applied,
            }),
        }
    }
}

impl DataRecord {
    ghost use Rattle.std.specs.Prelude.{◌≡◌, ◌++◌, ℕ, List, Err, IfOk, OnOk, OnErr};
    ghost use Rattle.sl_records.specs.declared.data_server.DataRecord.{DataRecord};
    ghost use Rattle.sl_records.specs.Records.{IsDataRecord, FitsData, ShortData, data_text};

    /// The record that the whole payload spells.
    pub fn read(alloc: Global, bytes: &[u8]) -> Result<DataRecord, RecordFault>
        // The bytes are this record's text, and no other record's.
        ensures found { IfOk result (λ r. IsDataRecord r bytes.now) }
        ensures only { IfOk result (λ r. (other : DataRecord) → IsDataRecord other bytes.now → other ≡ r) }
        // It can be written.
        ensures short { IfOk result ShortData }
        // They are no record's.
        ensures bad { result ≡ Err RecordFault.BadRecord → (r : DataRecord) → IsDataRecord r bytes.now → ⊥ }
    {
        read_record(alloc, bytes)
    }

    /// Appends its payload. Without memory nothing is appended.
    pub fn write(&self, out: &mut Vec<u8>) -> Result<(), sl_xdr::NoMemory>
        requires { ShortData self.now }
        ensures ok { OnOk result (out.new.items ≡ out.old.items ++ data_text self.now) }
        // What is appended is in the grammar.
        ensures spelled { FitsData self.now → OnOk result ((text : List ℕ) × IsDataRecord self.now text × (out.new.items ≡ out.old.items ++ text)) }
        ensures err { OnErr result (out.new.items ≡ out.old.items) }
    {
        write_record(self, out)
    }
}
