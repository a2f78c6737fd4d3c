ghost use Rattle.std.specs.Prelude.{◌≡◌, ◌++◌, length, take, IfOk, OnOk};
ghost use Rattle.sl_items.specs.Reading.{GivesArgs};

use crate::done::{Did, Mint};
use crate::fault::RecordFault;
use crate::payload::{garbage, read_record, write_record};
use crate::works::take_cells_work;
use sl_cells::{AttrCell, Item};
use sl_frames::Work;
use sl_types::{ArgsFault, NoMemory};
use sl_xdr::{Cursor, put_flag, put_u32, put_u64};
use std::alloc::Global;

/// A record of a directory server's journal.
#[derive(Drop, Debug)]
pub enum DirRecord {
    /// This is the greatest fence that it has seen.
    Fence(u64),
    Mint(Mint),
    Did(Did),
    /// It is locked for this operation, which has this work of it.
    Lock { op: u64, fence: u64, work: Work },
    /// The operation ended here, with its work done or not.
    Finish { op: u64, applied: bool },
    /// The root's cell, as the volume was made with it.
    Root(AttrCell),
}

impl Item for DirRecord {
    ghost use Rattle.sl_records.specs.Records.{dir_at, dir_text, ShortDir};

    ghost at = { dir_at };

    ghost text = { dir_text };

    ghost is_short = { ShortDir };

    #[tactic(auto, unfolding(crate::specs::Records::dir_at, crate::specs::Records::dir_body_at))]
    fn take(alloc: Global, cursor: &mut Cursor<'_>) -> Result<DirRecord, ArgsFault> {
        match cursor.take_u32().map_err(garbage)? {
            1 => {
                let fence = cursor.take_u64().map_err(garbage)?;
                Ok(DirRecord::Fence(fence))
            }
            2 => Ok(DirRecord::Mint(Mint::take(alloc, cursor)?)),
            3 => Ok(DirRecord::Did(Did::take(alloc, cursor)?)),
            4 => {
                let op = cursor.take_u64().map_err(garbage)?;
                let fence = cursor.take_u64().map_err(garbage)?;
                let work = take_cells_work(alloc, cursor)?;
                Ok(DirRecord::Lock { op, fence, work })
            }
            5 => {
                let op = cursor.take_u64().map_err(garbage)?;
                let applied = cursor.flag().map_err(garbage)?;
                Ok(DirRecord::Finish { op, applied })
            }
            6 => Ok(DirRecord::Root(AttrCell::take(alloc, cursor)?)),
            _ => Err(ArgsFault::Garbage),
        }
    }

    #[tactic(auto, using(sl_items::proofs::Appended::appended), unfolding(crate::specs::Records::dir_text))]
    fn put(&self, out: &mut Vec<u8>) -> Result<(), sl_xdr::NoMemory> {
        match self {
            DirRecord::Fence(fence) => {
                put_u32(out, 1)?;
                put_u64(out, *fence)
            }
            DirRecord::Mint(mint) => {
                put_u32(out, 2)?;
                mint.put(out)
            }
            DirRecord::Did(did) => {
                put_u32(out, 3)?;
                did.put(out)
            }
            DirRecord::Lock { op, fence, work } => {
                put_u32(out, 4)?;
                put_u64(out, *op)?;
                put_u64(out, *fence)?;
                work.put(out)
            }
            DirRecord::Finish { op, applied } => {
                put_u32(out, 5)?;
                put_u64(out, *op)?;
                put_flag(out, *applied)
            }
            DirRecord::Root(cell) => {
                put_u32(out, 6)?;
                cell.put(out)
            }
        }
    }

    fn copy(&self) -> Result<DirRecord, NoMemory> {
        match self {
            DirRecord::Fence(fence) => Ok(DirRecord::Fence(*fence)),
            DirRecord::Mint(mint) => Ok(DirRecord::Mint(*mint)),
            DirRecord::Did(did) => Ok(DirRecord::Did(did.copy()?)),
            DirRecord::Lock { op, fence, work } => {
                let work = work.copy()?;
                Ok(DirRecord::Lock {
                    op: *op,
                    fence: *fence,
                    work,
                })
            }
            DirRecord::Finish { op, applied } => Ok(DirRecord::Finish {
                op: *op,
                applied: *applied,
            }),
            DirRecord::Root(cell) => Ok(DirRecord::Root(cell.copy()?)),
        }
    }
}

impl DirRecord {
    ghost use Rattle.std.specs.Prelude.{◌≡◌, ◌++◌, ℕ, List, Err, IfOk, OnOk, OnErr};
    ghost use Rattle.sl_records.specs.declared.directory.DirRecord.{DirRecord};
    ghost use Rattle.sl_records.specs.Records.{IsDirRecord, FitsDir, ShortDir, dir_text};

    /// The record that the whole payload spells.
    pub fn read(alloc: Global, bytes: &[u8]) -> Result<DirRecord, RecordFault>
        // The bytes are this record's text, and no other record's.
        ensures found { IfOk result (λ r. IsDirRecord r bytes.now) }
        ensures only { IfOk result (λ r. (other : DirRecord) → IsDirRecord other bytes.now → other ≡ r) }
        // It can be written.
        ensures short { IfOk result ShortDir }
        // They are no record's.
        ensures bad { result ≡ Err RecordFault.BadRecord → (r : DirRecord) → IsDirRecord r bytes.now → ⊥ }
    {
        read_record(alloc, bytes)
    }

    /// Appends its payload. Without memory nothing is appended.
    pub fn write(&self, out: &mut Vec<u8>) -> Result<(), sl_xdr::NoMemory>
        requires { ShortDir self.now }
        ensures ok { OnOk result (out.new.items ≡ out.old.items ++ dir_text self.now) }
        // What is appended is in the grammar.
        ensures spelled { FitsDir self.now → OnOk result ((text : List ℕ) × IsDirRecord self.now text × (out.new.items ≡ out.old.items ++ text)) }
        ensures err { OnErr result (out.new.items ≡ out.old.items) }
    {
        write_record(self, out)
    }
}
