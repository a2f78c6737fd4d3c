ghost use Rattle.std.specs.Prelude.{◌≡◌, ◌++◌, length, take, IfOk, OnOk};
ghost use Rattle.sl_items.specs.Reading.{GivesArgs};

use crate::actors::{is_data_server, is_directory_server};
use crate::parts::{garbage, take_writes};
use sl_cells::{Changes, Item, put_items, take_id, take_padded};
use sl_items::put_bytes;
use sl_types::{ArgsFault, Bytes, NoMemory, Writes};
use sl_xdr::{Cursor, put_u32, put_u64};
use std::alloc::Global;

/// What a server does where an intent is decided with yes.
#[derive(Drop, Debug)]
pub enum Work {
    /// A directory server changes its cells.
    Change(Changes),
    /// A data server makes what it holds unstable of a file stable. The writes stand in its own record alone.
    Keep {
        fileid: u64,
        writes: Writes,
    },
    /// A data server writes these bytes from an offset of the file on.
    Put {
        fileid: u64,
        offset: u64,
        bytes: Bytes,
    },
    /// A data server cuts the file to a size in bytes.
    Cut {
        fileid: u64,
        size: u64,
    },
    /// A data server forgets the file.
    Drop(u64),
}

impl Work {
    ghost use Rattle.sl_frames.specs.Works.{has_no_writes, may_be_asked, suits};

    fn suits_actor(&self, actor: u8) -> bool
        ensures { result ≡ suits actor self.now }
    {
        match self {
            Work::Change(_) => is_directory_server(actor as u32),
            Work::Keep { .. } | Work::Put { .. } => is_data_server(actor as u32),
            Work::Cut { .. } | Work::Drop(_) => is_data_server(actor as u32),
        }
    }

    fn is_without_writes(&self) -> bool
        ensures { result ≡ has_no_writes self.now }
    {
        match self {
            Work::Keep { fileid: _, writes } => writes.as_slice().is_empty(),
            _ => true,
        }
    }

    /// Whether a frame may ask this actor for it: changes of a directory server, all else of a data server, and no
    /// writes with a Keep.
    pub fn may_be_asked_of(&self, actor: u8) -> bool
        ensures { result ≡ may_be_asked actor self.now }
    {
        self.suits_actor(actor) && self.is_without_writes()
    }
}

impl Item for Work {
    ghost use Rattle.sl_frames.specs.Works.{work_at, work_text, ShortWork};

    ghost at = { work_at };

    ghost text = { work_text };

    ghost is_short = { ShortWork };

    #[tactic(auto, unfolding(crate::specs::Works::work_at, crate::specs::Works::work_body_at))]
    fn take(alloc: Global, cursor: &mut Cursor<'_>) -> Result<Work, ArgsFault> {
        match cursor.take_u32().map_err(garbage)? {
            1 => {
                let changes = Changes::take(alloc, cursor)?;
                Ok(Work::Change(changes))
            }
            2 => {
                let fileid = take_id(cursor).map_err(garbage)?;
                let writes = take_writes(alloc, cursor)?;
                Ok(Work::Keep { fileid, writes })
            }
            3 => {
                let fileid = take_id(cursor).map_err(garbage)?;
                let offset = cursor.take_u64().map_err(garbage)?;
                let bytes = take_padded(alloc, cursor)?;
                Ok(Work::Put {
                    fileid,
                    offset,
                    bytes,
                })
            }
            4 => {
                let fileid = take_id(cursor).map_err(garbage)?;
                let size = cursor.take_u64().map_err(garbage)?;
                Ok(Work::Cut { fileid, size })
            }
            5 => {
                let fileid = take_id(cursor).map_err(garbage)?;
                Ok(Work::Drop(fileid))
            }
            _ => Err(ArgsFault::Garbage),
        }
    }

    #[tactic(auto, using(sl_items::proofs::Appended::appended), unfolding(crate::specs::Works::work_text))]
    fn put(&self, out: &mut Vec<u8>) -> Result<(), sl_xdr::NoMemory> {
        match self {
            Work::Change(changes) => {
                put_u32(out, 1)?;
                changes.put(out)
            }
            Work::Keep { fileid, writes } => {
                put_u32(out, 2)?;
                put_u64(out, *fileid)?;
                put_items(out, writes.as_slice())
            }
            Work::Put {
                fileid,
                offset,
                bytes,
            } => {
                put_u32(out, 3)?;
                put_u64(out, *fileid)?;
                put_u64(out, *offset)?;
                put_bytes(out, bytes)
            }
            Work::Cut { fileid, size } => {
                put_u32(out, 4)?;
                put_u64(out, *fileid)?;
                put_u64(out, *size)
            }
            Work::Drop(fileid) => {
                put_u32(out, 5)?;
                put_u64(out, *fileid)
            }
        }
    }

    fn copy(&self) -> Result<Work, NoMemory> {
        match self {
            Work::Change(changes) => {
                let changes = changes.copy()?;
                Ok(Work::Change(changes))
            }
            Work::Keep { fileid, writes } => {
                let writes = writes.copy()?;
                Ok(Work::Keep {
                    fileid: *fileid,
                    writes,
                })
            }
            Work::Put {
                fileid,
                offset,
                bytes,
            } => {
                let bytes = bytes.copy()?;
                Ok(Work::Put {
                    fileid: *fileid,
                    offset: *offset,
                    bytes,
                })
            }
            Work::Cut { fileid, size } => Ok(Work::Cut {
                fileid: *fileid,
                size: *size,
            }),
            Work::Drop(fileid) => Ok(Work::Drop(*fileid)),
        }
    }
}
