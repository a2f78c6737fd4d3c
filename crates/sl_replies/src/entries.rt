//! Lists of entries at the place of a cursor.
ghost use Rattle.sl_items.specs.Reading.{GivesArgs};
ghost use Rattle.sl_replies.specs.Reading.{entry_at, entry_plus_at, list_at};

use crate::parts::garbage;
use sl_items::{take_name, take_optional_fattr, take_optional_fh};
use sl_types::{ArgsFault, Entries, EntriesPlus, Entry, EntryPlus};
use sl_xdr::Cursor;
use std::alloc::Global;

#[tactic(auto, unfolding(crate::specs::Reading::entry_at))]
fn take_entry(alloc: Global, cursor: &mut Cursor<'_>) -> Result<Entry, ArgsFault>
    ensures exact { GivesArgs (λ e. (e, cursor.new.rest)) result (entry_at cursor.old.rest) }
{
    let fileid = cursor.take_u64().map_err(garbage)?;
    let name = take_name(alloc, cursor)?;
    let cookie = cursor.take_u64().map_err(garbage)?;
    Ok(Entry {
        fileid,
        name,
        cookie,
    })
}

#[tactic(auto, unfolding(crate::specs::Reading::entry_plus_at))]
fn take_entry_plus(alloc: Global, cursor: &mut Cursor<'_>) -> Result<EntryPlus, ArgsFault>
    ensures exact { GivesArgs (λ e. (e, cursor.new.rest)) result (entry_plus_at cursor.old.rest) }
{
    let fileid = cursor.take_u64().map_err(garbage)?;
    let name = take_name(alloc, cursor)?;
    let cookie = cursor.take_u64().map_err(garbage)?;
    let attributes = take_optional_fattr(cursor).map_err(garbage)?;
    let handle = take_optional_fh(alloc, cursor)?;
    Ok(EntryPlus {
        fileid,
        name,
        cookie,
        attributes,
        handle,
    })
}

/// The entries of READDIR, fewer than most.
pub fn take_entries(
    alloc: Global,
    most: usize,
    cursor: &mut Cursor<'_>,
) -> Result<Entries, ArgsFault>
    ensures exact { GivesArgs (λ e. (e, cursor.new.rest)) result (list_at entry_at most cursor.old.rest) }
{
    let mut entries = Vec::new(alloc);
    for _i in 0..most {
        match cursor.flag() {
            Ok(true) => {}
            Ok(false) => return Ok(Entries::new(entries)),
            Err(_) => return Err(ArgsFault::Garbage),
        }
        match take_entry(alloc, cursor) {
            Ok(entry) => entries.push(entry).map_err(|_| ArgsFault::NoMemory)?,
            Err(fault) => return Err(fault),
        }
    }
    Err(ArgsFault::Garbage)
}

/// The entries of READDIRPLUS, fewer than most.
pub fn take_entries_plus(
    alloc: Global,
    most: usize,
    cursor: &mut Cursor<'_>,
) -> Result<EntriesPlus, ArgsFault>
    ensures exact { GivesArgs (λ e. (e, cursor.new.rest)) result (list_at entry_plus_at most cursor.old.rest) }
{
    let mut entries = Vec::new(alloc);
    for _i in 0..most {
        match cursor.flag() {
            Ok(true) => {}
            Ok(false) => return Ok(EntriesPlus::new(entries)),
            Err(_) => return Err(ArgsFault::Garbage),
        }
        match take_entry_plus(alloc, cursor) {
            Ok(entry) => entries.push(entry).map_err(|_| ArgsFault::NoMemory)?,
            Err(fault) => return Err(fault),
        }
    }
    Err(ArgsFault::Garbage)
}
