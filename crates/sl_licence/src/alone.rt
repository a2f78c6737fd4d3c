//! Which calls a file is flushed for.
ghost use Rattle.std.specs.Prelude.{◌≡◌, ◌||◌, IfOk, option_map};
ghost use Rattle.std.specs.Option.{option_copied};
ghost use Rattle.std.specs.Prelude.{map as each};
ghost use Rattle.sl_types.specs.Handles.{handle_of};
ghost use Rattle.sl_model.specs.Volume.{is_dir};
ghost use Rattle.sl_history.specs.Licensed.{at_place, flushes_for, handles_file, is_due, is_in, kept_alone, named_in, writes_of};
ghost use Rattle.sl_plain.specs.Unstables.{write_of};
ghost use Rattle.sl_datagram.specs.Datagrams.{asked_of};

use sl_datagram::{Asked, may_change};
use sl_defs::NoMemory;
use sl_plain::{Pending, Place, Volume};
use sl_types::{Call, Fh, Handle, Kind, Name, Stable};
use std::alloc::Global;

/// So many unstable writes may a file have.
const MOST_WRITES: usize = 32;

fn is_dir(kind: Kind) -> bool
    ensures { result ≡ is_dir kind }
{
    matches!(kind, Kind::Dir)
}

/// Whether the handle is of this file, and no directory's.
fn is_handle_of(handle: &Fh, file: u64) -> bool
    ensures { result ≡ is_in file (handles_file handle.now) }
{
    match Handle::read(handle.as_slice()) {
        Some(handle) => !is_dir(handle.kind) && handle.fileid == file,
        None => false,
    }
}

/// Whether the name leads to this file, in the directory of the handle.
fn leads_to(
    alloc: Global,
    volume: &Volume,
    dir: &Fh,
    name: &Name,
    file: u64,
) -> Result<bool, NoMemory>
    ensures { IfOk result (λ leads. leads ≡ is_in file (named_in volume.now (handle_of dir.now) name.now)) }
{
    let Some(dir) = Handle::read(dir.as_slice()) else {
        return Ok(false);
    };
    let place = Place::of(alloc, dir.fileid, name.as_slice())?;
    match volume.entry_at(&place) {
        Some(entry) => Ok(!is_dir(entry.kind) && entry.fileid == file),
        None => Ok(false),
    }
}

/// Whether a call at this place keeps the file.
fn is_at_place(
    alloc: Global,
    volume: &Volume,
    dir: &Fh,
    name: &Name,
    file: u64,
) -> Result<bool, NoMemory>
    ensures { IfOk result (λ is. is ≡ is_in file (at_place volume.now dir.now name.now)) }
{
    if is_handle_of(dir, file) {
        return Ok(true);
    }
    leads_to(alloc, volume, dir, name, file)
}

/// Whether a LINK of this file to this place keeps the file.
fn is_linked(
    alloc: Global,
    volume: &Volume,
    linked: &Fh,
    dir: &Fh,
    name: &Name,
    file: u64,
) -> Result<bool, NoMemory>
    ensures { IfOk result (λ is. is ≡ (is_in file (handles_file linked.now) || is_in file (at_place volume.now dir.now name.now))) }
{
    if is_handle_of(linked, file) {
        return Ok(true);
    }
    is_at_place(alloc, volume, dir, name, file)
}

/// Whether the call keeps the file for itself alone while it runs: it is one of its handles, or of those that its names
/// lead to.
fn is_kept_alone(alloc: Global, volume: &Volume, call: &Call, file: u64) -> Result<bool, NoMemory>
    ensures { IfOk result (λ is. is ≡ is_in file (kept_alone volume.now call.now)) }
{
    match call {
        Call::Setattr { object, .. } => Ok(is_handle_of(object, file)),
        Call::Write { file: written, .. } => Ok(is_handle_of(written, file)),
        Call::Create { dir, name, .. } => is_at_place(alloc, volume, dir, name, file),
        Call::Mkdir { dir, name, .. } => is_at_place(alloc, volume, dir, name, file),
        Call::Symlink { dir, name, .. } => is_at_place(alloc, volume, dir, name, file),
        Call::Mknod { dir, name, .. } => is_at_place(alloc, volume, dir, name, file),
        Call::Remove { dir, name } => is_at_place(alloc, volume, dir, name, file),
        Call::Rmdir { dir, name } => is_at_place(alloc, volume, dir, name, file),
        Call::Rename {
            from,
            from_name,
            to,
            to_name,
        } => {
            if is_at_place(alloc, volume, from, from_name, file)? {
                return Ok(true);
            }
            is_at_place(alloc, volume, to, to_name, file)
        }
        Call::Link {
            file: linked,
            dir,
            name,
        } => is_linked(alloc, volume, linked, dir, name, file),
        Call::Commit {
            file: committed,
            ..
        } => Ok(is_handle_of(committed, file)),
        _ => Ok(false),
    }
}

/// How many of the writes are of this file.
fn writes_of(writes: &[Pending], file: u64) -> usize
    ensures { result ≡ writes_of file (each write_of writes.now) }
{
    let mut count = 0;
    for write in writes {
        if write.fileid == file {
            count += 1;
        }
    }
    count
}

/// Whether the call flushes the file, where it keeps it: an unstable WRITE does only where the file has as many unstable
/// writes as it may have.
fn is_due(volume: &Volume, file: u64, call: &Call) -> bool
    ensures { result ≡ is_due volume.now file call.now }
{
    match call {
        Call::Write {
            stable: Stable::Unstable,
            count,
            ..
        } => writes_of(volume.unstable(), file) >= MOST_WRITES && *count != 0,
        _ => true,
    }
}

/// Whether the file is flushed for the call.
pub fn is_flushed_for(
    alloc: Global,
    volume: &Volume,
    file: u64,
    asked: Option<&Asked>,
) -> Result<bool, NoMemory>
    ensures { IfOk result (λ is. is ≡ flushes_for volume.now file (option_map asked_of (option_copied asked.entry))) }
{
    let Some(asked) = asked else {
        return Ok(false);
    };
    if !may_change(&asked.call) || !is_due(volume, file, &asked.call) {
        return Ok(false);
    }
    is_kept_alone(alloc, volume, &asked.call, file)
}
