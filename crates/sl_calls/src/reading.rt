//! The arguments of each procedure at the place of a cursor.
ghost use Rattle.std.specs.Prelude.{◌≡◌, IfOk};
ghost use Rattle.sl_types.specs.declared.call.Call.{Call};
ghost use Rattle.sl_types.specs.declared.fault.ArgsFault.TheVariants.{Garbage};
ghost use Rattle.sl_calls.specs.Args.{BeginsWithArgs, FitsLengths};
ghost use Rattle.sl_items.specs.Reading.{GivesArgs};
ghost use Rattle.sl_calls.specs.Reading.{access_at, args_at, commit_at, create_at, link_at, mkdir_at, mknod_at, read_at, readdir_at, readdirplus_at, rename_at, setattr_at, symlink_at, write_at};

use crate::parts::{garbage, take_create_how, take_dir_op, take_node_data};
use sl_items::{take_bytes, take_fh, take_optional_time, take_sattr, take_stable};
use sl_types::{ArgsFault, Call};
use sl_xdr::Cursor;
use std::alloc::Global;

#[tactic(auto, unfolding(crate::specs::Reading::setattr_at))]
fn setattr(alloc: Global, cursor: &mut Cursor<'_>) -> Result<Call, ArgsFault>
    ensures { GivesArgs (λ c. (c, cursor.new.rest)) result (setattr_at cursor.old.rest) }
{
    let object = take_fh(alloc, cursor)?;
    let attributes = take_sattr(cursor).map_err(garbage)?;
    let guard = take_optional_time(cursor).map_err(garbage)?;
    Ok(Call::Setattr {
        object,
        attributes,
        guard,
    })
}

#[tactic(auto, unfolding(crate::specs::Reading::access_at))]
fn access(alloc: Global, cursor: &mut Cursor<'_>) -> Result<Call, ArgsFault>
    ensures { GivesArgs (λ c. (c, cursor.new.rest)) result (access_at cursor.old.rest) }
{
    let object = take_fh(alloc, cursor)?;
    let bits = cursor.take_u32().map_err(garbage)?;
    Ok(Call::Access { object, bits })
}

#[tactic(auto, unfolding(crate::specs::Reading::read_at))]
fn read(alloc: Global, cursor: &mut Cursor<'_>) -> Result<Call, ArgsFault>
    ensures { GivesArgs (λ c. (c, cursor.new.rest)) result (read_at cursor.old.rest) }
{
    let file = take_fh(alloc, cursor)?;
    let offset = cursor.take_u64().map_err(garbage)?;
    let count = cursor.take_u32().map_err(garbage)?;
    Ok(Call::Read {
        file,
        offset,
        count,
    })
}

#[tactic(auto, unfolding(crate::specs::Reading::write_at))]
fn write(alloc: Global, cursor: &mut Cursor<'_>) -> Result<Call, ArgsFault>
    ensures { GivesArgs (λ c. (c, cursor.new.rest)) result (write_at cursor.old.rest) }
{
    let file = take_fh(alloc, cursor)?;
    let offset = cursor.take_u64().map_err(garbage)?;
    let count = cursor.take_u32().map_err(garbage)?;
    let stable = take_stable(cursor).map_err(garbage)?;
    let bytes = take_bytes(alloc, cursor)?;
    Ok(Call::Write {
        file,
        offset,
        count,
        stable,
        bytes,
    })
}

#[tactic(auto, unfolding(crate::specs::Reading::create_at))]
fn create(alloc: Global, cursor: &mut Cursor<'_>) -> Result<Call, ArgsFault>
    ensures { GivesArgs (λ c. (c, cursor.new.rest)) result (create_at cursor.old.rest) }
{
    let (dir, name) = take_dir_op(alloc, cursor)?;
    let how = take_create_how(cursor).map_err(garbage)?;
    Ok(Call::Create { dir, name, how })
}

#[tactic(auto, unfolding(crate::specs::Reading::mkdir_at))]
fn mkdir(alloc: Global, cursor: &mut Cursor<'_>) -> Result<Call, ArgsFault>
    ensures { GivesArgs (λ c. (c, cursor.new.rest)) result (mkdir_at cursor.old.rest) }
{
    let (dir, name) = take_dir_op(alloc, cursor)?;
    let attributes = take_sattr(cursor).map_err(garbage)?;
    Ok(Call::Mkdir {
        dir,
        name,
        attributes,
    })
}

#[tactic(auto, unfolding(crate::specs::Reading::symlink_at))]
fn symlink(alloc: Global, cursor: &mut Cursor<'_>) -> Result<Call, ArgsFault>
    ensures { GivesArgs (λ c. (c, cursor.new.rest)) result (symlink_at cursor.old.rest) }
{
    let (dir, name) = take_dir_op(alloc, cursor)?;
    let attributes = take_sattr(cursor).map_err(garbage)?;
    let path = take_bytes(alloc, cursor)?;
    Ok(Call::Symlink {
        dir,
        name,
        attributes,
        path,
    })
}

#[tactic(auto, unfolding(crate::specs::Reading::mknod_at))]
fn mknod(alloc: Global, cursor: &mut Cursor<'_>) -> Result<Call, ArgsFault>
    ensures { GivesArgs (λ c. (c, cursor.new.rest)) result (mknod_at cursor.old.rest) }
{
    let (dir, name) = take_dir_op(alloc, cursor)?;
    let what = take_node_data(cursor).map_err(garbage)?;
    Ok(Call::Mknod { dir, name, what })
}

#[tactic(auto, unfolding(crate::specs::Reading::rename_at))]
fn rename(alloc: Global, cursor: &mut Cursor<'_>) -> Result<Call, ArgsFault>
    ensures { GivesArgs (λ c. (c, cursor.new.rest)) result (rename_at cursor.old.rest) }
{
    let (from, from_name) = take_dir_op(alloc, cursor)?;
    let (to, to_name) = take_dir_op(alloc, cursor)?;
    Ok(Call::Rename {
        from,
        from_name,
        to,
        to_name,
    })
}

#[tactic(auto, unfolding(crate::specs::Reading::link_at))]
fn link(alloc: Global, cursor: &mut Cursor<'_>) -> Result<Call, ArgsFault>
    ensures { GivesArgs (λ c. (c, cursor.new.rest)) result (link_at cursor.old.rest) }
{
    let file = take_fh(alloc, cursor)?;
    let (dir, name) = take_dir_op(alloc, cursor)?;
    Ok(Call::Link { file, dir, name })
}

#[tactic(auto, unfolding(crate::specs::Reading::readdir_at))]
fn readdir(alloc: Global, cursor: &mut Cursor<'_>) -> Result<Call, ArgsFault>
    ensures { GivesArgs (λ c. (c, cursor.new.rest)) result (readdir_at cursor.old.rest) }
{
    let dir = take_fh(alloc, cursor)?;
    let cookie = cursor.take_u64().map_err(garbage)?;
    let cookie_verifier = cursor.take_u64().map_err(garbage)?;
    let count = cursor.take_u32().map_err(garbage)?;
    Ok(Call::Readdir {
        dir,
        cookie,
        cookie_verifier,
        count,
    })
}

#[tactic(auto, unfolding(crate::specs::Reading::readdirplus_at))]
fn readdirplus(alloc: Global, cursor: &mut Cursor<'_>) -> Result<Call, ArgsFault>
    ensures { GivesArgs (λ c. (c, cursor.new.rest)) result (readdirplus_at cursor.old.rest) }
{
    let dir = take_fh(alloc, cursor)?;
    let cookie = cursor.take_u64().map_err(garbage)?;
    let cookie_verifier = cursor.take_u64().map_err(garbage)?;
    let dircount = cursor.take_u32().map_err(garbage)?;
    let maxcount = cursor.take_u32().map_err(garbage)?;
    Ok(Call::Readdirplus {
        dir,
        cookie,
        cookie_verifier,
        dircount,
        maxcount,
    })
}

#[tactic(auto, unfolding(crate::specs::Reading::commit_at))]
fn commit(alloc: Global, cursor: &mut Cursor<'_>) -> Result<Call, ArgsFault>
    ensures { GivesArgs (λ c. (c, cursor.new.rest)) result (commit_at cursor.old.rest) }
{
    let file = take_fh(alloc, cursor)?;
    let offset = cursor.take_u64().map_err(garbage)?;
    let count = cursor.take_u32().map_err(garbage)?;
    Ok(Call::Commit {
        file,
        offset,
        count,
    })
}

#[tactic(auto, unfolding(crate::specs::Reading::args_at))]
fn take_args(alloc: Global, procedure: u32, cursor: &mut Cursor<'_>) -> Result<Call, ArgsFault>
    ensures { GivesArgs (λ c. (c, cursor.new.rest)) result (args_at procedure cursor.old.rest) }
{
    match procedure {
        0 => Ok(Call::Null),
        1 => take_fh(alloc, cursor).map(|object| Call::Getattr { object }),
        2 => setattr(alloc, cursor),
        3 => take_dir_op(alloc, cursor).map(|(dir, name)| Call::Lookup { dir, name }),
        4 => access(alloc, cursor),
        5 => take_fh(alloc, cursor).map(|link| Call::Readlink { link }),
        6 => read(alloc, cursor),
        7 => write(alloc, cursor),
        8 => create(alloc, cursor),
        9 => mkdir(alloc, cursor),
        10 => symlink(alloc, cursor),
        11 => mknod(alloc, cursor),
        12 => take_dir_op(alloc, cursor).map(|(dir, name)| Call::Remove { dir, name }),
        13 => take_dir_op(alloc, cursor).map(|(dir, name)| Call::Rmdir { dir, name }),
        14 => rename(alloc, cursor),
        15 => link(alloc, cursor),
        16 => readdir(alloc, cursor),
        17 => readdirplus(alloc, cursor),
        18 => take_fh(alloc, cursor).map(|object| Call::Fsstat { object }),
        19 => take_fh(alloc, cursor).map(|object| Call::Fsinfo { object }),
        20 => take_fh(alloc, cursor).map(|object| Call::Pathconf { object }),
        21 => commit(alloc, cursor),
        _ => Err(ArgsFault::Garbage),
    }
}

/// The call whose arguments stand at the front of the bytes, of the procedure of this number (RFC 1813, section 3.3).
/// Padding may be any bytes, and any bytes may follow.
pub fn read_args(alloc: Global, procedure: u32, bytes: &[u8]) -> Result<Call, ArgsFault>
    ensures found { IfOk result (λ call. BeginsWithArgs procedure call bytes.now) }
    // No other call's arguments stand there.
    ensures only { IfOk result (λ call. (other : Call) → BeginsWithArgs procedure other bytes.now → other ≡ call) }
    // It can be written.
    ensures short { IfOk result FitsLengths }
    ensures garbage { result ≡ Err Garbage → (call : Call) → BeginsWithArgs procedure call bytes.now → ⊥ }
{
    let mut cursor = Cursor::new(bytes);
    take_args(alloc, procedure, &mut cursor)
}
