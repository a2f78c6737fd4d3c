//! Whether arguments can be read, without taking memory for them.
ghost use Rattle.std.specs.Prelude.{◌≡◌, is_some, true, false};
ghost use Rattle.sl_defs.specs.Items.{Gives};
ghost use Rattle.sl_items.specs.Reading.{fh_at};
ghost use Rattle.sl_items.specs.Skipping.{behind};
ghost use Rattle.sl_types.specs.declared.call.Call.{Call};
ghost use Rattle.sl_calls.specs.Args.{BeginsWithArgs};
ghost use Rattle.sl_calls.specs.Reading.{access_at, args_at, commit_at, create_at, dir_op_at, link_at, mkdir_at, mknod_at, read_at, readdir_at, readdirplus_at, rename_at, setattr_at, symlink_at, write_at};

use crate::parts::{take_create_how, take_node_data};
use sl_items::{borrow_bytes, borrow_fh, take_optional_time, take_sattr, take_stable};
use sl_xdr::{Cursor, Short};

/// The handle of a directory and a name in it, as they stand there.
#[tactic(auto, unfolding(crate::specs::Reading::dir_op_at))]
fn borrow_dir_op<'a>(cursor: &mut Cursor<'a>) -> Result<(&'a [u8], &'a [u8]), Short>
    ensures { Gives (λ d. ((d.0.now, d.1.now), cursor.new.rest)) result (dir_op_at cursor.old.rest) }
{
    let dir = borrow_fh(cursor)?;
    let name = borrow_bytes(cursor)?;
    Ok((dir, name))
}

/// A handle, the whole arguments of five procedures.
fn skip_object(cursor: &mut Cursor<'_>) -> Result<(), Short>
    ensures { Gives (λ _. cursor.new.rest) result (behind (fh_at cursor.old.rest)) }
{
    borrow_fh(cursor)?;
    Ok(())
}

#[tactic(auto, unfolding(crate::specs::Reading::setattr_at))]
fn skip_setattr(cursor: &mut Cursor<'_>) -> Result<(), Short>
    ensures { Gives (λ _. cursor.new.rest) result (behind (setattr_at cursor.old.rest)) }
{
    borrow_fh(cursor)?;
    take_sattr(cursor)?;
    take_optional_time(cursor)?;
    Ok(())
}

/// A directory and a name, the whole arguments of three procedures.
fn skip_dir_op(cursor: &mut Cursor<'_>) -> Result<(), Short>
    ensures { Gives (λ _. cursor.new.rest) result (behind (dir_op_at cursor.old.rest)) }
{
    borrow_dir_op(cursor)?;
    Ok(())
}

#[tactic(auto, unfolding(crate::specs::Reading::access_at))]
fn skip_access(cursor: &mut Cursor<'_>) -> Result<(), Short>
    ensures { Gives (λ _. cursor.new.rest) result (behind (access_at cursor.old.rest)) }
{
    borrow_fh(cursor)?;
    cursor.take_u32()?;
    Ok(())
}

/// A file, and where in it and how much: the arguments of READ and COMMIT.
#[tactic(auto, unfolding(crate::specs::Reading::read_at, crate::specs::Reading::commit_at))]
fn skip_span(cursor: &mut Cursor<'_>) -> Result<(), Short>
    ensures read { Gives (λ _. cursor.new.rest) result (behind (read_at cursor.old.rest)) }
    ensures commit { Gives (λ _. cursor.new.rest) result (behind (commit_at cursor.old.rest)) }
{
    borrow_fh(cursor)?;
    cursor.take_u64()?;
    cursor.take_u32()?;
    Ok(())
}

#[tactic(auto, unfolding(crate::specs::Reading::write_at))]
fn skip_write(cursor: &mut Cursor<'_>) -> Result<(), Short>
    ensures { Gives (λ _. cursor.new.rest) result (behind (write_at cursor.old.rest)) }
{
    borrow_fh(cursor)?;
    cursor.take_u64()?;
    cursor.take_u32()?;
    take_stable(cursor)?;
    borrow_bytes(cursor)?;
    Ok(())
}

#[tactic(auto, unfolding(crate::specs::Reading::create_at))]
fn skip_create(cursor: &mut Cursor<'_>) -> Result<(), Short>
    ensures { Gives (λ _. cursor.new.rest) result (behind (create_at cursor.old.rest)) }
{
    borrow_dir_op(cursor)?;
    take_create_how(cursor)?;
    Ok(())
}

#[tactic(auto, unfolding(crate::specs::Reading::mkdir_at))]
fn skip_mkdir(cursor: &mut Cursor<'_>) -> Result<(), Short>
    ensures { Gives (λ _. cursor.new.rest) result (behind (mkdir_at cursor.old.rest)) }
{
    borrow_dir_op(cursor)?;
    take_sattr(cursor)?;
    Ok(())
}

#[tactic(auto, unfolding(crate::specs::Reading::symlink_at))]
fn skip_symlink(cursor: &mut Cursor<'_>) -> Result<(), Short>
    ensures { Gives (λ _. cursor.new.rest) result (behind (symlink_at cursor.old.rest)) }
{
    borrow_dir_op(cursor)?;
    take_sattr(cursor)?;
    borrow_bytes(cursor)?;
    Ok(())
}

#[tactic(auto, unfolding(crate::specs::Reading::mknod_at))]
fn skip_mknod(cursor: &mut Cursor<'_>) -> Result<(), Short>
    ensures { Gives (λ _. cursor.new.rest) result (behind (mknod_at cursor.old.rest)) }
{
    borrow_dir_op(cursor)?;
    take_node_data(cursor)?;
    Ok(())
}

#[tactic(auto, unfolding(crate::specs::Reading::rename_at))]
fn skip_rename(cursor: &mut Cursor<'_>) -> Result<(), Short>
    ensures { Gives (λ _. cursor.new.rest) result (behind (rename_at cursor.old.rest)) }
{
    borrow_dir_op(cursor)?;
    borrow_dir_op(cursor)?;
    Ok(())
}

#[tactic(auto, unfolding(crate::specs::Reading::link_at))]
fn skip_link(cursor: &mut Cursor<'_>) -> Result<(), Short>
    ensures { Gives (λ _. cursor.new.rest) result (behind (link_at cursor.old.rest)) }
{
    borrow_fh(cursor)?;
    borrow_dir_op(cursor)?;
    Ok(())
}

#[tactic(auto, unfolding(crate::specs::Reading::readdir_at))]
fn skip_readdir(cursor: &mut Cursor<'_>) -> Result<(), Short>
    ensures { Gives (λ _. cursor.new.rest) result (behind (readdir_at cursor.old.rest)) }
{
    borrow_fh(cursor)?;
    cursor.take_u64()?;
    cursor.take_u64()?;
    cursor.take_u32()?;
    Ok(())
}

#[tactic(auto, unfolding(crate::specs::Reading::readdirplus_at))]
fn skip_readdirplus(cursor: &mut Cursor<'_>) -> Result<(), Short>
    ensures { Gives (λ _. cursor.new.rest) result (behind (readdirplus_at cursor.old.rest)) }
{
    borrow_fh(cursor)?;
    cursor.take_u64()?;
    cursor.take_u64()?;
    cursor.take_u32()?;
    cursor.take_u32()?;
    Ok(())
}

#[tactic(auto, unfolding(crate::specs::Reading::args_at))]
fn skip_args(procedure: u32, cursor: &mut Cursor<'_>) -> Result<(), Short>
    ensures { Gives (λ _. cursor.new.rest) result (behind (args_at procedure cursor.old.rest)) }
{
    match procedure {
        0 => Ok(()),
        1 | 5 | 18 | 19 | 20 => skip_object(cursor),
        2 => skip_setattr(cursor),
        3 | 12 | 13 => skip_dir_op(cursor),
        4 => skip_access(cursor),
        6 | 21 => skip_span(cursor),
        7 => skip_write(cursor),
        8 => skip_create(cursor),
        9 => skip_mkdir(cursor),
        10 => skip_symlink(cursor),
        11 => skip_mknod(cursor),
        14 => skip_rename(cursor),
        15 => skip_link(cursor),
        16 => skip_readdir(cursor),
        17 => skip_readdirplus(cursor),
        _ => Err(Short),
    }
}

/// Whether the arguments of a call of this procedure stand at the front of the bytes (RFC 1813, section 3.3). It takes
/// no memory.
pub fn has_args(procedure: u32, bytes: &[u8]) -> bool
    ensures exact { result ≡ is_some (args_at procedure bytes.now) }
    ensures found { result ≡ true → (call : Call) × BeginsWithArgs procedure call bytes.now }
    ensures garbage { result ≡ false → (call : Call) → BeginsWithArgs procedure call bytes.now → ⊥ }
{
    let mut cursor = Cursor::new(bytes);
    skip_args(procedure, &mut cursor).is_ok()
}
