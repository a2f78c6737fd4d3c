//! Whether results can be read, without taking memory for them.
ghost use Rattle.std.specs.Prelude.{◌≡◌, is_some, true, false};
ghost use Rattle.sl_defs.specs.Items.{Gives};
ghost use Rattle.sl_defs.specs.Parts.{◌⊗◌, optional_at};
ghost use Rattle.sl_items.specs.Reading.{fh_at};
ghost use Rattle.sl_items.specs.Skipping.{behind};
ghost use Rattle.sl_replies.specs.Reading.{attr_fault_at, entry_at, entry_plus_at, link_at, list_at, lookup_ok_at, make_ok_at, read_ok_at, readdir_ok_at, readdirplus_ok_at, readlink_ok_at, rename_at, reply_at, reply_of, result_at, status_at, wcc_at, wcc_fault_at};
ghost use Rattle.sl_replies.specs.Results.{IsReplyTo};
ghost use Rattle.sl_types.specs.declared.reply.Reply.{Reply};

use crate::parts::{take_attr_fault, take_status, take_wcc, take_wcc_fault};
use crate::results::{
    take_access, take_commit, take_fsinfo, take_fsstat, take_getattr, take_pathconf, take_write,
};
use sl_items::{borrow_bytes, borrow_fh, take_optional_fattr};
use sl_xdr::{Cursor, Short};

/// A handle that may be absent.
#[tactic(auto, unfolding(sl_defs::specs::Parts::optional_at, sl_defs::specs::Parts::part_at))]
fn skip_optional_fh(cursor: &mut Cursor<'_>) -> Result<(), Short>
    ensures { Gives (λ _. cursor.new.rest) result (behind (optional_at fh_at cursor.old.rest)) }
{
    match cursor.take_u32()? {
        0 => Ok(()),
        1 => {
            borrow_fh(cursor)?;
            Ok(())
        }
        _ => Err(Short),
    }
}

/// A status and weak cache consistency data, the whole results of three procedures.
fn skip_changed(cursor: &mut Cursor<'_>) -> Result<(), Short>
    ensures { Gives (λ _. cursor.new.rest) result (behind ((status_at ⊗ wcc_at) cursor.old.rest)) }
{
    take_status(cursor)?;
    take_wcc(cursor)?;
    Ok(())
}

#[tactic(auto, unfolding(crate::specs::Reading::rename_at))]
fn skip_rename(cursor: &mut Cursor<'_>) -> Result<(), Short>
    ensures { Gives (λ _. cursor.new.rest) result (behind (rename_at cursor.old.rest)) }
{
    take_status(cursor)?;
    take_wcc(cursor)?;
    take_wcc(cursor)?;
    Ok(())
}

#[tactic(auto, unfolding(crate::specs::Reading::link_at))]
fn skip_link(cursor: &mut Cursor<'_>) -> Result<(), Short>
    ensures { Gives (λ _. cursor.new.rest) result (behind (link_at cursor.old.rest)) }
{
    take_status(cursor)?;
    take_optional_fattr(cursor)?;
    take_wcc(cursor)?;
    Ok(())
}

#[tactic(auto, unfolding(crate::specs::Reading::result_at, crate::specs::Reading::lookup_ok_at))]
fn skip_lookup(cursor: &mut Cursor<'_>) -> Result<(), Short>
    ensures { Gives (λ _. cursor.new.rest) result (behind (result_at lookup_ok_at attr_fault_at cursor.old.rest)) }
{
    let status = take_status(cursor)?;
    if !status.is_ok() {
        take_attr_fault(status, cursor)?;
        return Ok(());
    }
    borrow_fh(cursor)?;
    take_optional_fattr(cursor)?;
    take_optional_fattr(cursor)?;
    Ok(())
}

#[tactic(auto, unfolding(crate::specs::Reading::result_at, crate::specs::Reading::readlink_ok_at))]
fn skip_readlink(cursor: &mut Cursor<'_>) -> Result<(), Short>
    ensures { Gives (λ _. cursor.new.rest) result (behind (result_at readlink_ok_at attr_fault_at cursor.old.rest)) }
{
    let status = take_status(cursor)?;
    if !status.is_ok() {
        take_attr_fault(status, cursor)?;
        return Ok(());
    }
    take_optional_fattr(cursor)?;
    borrow_bytes(cursor)?;
    Ok(())
}

#[tactic(auto, unfolding(crate::specs::Reading::result_at, crate::specs::Reading::read_ok_at))]
fn skip_read(cursor: &mut Cursor<'_>) -> Result<(), Short>
    ensures { Gives (λ _. cursor.new.rest) result (behind (result_at read_ok_at attr_fault_at cursor.old.rest)) }
{
    let status = take_status(cursor)?;
    if !status.is_ok() {
        take_attr_fault(status, cursor)?;
        return Ok(());
    }
    take_optional_fattr(cursor)?;
    cursor.take_u32()?;
    cursor.flag()?;
    borrow_bytes(cursor)?;
    Ok(())
}

/// The result of CREATE, MKDIR, SYMLINK and MKNOD.
#[tactic(auto, unfolding(crate::specs::Reading::result_at, crate::specs::Reading::make_ok_at))]
fn skip_made(cursor: &mut Cursor<'_>) -> Result<(), Short>
    ensures { Gives (λ _. cursor.new.rest) result (behind (result_at make_ok_at wcc_fault_at cursor.old.rest)) }
{
    let status = take_status(cursor)?;
    if !status.is_ok() {
        take_wcc_fault(status, cursor)?;
        return Ok(());
    }
    skip_optional_fh(cursor)?;
    take_optional_fattr(cursor)?;
    take_wcc(cursor)?;
    Ok(())
}

#[tactic(auto, unfolding(crate::specs::Reading::entry_at))]
fn skip_entry(cursor: &mut Cursor<'_>) -> Result<(), Short>
    ensures { Gives (λ _. cursor.new.rest) result (behind (entry_at cursor.old.rest)) }
{
    cursor.take_u64()?;
    borrow_bytes(cursor)?;
    cursor.take_u64()?;
    Ok(())
}

#[tactic(auto, unfolding(crate::specs::Reading::entry_plus_at))]
fn skip_entry_plus(cursor: &mut Cursor<'_>) -> Result<(), Short>
    ensures { Gives (λ _. cursor.new.rest) result (behind (entry_plus_at cursor.old.rest)) }
{
    cursor.take_u64()?;
    borrow_bytes(cursor)?;
    cursor.take_u64()?;
    take_optional_fattr(cursor)?;
    skip_optional_fh(cursor)?;
    Ok(())
}

/// The entries of READDIR, fewer than most.
fn skip_entries(most: usize, cursor: &mut Cursor<'_>) -> Result<(), Short>
    ensures { Gives (λ _. cursor.new.rest) result (behind (list_at entry_at most cursor.old.rest)) }
{
    for _i in 0..most {
        if !cursor.flag()? {
            return Ok(());
        }
        skip_entry(cursor)?;
    }
    Err(Short)
}

/// The entries of READDIRPLUS, fewer than most.
fn skip_entries_plus(most: usize, cursor: &mut Cursor<'_>) -> Result<(), Short>
    ensures { Gives (λ _. cursor.new.rest) result (behind (list_at entry_plus_at most cursor.old.rest)) }
{
    for _i in 0..most {
        if !cursor.flag()? {
            return Ok(());
        }
        skip_entry_plus(cursor)?;
    }
    Err(Short)
}

/// The result of READDIR, with fewer entries than most.
#[tactic(auto, unfolding(crate::specs::Reading::result_at, crate::specs::Reading::readdir_ok_at))]
fn skip_readdir(most: usize, cursor: &mut Cursor<'_>) -> Result<(), Short>
    ensures { Gives (λ _. cursor.new.rest) result (behind (result_at (readdir_ok_at most) attr_fault_at cursor.old.rest)) }
{
    let status = take_status(cursor)?;
    if !status.is_ok() {
        take_attr_fault(status, cursor)?;
        return Ok(());
    }
    take_optional_fattr(cursor)?;
    cursor.take_u64()?;
    skip_entries(most, cursor)?;
    cursor.flag()?;
    Ok(())
}

/// The result of READDIRPLUS, with fewer entries than most.
#[tactic(auto, unfolding(crate::specs::Reading::result_at, crate::specs::Reading::readdirplus_ok_at))]
fn skip_readdirplus(most: usize, cursor: &mut Cursor<'_>) -> Result<(), Short>
    ensures { Gives (λ _. cursor.new.rest) result (behind (result_at (readdirplus_ok_at most) attr_fault_at cursor.old.rest)) }
{
    let status = take_status(cursor)?;
    if !status.is_ok() {
        take_attr_fault(status, cursor)?;
        return Ok(());
    }
    take_optional_fattr(cursor)?;
    cursor.take_u64()?;
    skip_entries_plus(most, cursor)?;
    cursor.flag()?;
    Ok(())
}

/// The results of a reply to this procedure. A list has fewer entries than most.
#[tactic(auto, unfolding(crate::specs::Reading::reply_at))]
fn skip_results(procedure: u32, most: usize, cursor: &mut Cursor<'_>) -> Result<(), Short>
    ensures { Gives (λ _. cursor.new.rest) result (behind (reply_at procedure most cursor.old.rest)) }
{
    match procedure {
        0 => Ok(()),
        1 => take_getattr(cursor).map(|_| ()),
        2 | 12 | 13 => skip_changed(cursor),
        3 => skip_lookup(cursor),
        4 => take_access(cursor).map(|_| ()),
        5 => skip_readlink(cursor),
        6 => skip_read(cursor),
        7 => take_write(cursor).map(|_| ()),
        8 | 9 | 10 | 11 => skip_made(cursor),
        14 => skip_rename(cursor),
        15 => skip_link(cursor),
        16 => skip_readdir(most, cursor),
        17 => skip_readdirplus(most, cursor),
        18 => take_fsstat(cursor).map(|_| ()),
        19 => take_fsinfo(cursor).map(|_| ()),
        20 => take_pathconf(cursor).map(|_| ()),
        21 => take_commit(cursor).map(|_| ()),
        _ => Err(Short),
    }
}

/// Whether results of this procedure are there, and nothing behind them.
#[tactic(auto, unfolding(crate::specs::Reading::reply_of))]
fn skips_all(procedure: u32, bytes: &[u8]) -> bool
    ensures { result ≡ is_some (reply_of procedure bytes.now) }
{
    let mut cursor = Cursor::new(bytes);
    skip_results(procedure, bytes.len(), &mut cursor).is_ok() && cursor.rest().is_empty()
}

/// Whether the whole bytes are the results of a reply to this procedure (RFC 1813, section 3.3). It takes no memory.
pub fn is_reply(procedure: u32, bytes: &[u8]) -> bool
    ensures exact { result ≡ is_some (reply_of procedure bytes.now) }
    ensures found { result ≡ true → (reply : Reply) × IsReplyTo procedure reply bytes.now }
    ensures garbage { result ≡ false → (reply : Reply) → IsReplyTo procedure reply bytes.now → ⊥ }
{
    skips_all(procedure, bytes)
}
