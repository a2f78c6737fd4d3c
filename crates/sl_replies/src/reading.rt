ghost use Rattle.std.specs.Prelude.{◌≡◌, Err, IfOk};
ghost use Rattle.sl_defs.specs.Items.{Gives};
ghost use Rattle.sl_items.specs.Reading.{GivesArgs};
ghost use Rattle.sl_replies.specs.Reading.{changed_at, link_at, rename_at, reply_at, reply_of};
ghost use Rattle.sl_replies.specs.Results.{IsReplyTo};
ghost use Rattle.sl_replies.specs.Texts.{FitsReply};
ghost use Rattle.sl_types.specs.declared.reply.Reply.{Reply};
ghost use Rattle.sl_types.specs.declared.reply.Reply.TheVariants as reply;

use crate::parts::{garbage, take_status, take_wcc};
use crate::results::{
    take_access, take_commit, take_fsinfo, take_fsstat, take_getattr, take_lookup, take_made,
    take_pathconf, take_read, take_readdir, take_readdirplus, take_readlink, take_write,
};
use sl_items::take_optional_fattr;
use sl_types::{ArgsFault, Reply};
use sl_xdr::{Cursor, Short};
use std::alloc::Global;

fn take_setattr(cursor: &mut Cursor<'_>) -> Result<Reply, Short>
    ensures exact { Gives (λ r. (r, cursor.new.rest)) result (changed_at reply.Setattr cursor.old.rest) }
{
    let status = take_status(cursor)?;
    let wcc = take_wcc(cursor)?;
    Ok(Reply::Setattr { status, wcc })
}

fn take_remove(cursor: &mut Cursor<'_>) -> Result<Reply, Short>
    ensures exact { Gives (λ r. (r, cursor.new.rest)) result (changed_at reply.Remove cursor.old.rest) }
{
    let status = take_status(cursor)?;
    let wcc = take_wcc(cursor)?;
    Ok(Reply::Remove { status, wcc })
}

fn take_rmdir(cursor: &mut Cursor<'_>) -> Result<Reply, Short>
    ensures exact { Gives (λ r. (r, cursor.new.rest)) result (changed_at reply.Rmdir cursor.old.rest) }
{
    let status = take_status(cursor)?;
    let wcc = take_wcc(cursor)?;
    Ok(Reply::Rmdir { status, wcc })
}

#[tactic(auto, unfolding(crate::specs::Reading::rename_at))]
fn take_rename(cursor: &mut Cursor<'_>) -> Result<Reply, Short>
    ensures exact { Gives (λ r. (r, cursor.new.rest)) result (rename_at cursor.old.rest) }
{
    let status = take_status(cursor)?;
    let from = take_wcc(cursor)?;
    let to = take_wcc(cursor)?;
    Ok(Reply::Rename { status, from, to })
}

#[tactic(auto, unfolding(crate::specs::Reading::link_at))]
fn take_link(cursor: &mut Cursor<'_>) -> Result<Reply, Short>
    ensures exact { Gives (λ r. (r, cursor.new.rest)) result (link_at cursor.old.rest) }
{
    let status = take_status(cursor)?;
    let attributes = take_optional_fattr(cursor)?;
    let wcc = take_wcc(cursor)?;
    Ok(Reply::Link {
        status,
        attributes,
        wcc,
    })
}

/// The results of a reply to this procedure. A list has fewer entries than most.
#[tactic(auto, unfolding(crate::specs::Reading::reply_at))]
fn take_reply(
    alloc: Global,
    procedure: u32,
    most: usize,
    cursor: &mut Cursor<'_>,
) -> Result<Reply, ArgsFault>
    ensures exact { GivesArgs (λ r. (r, cursor.new.rest)) result (reply_at procedure most cursor.old.rest) }
{
    match procedure {
        0 => Ok(Reply::Null),
        1 => Ok(Reply::Getattr(take_getattr(cursor).map_err(garbage)?)),
        2 => take_setattr(cursor).map_err(garbage),
        3 => Ok(Reply::Lookup(take_lookup(alloc, cursor)?)),
        4 => Ok(Reply::Access(take_access(cursor).map_err(garbage)?)),
        5 => Ok(Reply::Readlink(take_readlink(alloc, cursor)?)),
        6 => Ok(Reply::Read(take_read(alloc, cursor)?)),
        7 => Ok(Reply::Write(take_write(cursor).map_err(garbage)?)),
        8 => Ok(Reply::Create(take_made(alloc, cursor)?)),
        9 => Ok(Reply::Mkdir(take_made(alloc, cursor)?)),
        10 => Ok(Reply::Symlink(take_made(alloc, cursor)?)),
        11 => Ok(Reply::Mknod(take_made(alloc, cursor)?)),
        12 => take_remove(cursor).map_err(garbage),
        13 => take_rmdir(cursor).map_err(garbage),
        14 => take_rename(cursor).map_err(garbage),
        15 => take_link(cursor).map_err(garbage),
        16 => Ok(Reply::Readdir(take_readdir(alloc, most, cursor)?)),
        17 => Ok(Reply::Readdirplus(take_readdirplus(alloc, most, cursor)?)),
        18 => Ok(Reply::Fsstat(take_fsstat(cursor).map_err(garbage)?)),
        19 => Ok(Reply::Fsinfo(take_fsinfo(cursor).map_err(garbage)?)),
        20 => Ok(Reply::Pathconf(take_pathconf(cursor).map_err(garbage)?)),
        21 => Ok(Reply::Commit(take_commit(cursor).map_err(garbage)?)),
        _ => Err(ArgsFault::Garbage),
    }
}

#[tactic(auto, unfolding(crate::specs::Reading::reply_of))]
fn read_whole(alloc: Global, procedure: u32, bytes: &[u8]) -> Result<Reply, ArgsFault>
    ensures { GivesArgs (λ r. r) result (reply_of procedure bytes.now) }
{
    let mut cursor = Cursor::new(bytes);
    let reply = take_reply(alloc, procedure, bytes.len(), &mut cursor)?;
    if cursor.rest().is_empty() {
        Ok(reply)
    } else {
        Err(ArgsFault::Garbage)
    }
}

/// The results that the whole bytes spell, of a reply to this procedure.
pub fn read_reply(alloc: Global, procedure: u32, bytes: &[u8]) -> Result<Reply, ArgsFault>
    ensures exact { GivesArgs (λ r. r) result (reply_of procedure bytes.now) }
    ensures found { IfOk result (λ r. IsReplyTo procedure r bytes.now) }
    // It can be written.
    ensures fits { IfOk result FitsReply }
    ensures garbage { result ≡ Err ArgsFault.Garbage → (r : Reply) → IsReplyTo procedure r bytes.now → ⊥ }
{
    read_whole(alloc, procedure, bytes)
}
