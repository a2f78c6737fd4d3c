//! The results of each procedure at the place of a cursor.
ghost use Rattle.sl_items.specs.Reading.{GivesArgs, fattr_at};
ghost use Rattle.sl_defs.specs.Parts.{void_at};
ghost use Rattle.sl_defs.specs.Items.{Gives};
ghost use Rattle.sl_replies.specs.Reading.{access_ok_at, attr_fault_at, commit_ok_at, fsinfo_ok_at, fsstat_ok_at, lookup_ok_at, make_ok_at, pathconf_ok_at, read_ok_at, readdir_ok_at, readdirplus_ok_at, readlink_ok_at, result_at, wcc_fault_at, write_ok_at};

use crate::entries::{take_entries, take_entries_plus};
use crate::parts::{garbage, take_attr_fault, take_status, take_wcc, take_wcc_fault};
use sl_items::{
    take_bytes, take_fattr, take_fh, take_optional_fattr, take_optional_fh, take_stable, take_time,
};
use sl_types::{
    AccessOk, ArgsFault, AttrFault, CommitOk, Fattr, FsinfoOk, FsstatOk, LookupOk, MakeOk,
    PathconfOk, ReadOk, ReaddirOk, ReaddirplusOk, ReadlinkOk, Status, WccFault, WriteOk,
};
use sl_xdr::{Cursor, Short};
use std::alloc::Global;

/// The result of GETATTR.
#[tactic(auto, unfolding(crate::specs::Reading::result_at))]
pub fn take_getattr(cursor: &mut Cursor<'_>) -> Result<Result<Fattr, Status>, Short>
    ensures exact { Gives (λ r. (r, cursor.new.rest)) result (result_at fattr_at void_at cursor.old.rest) }
{
    let status = take_status(cursor)?;
    if !status.is_ok() {
        return Ok(Err(status));
    }
    let attributes = take_fattr(cursor)?;
    Ok(Ok(attributes))
}

/// The result of LOOKUP.
#[tactic(auto, unfolding(crate::specs::Reading::result_at, crate::specs::Reading::lookup_ok_at))]
pub fn take_lookup(
    alloc: Global,
    cursor: &mut Cursor<'_>,
) -> Result<Result<LookupOk, AttrFault>, ArgsFault>
    ensures exact { GivesArgs (λ r. (r, cursor.new.rest)) result (result_at lookup_ok_at attr_fault_at cursor.old.rest) }
{
    let status = take_status(cursor).map_err(garbage)?;
    if !status.is_ok() {
        let fault = take_attr_fault(status, cursor).map_err(garbage)?;
        return Ok(Err(fault));
    }
    let object = take_fh(alloc, cursor)?;
    let attributes = take_optional_fattr(cursor).map_err(garbage)?;
    let dir_attributes = take_optional_fattr(cursor).map_err(garbage)?;
    Ok(Ok(LookupOk {
        object,
        attributes,
        dir_attributes,
    }))
}

/// The result of ACCESS.
#[tactic(auto, unfolding(crate::specs::Reading::result_at, crate::specs::Reading::access_ok_at))]
pub fn take_access(cursor: &mut Cursor<'_>) -> Result<Result<AccessOk, AttrFault>, Short>
    ensures exact { Gives (λ r. (r, cursor.new.rest)) result (result_at access_ok_at attr_fault_at cursor.old.rest) }
{
    let status = take_status(cursor)?;
    if !status.is_ok() {
        let fault = take_attr_fault(status, cursor)?;
        return Ok(Err(fault));
    }
    let attributes = take_optional_fattr(cursor)?;
    let bits = cursor.take_u32()?;
    Ok(Ok(AccessOk { attributes, bits }))
}

/// The result of READLINK.
#[tactic(auto, unfolding(crate::specs::Reading::result_at, crate::specs::Reading::readlink_ok_at))]
pub fn take_readlink(
    alloc: Global,
    cursor: &mut Cursor<'_>,
) -> Result<Result<ReadlinkOk, AttrFault>, ArgsFault>
    ensures exact { GivesArgs (λ r. (r, cursor.new.rest)) result (result_at readlink_ok_at attr_fault_at cursor.old.rest) }
{
    let status = take_status(cursor).map_err(garbage)?;
    if !status.is_ok() {
        let fault = take_attr_fault(status, cursor).map_err(garbage)?;
        return Ok(Err(fault));
    }
    let attributes = take_optional_fattr(cursor).map_err(garbage)?;
    let path = take_bytes(alloc, cursor)?;
    Ok(Ok(ReadlinkOk { attributes, path }))
}

/// The result of READ.
#[tactic(auto, unfolding(crate::specs::Reading::result_at, crate::specs::Reading::read_ok_at))]
pub fn take_read(
    alloc: Global,
    cursor: &mut Cursor<'_>,
) -> Result<Result<ReadOk, AttrFault>, ArgsFault>
    ensures exact { GivesArgs (λ r. (r, cursor.new.rest)) result (result_at read_ok_at attr_fault_at cursor.old.rest) }
{
    let status = take_status(cursor).map_err(garbage)?;
    if !status.is_ok() {
        let fault = take_attr_fault(status, cursor).map_err(garbage)?;
        return Ok(Err(fault));
    }
    let attributes = take_optional_fattr(cursor).map_err(garbage)?;
    let count = cursor.take_u32().map_err(garbage)?;
    let eof = cursor.flag().map_err(garbage)?;
    let bytes = take_bytes(alloc, cursor)?;
    Ok(Ok(ReadOk {
        attributes,
        count,
        eof,
        bytes,
    }))
}

/// The result of WRITE.
#[tactic(auto, unfolding(crate::specs::Reading::result_at, crate::specs::Reading::write_ok_at))]
pub fn take_write(cursor: &mut Cursor<'_>) -> Result<Result<WriteOk, WccFault>, Short>
    ensures exact { Gives (λ r. (r, cursor.new.rest)) result (result_at write_ok_at wcc_fault_at cursor.old.rest) }
{
    let status = take_status(cursor)?;
    if !status.is_ok() {
        let fault = take_wcc_fault(status, cursor)?;
        return Ok(Err(fault));
    }
    let wcc = take_wcc(cursor)?;
    let count = cursor.take_u32()?;
    let committed = take_stable(cursor)?;
    let verifier = cursor.take_u64()?;
    Ok(Ok(WriteOk {
        wcc,
        count,
        committed,
        verifier,
    }))
}

/// The result of CREATE, MKDIR, SYMLINK and MKNOD.
#[tactic(auto, unfolding(crate::specs::Reading::result_at, crate::specs::Reading::make_ok_at))]
pub fn take_made(
    alloc: Global,
    cursor: &mut Cursor<'_>,
) -> Result<Result<MakeOk, WccFault>, ArgsFault>
    ensures exact { GivesArgs (λ r. (r, cursor.new.rest)) result (result_at make_ok_at wcc_fault_at cursor.old.rest) }
{
    let status = take_status(cursor).map_err(garbage)?;
    if !status.is_ok() {
        let fault = take_wcc_fault(status, cursor).map_err(garbage)?;
        return Ok(Err(fault));
    }
    let object = take_optional_fh(alloc, cursor)?;
    let attributes = take_optional_fattr(cursor).map_err(garbage)?;
    let wcc = take_wcc(cursor).map_err(garbage)?;
    Ok(Ok(MakeOk {
        object,
        attributes,
        wcc,
    }))
}

/// The result of READDIR, with fewer entries than most.
#[tactic(auto, unfolding(crate::specs::Reading::result_at, crate::specs::Reading::readdir_ok_at))]
pub fn take_readdir(
    alloc: Global,
    most: usize,
    cursor: &mut Cursor<'_>,
) -> Result<Result<ReaddirOk, AttrFault>, ArgsFault>
    ensures exact { GivesArgs (λ r. (r, cursor.new.rest)) result (result_at (readdir_ok_at most) attr_fault_at cursor.old.rest) }
{
    let status = take_status(cursor).map_err(garbage)?;
    if !status.is_ok() {
        let fault = take_attr_fault(status, cursor).map_err(garbage)?;
        return Ok(Err(fault));
    }
    let attributes = take_optional_fattr(cursor).map_err(garbage)?;
    let cookie_verifier = cursor.take_u64().map_err(garbage)?;
    let entries = take_entries(alloc, most, cursor)?;
    let eof = cursor.flag().map_err(garbage)?;
    Ok(Ok(ReaddirOk {
        attributes,
        cookie_verifier,
        entries,
        eof,
    }))
}

/// The result of READDIRPLUS, with fewer entries than most.
#[tactic(auto, unfolding(crate::specs::Reading::result_at, crate::specs::Reading::readdirplus_ok_at))]
pub fn take_readdirplus(
    alloc: Global,
    most: usize,
    cursor: &mut Cursor<'_>,
) -> Result<Result<ReaddirplusOk, AttrFault>, ArgsFault>
    ensures exact { GivesArgs (λ r. (r, cursor.new.rest)) result (result_at (readdirplus_ok_at most) attr_fault_at cursor.old.rest) }
{
    let status = take_status(cursor).map_err(garbage)?;
    if !status.is_ok() {
        let fault = take_attr_fault(status, cursor).map_err(garbage)?;
        return Ok(Err(fault));
    }
    let attributes = take_optional_fattr(cursor).map_err(garbage)?;
    let cookie_verifier = cursor.take_u64().map_err(garbage)?;
    let entries = take_entries_plus(alloc, most, cursor)?;
    let eof = cursor.flag().map_err(garbage)?;
    Ok(Ok(ReaddirplusOk {
        attributes,
        cookie_verifier,
        entries,
        eof,
    }))
}

/// The result of FSSTAT.
#[tactic(auto, unfolding(crate::specs::Reading::result_at, crate::specs::Reading::fsstat_ok_at))]
pub fn take_fsstat(cursor: &mut Cursor<'_>) -> Result<Result<FsstatOk, AttrFault>, Short>
    ensures exact { Gives (λ r. (r, cursor.new.rest)) result (result_at fsstat_ok_at attr_fault_at cursor.old.rest) }
{
    let status = take_status(cursor)?;
    if !status.is_ok() {
        let fault = take_attr_fault(status, cursor)?;
        return Ok(Err(fault));
    }
    let attributes = take_optional_fattr(cursor)?;
    let total_bytes = cursor.take_u64()?;
    let free_bytes = cursor.take_u64()?;
    let available_bytes = cursor.take_u64()?;
    let total_files = cursor.take_u64()?;
    let free_files = cursor.take_u64()?;
    let available_files = cursor.take_u64()?;
    let invariant_seconds = cursor.take_u32()?;
    Ok(Ok(FsstatOk {
        attributes,
        total_bytes,
        free_bytes,
        available_bytes,
        total_files,
        free_files,
        available_files,
        invariant_seconds,
    }))
}

/// The result of FSINFO.
#[tactic(auto, unfolding(crate::specs::Reading::result_at, crate::specs::Reading::fsinfo_ok_at))]
pub fn take_fsinfo(cursor: &mut Cursor<'_>) -> Result<Result<FsinfoOk, AttrFault>, Short>
    ensures exact { Gives (λ r. (r, cursor.new.rest)) result (result_at fsinfo_ok_at attr_fault_at cursor.old.rest) }
{
    let status = take_status(cursor)?;
    if !status.is_ok() {
        let fault = take_attr_fault(status, cursor)?;
        return Ok(Err(fault));
    }
    let attributes = take_optional_fattr(cursor)?;
    let read_max = cursor.take_u32()?;
    let read_preferred = cursor.take_u32()?;
    let read_multiple = cursor.take_u32()?;
    let write_max = cursor.take_u32()?;
    let write_preferred = cursor.take_u32()?;
    let write_multiple = cursor.take_u32()?;
    let readdir_preferred = cursor.take_u32()?;
    let max_file_size = cursor.take_u64()?;
    let time_delta = take_time(cursor)?;
    let properties = cursor.take_u32()?;
    Ok(Ok(FsinfoOk {
        attributes,
        read_max,
        read_preferred,
        read_multiple,
        write_max,
        write_preferred,
        write_multiple,
        readdir_preferred,
        max_file_size,
        time_delta,
        properties,
    }))
}

/// The result of PATHCONF.
#[tactic(auto, unfolding(crate::specs::Reading::result_at, crate::specs::Reading::pathconf_ok_at))]
pub fn take_pathconf(cursor: &mut Cursor<'_>) -> Result<Result<PathconfOk, AttrFault>, Short>
    ensures exact { Gives (λ r. (r, cursor.new.rest)) result (result_at pathconf_ok_at attr_fault_at cursor.old.rest) }
{
    let status = take_status(cursor)?;
    if !status.is_ok() {
        let fault = take_attr_fault(status, cursor)?;
        return Ok(Err(fault));
    }
    let attributes = take_optional_fattr(cursor)?;
    let link_max = cursor.take_u32()?;
    let name_max = cursor.take_u32()?;
    let no_trunc = cursor.flag()?;
    let chown_restricted = cursor.flag()?;
    let case_insensitive = cursor.flag()?;
    let case_preserving = cursor.flag()?;
    Ok(Ok(PathconfOk {
        attributes,
        link_max,
        name_max,
        no_trunc,
        chown_restricted,
        case_insensitive,
        case_preserving,
    }))
}

/// The result of COMMIT.
#[tactic(auto, unfolding(crate::specs::Reading::result_at, crate::specs::Reading::commit_ok_at))]
pub fn take_commit(cursor: &mut Cursor<'_>) -> Result<Result<CommitOk, WccFault>, Short>
    ensures exact { Gives (λ r. (r, cursor.new.rest)) result (result_at commit_ok_at wcc_fault_at cursor.old.rest) }
{
    let status = take_status(cursor)?;
    if !status.is_ok() {
        let fault = take_wcc_fault(status, cursor)?;
        return Ok(Err(fault));
    }
    let wcc = take_wcc(cursor)?;
    let verifier = cursor.take_u64()?;
    Ok(Ok(CommitOk { wcc, verifier }))
}
