//! The results of each procedure at the end of some bytes.
ghost use Rattle.std.specs.Prelude.{◌≡◌, ◌++◌, length, take, OnOk, IfSome, All};
ghost use Rattle.sl_items.specs.Spelling.{FitsBytes, FitsFh, fattr_text};
ghost use Rattle.sl_replies.specs.Texts.{FitsAttrResult, FitsEntry, FitsEntryPlus, FitsWccResult, access_ok_text, attr_fault_text, commit_ok_text, fsinfo_limits_text, fsinfo_ok_text, fsinfo_read_text, fsinfo_write_text, fsstat_bytes_text, fsstat_files_text, fsstat_ok_text, lookup_ok_text, make_ok_text, pathconf_flags_text, pathconf_ok_text, read_ok_text, readdir_ok_text, readdirplus_ok_text, readlink_ok_text, result_text, status_text, wcc_fault_text, write_ok_text};

use crate::put_entries::{put_entries, put_entries_plus};
use crate::put_parts::{put_attr_fault, put_status, put_wcc, put_wcc_fault};
use sl_items::{
    put_bytes, put_fattr, put_fh, put_optional_fattr, put_optional_fh, put_stable, put_time,
};
use sl_types::{
    AccessOk, AttrFault, CommitOk, Fattr, FsinfoOk, FsstatOk, LookupOk, MakeOk, PathconfOk, ReadOk,
    ReaddirOk, ReaddirplusOk, ReadlinkOk, Status, WccFault, WriteOk,
};
use sl_xdr::{NoMemory, put_flag, put_u32, put_u64};

/// Appends the result of GETATTR.
#[tactic(auto, using(sl_items::proofs::Appended::appended))]
pub fn put_getattr(out: &mut Vec<u8>, outcome: &Result<Fattr, Status>) -> Result<(), NoMemory>
    ensures ok { OnOk result (out.new.items ≡ out.old.items ++ result_text fattr_text status_text outcome.now) }
    ensures kept { take (length out.old.items) out.new.items ≡ out.old.items }
{
    match outcome {
        Ok(attributes) => {
            put_status(out, Status::Ok)?;
            put_fattr(out, *attributes)
        }
        Err(status) => put_status(out, *status),
    }
}

#[tactic(auto, using(sl_items::proofs::Appended::appended), unfolding(crate::specs::Texts::lookup_ok_text))]
fn put_lookup_ok(out: &mut Vec<u8>, ok: &LookupOk) -> Result<(), NoMemory>
    requires { FitsFh ok.now.object }
    ensures ok { OnOk result (out.new.items ≡ out.old.items ++ lookup_ok_text ok.now) }
    ensures kept { take (length out.old.items) out.new.items ≡ out.old.items }
{
    put_fh(out, &ok.object)?;
    put_optional_fattr(out, ok.attributes)?;
    put_optional_fattr(out, ok.dir_attributes)?;
    Ok(())
}

/// Appends the result of LOOKUP.
#[tactic(auto, using(sl_items::proofs::Appended::appended))]
pub fn put_lookup(out: &mut Vec<u8>, outcome: &Result<LookupOk, AttrFault>) -> Result<(), NoMemory>
    requires { FitsAttrResult (λ ok. FitsFh ok.object) outcome.now }
    ensures ok { OnOk result (out.new.items ≡ out.old.items ++ result_text lookup_ok_text attr_fault_text outcome.now) }
    ensures kept { take (length out.old.items) out.new.items ≡ out.old.items }
{
    match outcome {
        Ok(ok) => {
            put_status(out, Status::Ok)?;
            put_lookup_ok(out, ok)
        }
        Err(fault) => put_attr_fault(out, *fault),
    }
}

#[tactic(auto, using(sl_items::proofs::Appended::appended), unfolding(crate::specs::Texts::access_ok_text))]
fn put_access_ok(out: &mut Vec<u8>, ok: &AccessOk) -> Result<(), NoMemory>
    ensures ok { OnOk result (out.new.items ≡ out.old.items ++ access_ok_text ok.now) }
    ensures kept { take (length out.old.items) out.new.items ≡ out.old.items }
{
    put_optional_fattr(out, ok.attributes)?;
    put_u32(out, ok.bits)?;
    Ok(())
}

/// Appends the result of ACCESS.
#[tactic(auto, using(sl_items::proofs::Appended::appended))]
pub fn put_access(out: &mut Vec<u8>, outcome: &Result<AccessOk, AttrFault>) -> Result<(), NoMemory>
    ensures ok { OnOk result (out.new.items ≡ out.old.items ++ result_text access_ok_text attr_fault_text outcome.now) }
    ensures kept { take (length out.old.items) out.new.items ≡ out.old.items }
{
    match outcome {
        Ok(ok) => {
            put_status(out, Status::Ok)?;
            put_access_ok(out, ok)
        }
        Err(fault) => put_attr_fault(out, *fault),
    }
}

#[tactic(auto, using(sl_items::proofs::Appended::appended), unfolding(crate::specs::Texts::readlink_ok_text))]
fn put_readlink_ok(out: &mut Vec<u8>, ok: &ReadlinkOk) -> Result<(), NoMemory>
    requires { FitsBytes ok.now.path }
    ensures ok { OnOk result (out.new.items ≡ out.old.items ++ readlink_ok_text ok.now) }
    ensures kept { take (length out.old.items) out.new.items ≡ out.old.items }
{
    put_optional_fattr(out, ok.attributes)?;
    put_bytes(out, &ok.path)?;
    Ok(())
}

/// Appends the result of READLINK.
#[tactic(auto, using(sl_items::proofs::Appended::appended))]
pub fn put_readlink(
    out: &mut Vec<u8>,
    outcome: &Result<ReadlinkOk, AttrFault>,
) -> Result<(), NoMemory>
    requires { FitsAttrResult (λ ok. FitsBytes ok.path) outcome.now }
    ensures ok { OnOk result (out.new.items ≡ out.old.items ++ result_text readlink_ok_text attr_fault_text outcome.now) }
    ensures kept { take (length out.old.items) out.new.items ≡ out.old.items }
{
    match outcome {
        Ok(ok) => {
            put_status(out, Status::Ok)?;
            put_readlink_ok(out, ok)
        }
        Err(fault) => put_attr_fault(out, *fault),
    }
}

#[tactic(auto, using(sl_items::proofs::Appended::appended), unfolding(crate::specs::Texts::read_ok_text))]
fn put_read_ok(out: &mut Vec<u8>, ok: &ReadOk) -> Result<(), NoMemory>
    requires { FitsBytes ok.now.bytes }
    ensures ok { OnOk result (out.new.items ≡ out.old.items ++ read_ok_text ok.now) }
    ensures kept { take (length out.old.items) out.new.items ≡ out.old.items }
{
    put_optional_fattr(out, ok.attributes)?;
    put_u32(out, ok.count)?;
    put_flag(out, ok.eof)?;
    put_bytes(out, &ok.bytes)?;
    Ok(())
}

/// Appends the result of READ.
#[tactic(auto, using(sl_items::proofs::Appended::appended))]
pub fn put_read(out: &mut Vec<u8>, outcome: &Result<ReadOk, AttrFault>) -> Result<(), NoMemory>
    requires { FitsAttrResult (λ ok. FitsBytes ok.bytes) outcome.now }
    ensures ok { OnOk result (out.new.items ≡ out.old.items ++ result_text read_ok_text attr_fault_text outcome.now) }
    ensures kept { take (length out.old.items) out.new.items ≡ out.old.items }
{
    match outcome {
        Ok(ok) => {
            put_status(out, Status::Ok)?;
            put_read_ok(out, ok)
        }
        Err(fault) => put_attr_fault(out, *fault),
    }
}

#[tactic(auto, using(sl_items::proofs::Appended::appended), unfolding(crate::specs::Texts::write_ok_text))]
fn put_write_ok(out: &mut Vec<u8>, ok: &WriteOk) -> Result<(), NoMemory>
    ensures ok { OnOk result (out.new.items ≡ out.old.items ++ write_ok_text ok.now) }
    ensures kept { take (length out.old.items) out.new.items ≡ out.old.items }
{
    put_wcc(out, ok.wcc)?;
    put_u32(out, ok.count)?;
    put_stable(out, ok.committed)?;
    put_u64(out, ok.verifier)?;
    Ok(())
}

/// Appends the result of WRITE.
#[tactic(auto, using(sl_items::proofs::Appended::appended))]
pub fn put_write(out: &mut Vec<u8>, outcome: &Result<WriteOk, WccFault>) -> Result<(), NoMemory>
    ensures ok { OnOk result (out.new.items ≡ out.old.items ++ result_text write_ok_text wcc_fault_text outcome.now) }
    ensures kept { take (length out.old.items) out.new.items ≡ out.old.items }
{
    match outcome {
        Ok(ok) => {
            put_status(out, Status::Ok)?;
            put_write_ok(out, ok)
        }
        Err(fault) => put_wcc_fault(out, *fault),
    }
}

#[tactic(auto, using(sl_items::proofs::Appended::appended), unfolding(crate::specs::Texts::make_ok_text))]
fn put_make_ok(out: &mut Vec<u8>, ok: &MakeOk) -> Result<(), NoMemory>
    requires { IfSome ok.now.object FitsFh }
    ensures ok { OnOk result (out.new.items ≡ out.old.items ++ make_ok_text ok.now) }
    ensures kept { take (length out.old.items) out.new.items ≡ out.old.items }
{
    put_optional_fh(out, &ok.object)?;
    put_optional_fattr(out, ok.attributes)?;
    put_wcc(out, ok.wcc)?;
    Ok(())
}

/// Appends the result of CREATE, MKDIR, SYMLINK and MKNOD.
#[tactic(auto, using(sl_items::proofs::Appended::appended))]
pub fn put_made(out: &mut Vec<u8>, outcome: &Result<MakeOk, WccFault>) -> Result<(), NoMemory>
    requires { FitsWccResult (λ ok. IfSome ok.object FitsFh) outcome.now }
    ensures ok { OnOk result (out.new.items ≡ out.old.items ++ result_text make_ok_text wcc_fault_text outcome.now) }
    ensures kept { take (length out.old.items) out.new.items ≡ out.old.items }
{
    match outcome {
        Ok(ok) => {
            put_status(out, Status::Ok)?;
            put_make_ok(out, ok)
        }
        Err(fault) => put_wcc_fault(out, *fault),
    }
}

#[tactic(auto, using(sl_items::proofs::Appended::appended), unfolding(crate::specs::Texts::readdir_ok_text))]
fn put_readdir_ok(out: &mut Vec<u8>, ok: &ReaddirOk) -> Result<(), NoMemory>
    requires { All FitsEntry ok.now.entries }
    ensures ok { OnOk result (out.new.items ≡ out.old.items ++ readdir_ok_text ok.now) }
    ensures kept { take (length out.old.items) out.new.items ≡ out.old.items }
{
    put_optional_fattr(out, ok.attributes)?;
    put_u64(out, ok.cookie_verifier)?;
    put_entries(out, &ok.entries)?;
    put_flag(out, ok.eof)?;
    Ok(())
}

/// Appends the result of READDIR.
#[tactic(auto, using(sl_items::proofs::Appended::appended))]
pub fn put_readdir(
    out: &mut Vec<u8>,
    outcome: &Result<ReaddirOk, AttrFault>,
) -> Result<(), NoMemory>
    requires { FitsAttrResult (λ ok. All FitsEntry ok.entries) outcome.now }
    ensures ok { OnOk result (out.new.items ≡ out.old.items ++ result_text readdir_ok_text attr_fault_text outcome.now) }
    ensures kept { take (length out.old.items) out.new.items ≡ out.old.items }
{
    match outcome {
        Ok(ok) => {
            put_status(out, Status::Ok)?;
            put_readdir_ok(out, ok)
        }
        Err(fault) => put_attr_fault(out, *fault),
    }
}

#[tactic(auto, using(sl_items::proofs::Appended::appended), unfolding(crate::specs::Texts::readdirplus_ok_text))]
fn put_readdirplus_ok(out: &mut Vec<u8>, ok: &ReaddirplusOk) -> Result<(), NoMemory>
    requires { All FitsEntryPlus ok.now.entries }
    ensures ok { OnOk result (out.new.items ≡ out.old.items ++ readdirplus_ok_text ok.now) }
    ensures kept { take (length out.old.items) out.new.items ≡ out.old.items }
{
    put_optional_fattr(out, ok.attributes)?;
    put_u64(out, ok.cookie_verifier)?;
    put_entries_plus(out, &ok.entries)?;
    put_flag(out, ok.eof)?;
    Ok(())
}

/// Appends the result of READDIRPLUS.
#[tactic(auto, using(sl_items::proofs::Appended::appended))]
pub fn put_readdirplus(
    out: &mut Vec<u8>,
    outcome: &Result<ReaddirplusOk, AttrFault>,
) -> Result<(), NoMemory>
    requires { FitsAttrResult (λ ok. All FitsEntryPlus ok.entries) outcome.now }
    ensures ok { OnOk result (out.new.items ≡ out.old.items ++ result_text readdirplus_ok_text attr_fault_text outcome.now) }
    ensures kept { take (length out.old.items) out.new.items ≡ out.old.items }
{
    match outcome {
        Ok(ok) => {
            put_status(out, Status::Ok)?;
            put_readdirplus_ok(out, ok)
        }
        Err(fault) => put_attr_fault(out, *fault),
    }
}

#[tactic(auto, using(sl_items::proofs::Appended::appended), unfolding(crate::specs::Texts::fsstat_bytes_text))]
fn put_fsstat_bytes(out: &mut Vec<u8>, ok: &FsstatOk) -> Result<(), NoMemory>
    ensures ok { OnOk result (out.new.items ≡ out.old.items ++ fsstat_bytes_text ok.now) }
    ensures kept { take (length out.old.items) out.new.items ≡ out.old.items }
{
    put_u64(out, ok.total_bytes)?;
    put_u64(out, ok.free_bytes)?;
    put_u64(out, ok.available_bytes)?;
    Ok(())
}

#[tactic(auto, using(sl_items::proofs::Appended::appended), unfolding(crate::specs::Texts::fsstat_files_text))]
fn put_fsstat_files(out: &mut Vec<u8>, ok: &FsstatOk) -> Result<(), NoMemory>
    ensures ok { OnOk result (out.new.items ≡ out.old.items ++ fsstat_files_text ok.now) }
    ensures kept { take (length out.old.items) out.new.items ≡ out.old.items }
{
    put_u64(out, ok.total_files)?;
    put_u64(out, ok.free_files)?;
    put_u64(out, ok.available_files)?;
    put_u32(out, ok.invariant_seconds)?;
    Ok(())
}

#[tactic(auto, using(sl_items::proofs::Appended::appended), unfolding(crate::specs::Texts::fsstat_ok_text))]
fn put_fsstat_ok(out: &mut Vec<u8>, ok: &FsstatOk) -> Result<(), NoMemory>
    ensures ok { OnOk result (out.new.items ≡ out.old.items ++ fsstat_ok_text ok.now) }
    ensures kept { take (length out.old.items) out.new.items ≡ out.old.items }
{
    put_optional_fattr(out, ok.attributes)?;
    put_fsstat_bytes(out, ok)?;
    put_fsstat_files(out, ok)?;
    Ok(())
}

/// Appends the result of FSSTAT.
#[tactic(auto, using(sl_items::proofs::Appended::appended))]
pub fn put_fsstat(out: &mut Vec<u8>, outcome: &Result<FsstatOk, AttrFault>) -> Result<(), NoMemory>
    ensures ok { OnOk result (out.new.items ≡ out.old.items ++ result_text fsstat_ok_text attr_fault_text outcome.now) }
    ensures kept { take (length out.old.items) out.new.items ≡ out.old.items }
{
    match outcome {
        Ok(ok) => {
            put_status(out, Status::Ok)?;
            put_fsstat_ok(out, ok)
        }
        Err(fault) => put_attr_fault(out, *fault),
    }
}

#[tactic(auto, using(sl_items::proofs::Appended::appended), unfolding(crate::specs::Texts::fsinfo_read_text))]
fn put_fsinfo_read(out: &mut Vec<u8>, ok: &FsinfoOk) -> Result<(), NoMemory>
    ensures ok { OnOk result (out.new.items ≡ out.old.items ++ fsinfo_read_text ok.now) }
    ensures kept { take (length out.old.items) out.new.items ≡ out.old.items }
{
    put_u32(out, ok.read_max)?;
    put_u32(out, ok.read_preferred)?;
    put_u32(out, ok.read_multiple)?;
    Ok(())
}

#[tactic(auto, using(sl_items::proofs::Appended::appended), unfolding(crate::specs::Texts::fsinfo_write_text))]
fn put_fsinfo_write(out: &mut Vec<u8>, ok: &FsinfoOk) -> Result<(), NoMemory>
    ensures ok { OnOk result (out.new.items ≡ out.old.items ++ fsinfo_write_text ok.now) }
    ensures kept { take (length out.old.items) out.new.items ≡ out.old.items }
{
    put_u32(out, ok.write_max)?;
    put_u32(out, ok.write_preferred)?;
    put_u32(out, ok.write_multiple)?;
    put_u32(out, ok.readdir_preferred)?;
    Ok(())
}

#[tactic(auto, using(sl_items::proofs::Appended::appended), unfolding(crate::specs::Texts::fsinfo_limits_text))]
fn put_fsinfo_limits(out: &mut Vec<u8>, ok: &FsinfoOk) -> Result<(), NoMemory>
    ensures ok { OnOk result (out.new.items ≡ out.old.items ++ fsinfo_limits_text ok.now) }
    ensures kept { take (length out.old.items) out.new.items ≡ out.old.items }
{
    put_u64(out, ok.max_file_size)?;
    put_time(out, ok.time_delta)?;
    put_u32(out, ok.properties)?;
    Ok(())
}

#[tactic(auto, using(sl_items::proofs::Appended::appended), unfolding(crate::specs::Texts::fsinfo_ok_text))]
fn put_fsinfo_ok(out: &mut Vec<u8>, ok: &FsinfoOk) -> Result<(), NoMemory>
    ensures ok { OnOk result (out.new.items ≡ out.old.items ++ fsinfo_ok_text ok.now) }
    ensures kept { take (length out.old.items) out.new.items ≡ out.old.items }
{
    put_optional_fattr(out, ok.attributes)?;
    put_fsinfo_read(out, ok)?;
    put_fsinfo_write(out, ok)?;
    put_fsinfo_limits(out, ok)?;
    Ok(())
}

/// Appends the result of FSINFO.
#[tactic(auto, using(sl_items::proofs::Appended::appended))]
pub fn put_fsinfo(out: &mut Vec<u8>, outcome: &Result<FsinfoOk, AttrFault>) -> Result<(), NoMemory>
    ensures ok { OnOk result (out.new.items ≡ out.old.items ++ result_text fsinfo_ok_text attr_fault_text outcome.now) }
    ensures kept { take (length out.old.items) out.new.items ≡ out.old.items }
{
    match outcome {
        Ok(ok) => {
            put_status(out, Status::Ok)?;
            put_fsinfo_ok(out, ok)
        }
        Err(fault) => put_attr_fault(out, *fault),
    }
}

#[tactic(auto, using(sl_items::proofs::Appended::appended), unfolding(crate::specs::Texts::pathconf_flags_text))]
fn put_pathconf_flags(out: &mut Vec<u8>, ok: &PathconfOk) -> Result<(), NoMemory>
    ensures ok { OnOk result (out.new.items ≡ out.old.items ++ pathconf_flags_text ok.now) }
    ensures kept { take (length out.old.items) out.new.items ≡ out.old.items }
{
    put_flag(out, ok.no_trunc)?;
    put_flag(out, ok.chown_restricted)?;
    put_flag(out, ok.case_insensitive)?;
    put_flag(out, ok.case_preserving)?;
    Ok(())
}

#[tactic(auto, using(sl_items::proofs::Appended::appended), unfolding(crate::specs::Texts::pathconf_ok_text))]
fn put_pathconf_ok(out: &mut Vec<u8>, ok: &PathconfOk) -> Result<(), NoMemory>
    ensures ok { OnOk result (out.new.items ≡ out.old.items ++ pathconf_ok_text ok.now) }
    ensures kept { take (length out.old.items) out.new.items ≡ out.old.items }
{
    put_optional_fattr(out, ok.attributes)?;
    put_u32(out, ok.link_max)?;
    put_u32(out, ok.name_max)?;
    put_pathconf_flags(out, ok)?;
    Ok(())
}

/// Appends the result of PATHCONF.
#[tactic(auto, using(sl_items::proofs::Appended::appended))]
pub fn put_pathconf(
    out: &mut Vec<u8>,
    outcome: &Result<PathconfOk, AttrFault>,
) -> Result<(), NoMemory>
    ensures ok { OnOk result (out.new.items ≡ out.old.items ++ result_text pathconf_ok_text attr_fault_text outcome.now) }
    ensures kept { take (length out.old.items) out.new.items ≡ out.old.items }
{
    match outcome {
        Ok(ok) => {
            put_status(out, Status::Ok)?;
            put_pathconf_ok(out, ok)
        }
        Err(fault) => put_attr_fault(out, *fault),
    }
}

#[tactic(auto, using(sl_items::proofs::Appended::appended), unfolding(crate::specs::Texts::commit_ok_text))]
fn put_commit_ok(out: &mut Vec<u8>, ok: &CommitOk) -> Result<(), NoMemory>
    ensures ok { OnOk result (out.new.items ≡ out.old.items ++ commit_ok_text ok.now) }
    ensures kept { take (length out.old.items) out.new.items ≡ out.old.items }
{
    put_wcc(out, ok.wcc)?;
    put_u64(out, ok.verifier)?;
    Ok(())
}

/// Appends the result of COMMIT.
#[tactic(auto, using(sl_items::proofs::Appended::appended))]
pub fn put_commit(out: &mut Vec<u8>, outcome: &Result<CommitOk, WccFault>) -> Result<(), NoMemory>
    ensures ok { OnOk result (out.new.items ≡ out.old.items ++ result_text commit_ok_text wcc_fault_text outcome.now) }
    ensures kept { take (length out.old.items) out.new.items ≡ out.old.items }
{
    match outcome {
        Ok(ok) => {
            put_status(out, Status::Ok)?;
            put_commit_ok(out, ok)
        }
        Err(fault) => put_wcc_fault(out, *fault),
    }
}
