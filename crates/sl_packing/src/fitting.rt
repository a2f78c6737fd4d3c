//! Whether a reply can be written.
ghost use Rattle.std.specs.Prelude.{◌≡◌, ◌↔◌, true, not, All, IfSome};
ghost use Rattle.sl_types.specs.Numbers.{is_ok_status};
ghost use Rattle.sl_items.specs.Spelling.{FitsBytes, FitsFh};
ghost use Rattle.sl_replies.specs.Texts.{FitsAttrResult, FitsEntry, FitsEntryPlus, FitsReply, FitsResult, FitsWccResult};

use sl_types::{
    AttrFault, Bytes, Entries, EntriesPlus, Entry, EntryPlus, Fattr, Fh, LookupOk, MakeOk, Name,
    ReadOk, ReaddirOk, ReaddirplusOk, ReadlinkOk, Reply, Status, WccFault,
};

/// How many bytes a handle has at most (RFC 1813, section 2.4, `NFS3_FHSIZE`).
const LONGEST_HANDLE: usize = 64;

/// The least number that four bytes don't hold.
const PAST_U32: usize = 4294967296;

fn is_failure(status: Status) -> bool
    ensures { result ≡ not (is_ok_status status) }
{
    match status {
        Status::Ok => false,
        _ => true,
    }
}

fn fits_fh(fh: &Fh) -> bool
    ensures { (result ≡ true) ↔ FitsFh fh.now }
{
    fh.as_slice().len() <= LONGEST_HANDLE
}

fn fits_optional_fh(fh: &Option<Fh>) -> bool
    ensures { (result ≡ true) ↔ IfSome fh.now FitsFh }
{
    match fh {
        Some(fh) => fits_fh(fh),
        None => true,
    }
}

fn fits_bytes(bytes: &Bytes) -> bool
    ensures { (result ≡ true) ↔ FitsBytes bytes.now }
{
    bytes.as_slice().len() < PAST_U32
}

fn fits_name(name: &Name) -> bool
    ensures { (result ≡ true) ↔ FitsBytes name.now }
{
    name.as_slice().len() < PAST_U32
}

fn fits_entry(entry: &Entry) -> bool
    ensures { (result ≡ true) ↔ FitsEntry entry.now }
{
    fits_name(&entry.name)
}

fn fits_entry_plus(entry: &EntryPlus) -> bool
    ensures { (result ≡ true) ↔ FitsEntryPlus entry.now }
{
    fits_name(&entry.name) && fits_optional_fh(&entry.handle)
}

fn fits_entries(entries: &Entries) -> bool
    ensures { (result ≡ true) ↔ All FitsEntry entries.now }
{
    for entry in entries.as_slice() {
        if !fits_entry(entry) {
            return false;
        }
    }
    true
}

fn fits_entries_plus(entries: &EntriesPlus) -> bool
    ensures { (result ≡ true) ↔ All FitsEntryPlus entries.now }
{
    for entry in entries.as_slice() {
        if !fits_entry_plus(entry) {
            return false;
        }
    }
    true
}

// Results without a part that can be too long.

fn fits_getattr(outcome: &Result<Fattr, Status>) -> bool
    ensures { (result ≡ true) ↔ FitsResult (λ ok. Unit {0}) (λ fault. fault) outcome.now }
{
    match outcome {
        Ok(_) => true,
        Err(status) => is_failure(*status),
    }
}

fn fits_looked<T>(outcome: &Result<T, AttrFault>) -> bool
    ensures { (result ≡ true) ↔ FitsAttrResult (λ ok. Unit {0}) outcome.now }
{
    match outcome {
        Ok(_) => true,
        Err(fault) => is_failure(fault.status),
    }
}

fn fits_written<T>(outcome: &Result<T, WccFault>) -> bool
    ensures { (result ≡ true) ↔ FitsWccResult (λ ok. Unit {0}) outcome.now }
{
    match outcome {
        Ok(_) => true,
        Err(fault) => is_failure(fault.status),
    }
}

// Results with one.

fn fits_lookup(outcome: &Result<LookupOk, AttrFault>) -> bool
    ensures { (result ≡ true) ↔ FitsAttrResult (λ ok. FitsFh ok.object) outcome.now }
{
    match outcome {
        Ok(ok) => fits_fh(&ok.object),
        Err(fault) => is_failure(fault.status),
    }
}

fn fits_readlink(outcome: &Result<ReadlinkOk, AttrFault>) -> bool
    ensures { (result ≡ true) ↔ FitsAttrResult (λ ok. FitsBytes ok.path) outcome.now }
{
    match outcome {
        Ok(ok) => fits_bytes(&ok.path),
        Err(fault) => is_failure(fault.status),
    }
}

fn fits_read(outcome: &Result<ReadOk, AttrFault>) -> bool
    ensures { (result ≡ true) ↔ FitsAttrResult (λ ok. FitsBytes ok.bytes) outcome.now }
{
    match outcome {
        Ok(ok) => fits_bytes(&ok.bytes),
        Err(fault) => is_failure(fault.status),
    }
}

fn fits_made(outcome: &Result<MakeOk, WccFault>) -> bool
    ensures { (result ≡ true) ↔ FitsWccResult (λ ok. IfSome ok.object FitsFh) outcome.now }
{
    match outcome {
        Ok(ok) => fits_optional_fh(&ok.object),
        Err(fault) => is_failure(fault.status),
    }
}

fn fits_readdir(outcome: &Result<ReaddirOk, AttrFault>) -> bool
    ensures { (result ≡ true) ↔ FitsAttrResult (λ ok. All FitsEntry ok.entries) outcome.now }
{
    match outcome {
        Ok(ok) => fits_entries(&ok.entries),
        Err(fault) => is_failure(fault.status),
    }
}

fn fits_readdirplus(outcome: &Result<ReaddirplusOk, AttrFault>) -> bool
    ensures { (result ≡ true) ↔ FitsAttrResult (λ ok. All FitsEntryPlus ok.entries) outcome.now }
{
    match outcome {
        Ok(ok) => fits_entries_plus(&ok.entries),
        Err(fault) => is_failure(fault.status),
    }
}

/// Whether a packet can hold the reply: no part of it is too long, and no failure has the status OK.
pub fn fits(reply: &Reply) -> bool
    ensures { (result ≡ true) ↔ FitsReply reply.now }
{
    match reply {
        Reply::Null | Reply::Setattr { .. } | Reply::Remove { .. } | Reply::Rmdir { .. } => true,
        Reply::Rename { .. } | Reply::Link { .. } => true,
        Reply::Getattr(outcome) => fits_getattr(outcome),
        Reply::Lookup(outcome) => fits_lookup(outcome),
        Reply::Access(outcome) => fits_looked(outcome),
        Reply::Readlink(outcome) => fits_readlink(outcome),
        Reply::Read(outcome) => fits_read(outcome),
        Reply::Write(outcome) => fits_written(outcome),
        Reply::Create(outcome) | Reply::Mkdir(outcome) => fits_made(outcome),
        Reply::Symlink(outcome) | Reply::Mknod(outcome) => fits_made(outcome),
        Reply::Readdir(outcome) => fits_readdir(outcome),
        Reply::Readdirplus(outcome) => fits_readdirplus(outcome),
        Reply::Fsstat(outcome) => fits_looked(outcome),
        Reply::Fsinfo(outcome) => fits_looked(outcome),
        Reply::Pathconf(outcome) => fits_looked(outcome),
        Reply::Commit(outcome) => fits_written(outcome),
    }
}
