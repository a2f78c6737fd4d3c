//! The procedures that change nothing, from the bytes of their handles on. COMMIT stands with those that change
//! something.
ghost use Rattle.std.specs.Prelude.{◌≡◌, ◌+◌, ◌<◌, ◌^◌, IfOk};
ghost use Rattle.sl_model.specs.Plan.{run};
ghost use Rattle.sl_model.specs.Volume.{sight};
ghost use Rattle.sl_model.specs.Looking as looking;
ghost use Rattle.sl_model.specs.Procedures.{with_handle};
ghost use Rattle.sl_plain.specs.Found as found;
ghost use Rattle.sl_plain.specs.Outcomes.{Gives};

use crate::halt::Halt;
use crate::handles::{handle_bytes, read_handle};
use crate::listing::{list, name_lines, plus_lines};
use crate::names::Place;
use crate::outcome::Outcome;
use crate::told::{attributes, handle_to};
use crate::volume::Volume;
use crate::walks::{self, Looked, object};
use sl_defs::{NoMemory, Time};
use sl_model::Node;
use sl_types::{
    AccessOk, Cred, Fh, FsinfoOk, FsstatOk, Handle, Kind, LookupOk, Name, PathconfOk, ReadOk,
    ReaddirOk, ReaddirplusOk, ReadlinkOk, Reply,
};
use std::alloc::Global;

/// GETATTR.
pub(crate) fn getattr(
    alloc: Global,
    volume: &Volume,
    cred: &Cred,
    file: &Fh,
) -> Result<Outcome, Halt>
    ensures { Gives result (run (sight volume.now) (with_handle file.now (λ h. looking.getattr cred.now h))) }
{
    let h = read_handle(file.as_slice())?;
    let n = walks::getattr(volume, cred, h)?;
    Ok(Outcome::answering(alloc, Reply::Getattr(Ok(attributes(n)))))
}

// The reply to a LOOKUP.
fn looked(alloc: Global, at: Looked) -> Result<Outcome, NoMemory>
    ensures { IfOk result (λ o. o ≡ found.looked at) }
{
    let (handle, attributes) = match at {
        Looked::Object(n) => (handle_to(n), Some(attributes(n))),
        Looked::Parent(d) => (directory_handle(d.fsid, d.parent), None),
    };
    let object = handle_bytes(alloc, handle)?;
    let ok = LookupOk {
        object,
        attributes,
        dir_attributes: None,
    };
    Ok(Outcome::answering(alloc, Reply::Lookup(Ok(ok))))
}

fn directory_handle(volume: u64, fileid: u64) -> Handle
    ensures { result ≡ looking.directory_handle volume fileid }
{
    Handle {
        volume,
        fileid,
        kind: Kind::Dir,
    }
}

/// LOOKUP.
pub(crate) fn lookup(
    alloc: Global,
    volume: &Volume,
    cred: &Cred,
    dir: &Fh,
    name: &Name,
) -> Result<Outcome, Halt>
    ensures { Gives result (run (sight volume.now) (with_handle dir.now (λ h. looking.lookup cred.now h name.now))) }
{
    let h = read_handle(dir.as_slice())?;
    let place = Place::of(alloc, h.fileid, name.as_slice())?;
    let at = walks::lookup(volume, cred, h, &place)?;
    let outcome = looked(alloc, at)?;
    Ok(outcome)
}

/// ACCESS.
pub(crate) fn access(
    alloc: Global,
    volume: &Volume,
    cred: &Cred,
    file: &Fh,
    bits: u32,
) -> Result<Outcome, Halt>
    ensures { Gives result (run (sight volume.now) (with_handle file.now (λ h. looking.access cred.now h bits))) }
{
    let h = read_handle(file.as_slice())?;
    let n = walks::access(volume, cred, h, bits)?;
    let ok = AccessOk {
        attributes: Some(attributes(n)),
        bits: bits & 63,
    };
    Ok(Outcome::answering(alloc, Reply::Access(Ok(ok))))
}

/// READLINK.
pub(crate) fn readlink(
    alloc: Global,
    volume: &Volume,
    cred: &Cred,
    link: &Fh,
) -> Result<Outcome, Halt>
    ensures { Gives result (run (sight volume.now) (with_handle link.now (λ h. looking.readlink cred.now h))) }
{
    let h = read_handle(link.as_slice())?;
    let n = walks::readlink(volume, cred, h)?;
    let path = volume.text(alloc, h.fileid)?;
    let ok = ReadlinkOk {
        attributes: Some(attributes(n)),
        path,
    };
    Ok(Outcome::answering(alloc, Reply::Readlink(Ok(ok))))
}

// How many bytes are read.
fn readable(n: Node, offset: u64, count: u32) -> u32
    ensures readable { result ≡ looking.readable n offset count }
    ensures end { offset + result < 2 ^ 64 }
{
    let up_to_unit = 8192 - offset % 8192;
    let up_to_end = n.size.saturating_sub(offset);
    u64::from(count).min(up_to_unit.min(up_to_end)) as u32
}

// The reply to a READ.
fn reading(
    alloc: Global,
    volume: &Volume,
    fileid: u64,
    n: Node,
    offset: u64,
    asked: u32,
) -> Result<Outcome, NoMemory>
    ensures { IfOk result (λ o. o ≡ looking.reading n offset asked ((sight volume.now).bytes fileid offset (looking.readable n offset asked))) }
{
    let count = readable(n, offset, asked);
    let bytes = volume.bytes(alloc, fileid, offset, count)?;
    let ok = ReadOk {
        attributes: Some(attributes(n)),
        count,
        eof: n.size <= offset + u64::from(count),
        bytes,
    };
    Ok(Outcome::answering(alloc, Reply::Read(Ok(ok))))
}

/// READ.
pub(crate) fn read(
    alloc: Global,
    volume: &Volume,
    cred: &Cred,
    file: &Fh,
    offset: u64,
    count: u32,
) -> Result<Outcome, Halt>
    ensures { Gives result (run (sight volume.now) (with_handle file.now (λ h. looking.read cred.now h offset count))) }
{
    let h = read_handle(file.as_slice())?;
    let n = walks::read(volume, cred, h, offset, count)?;
    let outcome = reading(alloc, volume, h.fileid, n, offset, count)?;
    Ok(outcome)
}

/// READDIR.
pub(crate) fn readdir(
    alloc: Global,
    volume: &Volume,
    cred: &Cred,
    dir: &Fh,
    cookie: u64,
    verifier: u64,
    count: u32,
) -> Result<Outcome, Halt>
    ensures { Gives result (run (sight volume.now) (with_handle dir.now (λ h. looking.readdir cred.now h cookie verifier count))) }
{
    let h = read_handle(dir.as_slice())?;
    let l = list(alloc, volume, cred, h, cookie, verifier, 24, count)?;
    let entries = name_lines(alloc, l.lines.as_slice())?;
    let ok = ReaddirOk {
        attributes: None,
        cookie_verifier: 0,
        entries,
        eof: l.eof,
    };
    Ok(Outcome::answering(alloc, Reply::Readdir(Ok(ok))))
}

/// READDIRPLUS.
pub(crate) fn readdirplus(
    alloc: Global,
    volume: &Volume,
    cred: &Cred,
    dir: &Fh,
    cookie: u64,
    verifier: u64,
    maxcount: u32,
) -> Result<Outcome, Halt>
    ensures { Gives result (run (sight volume.now) (with_handle dir.now (λ h. looking.readdirplus cred.now h cookie verifier maxcount))) }
{
    let h = read_handle(dir.as_slice())?;
    let l = list(alloc, volume, cred, h, cookie, verifier, 68, maxcount)?;
    let entries = plus_lines(alloc, l.directory.fsid, l.lines.as_slice())?;
    let ok = ReaddirplusOk {
        attributes: None,
        cookie_verifier: 0,
        entries,
        eof: l.eof,
    };
    Ok(Outcome::answering(alloc, Reply::Readdirplus(Ok(ok))))
}

/// FSSTAT.
pub(crate) fn fsstat(
    alloc: Global,
    volume: &Volume,
    cred: &Cred,
    file: &Fh,
) -> Result<Outcome, Halt>
    ensures { Gives result (run (sight volume.now) (with_handle file.now (λ h. looking.fsstat cred.now h))) }
{
    let h = read_handle(file.as_slice())?;
    object(volume, cred, h)?;
    let ok = FsstatOk {
        attributes: None,
        total_bytes: 1 << 50,
        free_bytes: 1 << 50,
        available_bytes: 1 << 50,
        total_files: 1 << 40,
        free_files: 1 << 40,
        available_files: 1 << 40,
        invariant_seconds: 0,
    };
    Ok(Outcome::answering(alloc, Reply::Fsstat(Ok(ok))))
}

/// FSINFO.
pub(crate) fn fsinfo(
    alloc: Global,
    volume: &Volume,
    cred: &Cred,
    file: &Fh,
) -> Result<Outcome, Halt>
    ensures { Gives result (run (sight volume.now) (with_handle file.now (λ h. looking.fsinfo cred.now h))) }
{
    let h = read_handle(file.as_slice())?;
    object(volume, cred, h)?;
    let ok = FsinfoOk {
        attributes: None,
        read_max: 8192,
        read_preferred: 8192,
        read_multiple: 512,
        write_max: 8192,
        write_preferred: 8192,
        write_multiple: 512,
        readdir_preferred: 8192,
        max_file_size: 1 << 40,
        time_delta: Time { sec: 0, nsec: 1 },
        properties: 27,
    };
    Ok(Outcome::answering(alloc, Reply::Fsinfo(Ok(ok))))
}

/// PATHCONF.
pub(crate) fn pathconf(
    alloc: Global,
    volume: &Volume,
    cred: &Cred,
    file: &Fh,
) -> Result<Outcome, Halt>
    ensures { Gives result (run (sight volume.now) (with_handle file.now (λ h. looking.pathconf cred.now h))) }
{
    let h = read_handle(file.as_slice())?;
    object(volume, cred, h)?;
    let ok = PathconfOk {
        attributes: None,
        link_max: 65000,
        name_max: 255,
        no_trunc: true,
        chown_restricted: true,
        case_insensitive: false,
        case_preserving: true,
    };
    Ok(Outcome::answering(alloc, Reply::Pathconf(Ok(ok))))
}
