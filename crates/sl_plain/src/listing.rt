//! Listings of directories.
ghost use Rattle.std.specs.Prelude.{◌≡◌, ◌≤◌, map, IfOk};
ghost use Rattle.sl_types.specs.declared.kind.Kind.TheVariants as kind;
ghost use Rattle.sl_model.specs.Plan.{run};
ghost use Rattle.sl_model.specs.Volume.{sight};
ghost use Rattle.sl_model.specs.Looking as looking;
ghost use Rattle.sl_plain.specs.Found as found;
ghost use Rattle.sl_plain.specs.Outcomes.{GivesBy};

use crate::checks::refuse;
use crate::halt::Halt;
use crate::handles::handle_bytes;
use crate::lines::Lines;
use crate::volume::Volume;
use crate::walks::directory;
use sl_defs::{Bytes, NoMemory};
use sl_model::{Listed, Node};
use sl_types::{Cred, Entries, EntriesPlus, Entry, EntryPlus, Handle, Kind, Name, Status};
use std::alloc::Global;

/// A listing: its directory, the lines that fit, and whether they are the last.
#[derive(Drop, Debug)]
pub(crate) struct Listing {
    pub directory: Node,
    pub lines: Lines,
    pub eof: bool,
}

// `.` and `..`, as far as they are behind the cookie.
fn dots_behind(alloc: Global, d: Node, cookie: u64) -> Result<Lines, NoMemory>
    ensures { IfOk result (λ lines. lines ≡ looking.behind cookie (looking.dots d)) }
{
    let mut lines = Lines::new(alloc);
    if cookie < 1 {
        lines.push(dots_line(alloc, b".", d.fileid, 1)?)?;
    }
    if cookie < 2 {
        lines.push(dots_line(alloc, b"..", d.parent, 2)?)?;
    }
    Ok(lines)
}

fn dots_line(alloc: Global, name: &[u8], fileid: u64, cookie: u64) -> Result<Listed, NoMemory>
    ensures { IfOk result (λ line. line ≡ record { name = name.now; fileid = fileid; kind = kind.Dir; cookie = cookie }) }
{
    let Ok(name) = Vec::from_slice(alloc, name) else {
        return Err(NoMemory);
    };
    Ok(Listed {
        name: Name::new(Bytes::new(name)),
        fileid,
        kind: Kind::Dir,
        cookie,
    })
}

// The bytes of a line in the reply, of which a fixed part isn't its name's.
fn line_size(fixed: usize, line: &Listed) -> usize
    requires { fixed ≤ 100 }
    ensures { result ≡ looking.line_size fixed line.now }
{
    let len = line.name.as_slice().len();
    fixed + (len + (4 - len % 4) % 4)
}

// How many lines fit in so many bytes.
fn fitting(fixed: usize, room: usize, lines: &[Listed]) -> usize
    requires { fixed ≤ 100 }
    ensures { result ≡ found.fit_count fixed room lines.now }
{
    let mut left = room;
    let mut count = 0;
    for line in lines {
        let size = line_size(fixed, line);
        if size > left {
            return count;
        }
        left -= size;
        count += 1;
    }
    count
}

// Whether no line fits, though there is one.
fn is_too_small(limit: usize, fitting: &[Listed], all: &[Listed]) -> bool
    ensures { result ≡ looking.is_too_small limit fitting.now all.now }
{
    match (fitting, all) {
        ([], [_, ..]) => true,
        _ => limit < 20,
    }
}

// All lines behind the cookie.
fn lines_behind(
    alloc: Global,
    volume: &Volume,
    d: Node,
    dir: u64,
    cookie: u64,
) -> Result<Lines, NoMemory>
    ensures { IfOk result (λ lines. lines ≡ found.lines_behind (sight volume.now) d dir cookie) }
{
    let mut lines = dots_behind(alloc, d, cookie)?;
    let names = volume.names_behind(alloc, dir, cookie)?;
    lines.append(names)?;
    Ok(lines)
}

// The lines that fit in a reply of so many bytes at most.
fn fitted(d: Node, fixed: usize, limit: usize, all: Lines) -> Result<Listing, Status>
    requires { fixed ≤ 100 }
    ensures { found.fitted d fixed limit all ≡ result }
{
    let mut lines = all;
    let there = lines.as_slice();
    let count = fitting(fixed, limit.saturating_sub(20), there);
    let front = &there[..count];
    refuse(is_too_small(limit, front, there), Status::TooSmall)?;
    let eof = front.len() == there.len();
    lines.truncate(count);
    Ok(Listing {
        directory: d,
        lines,
        eof,
    })
}

/// The listing of a directory behind a cookie.
pub(crate) fn list(
    alloc: Global,
    volume: &Volume,
    cred: &Cred,
    h: Handle,
    cookie: u64,
    verifier: u64,
    fixed: usize,
    count: u32,
) -> Result<Listing, Halt>
    requires { fixed ≤ 100 }
    ensures { GivesBy found.listing result (run (sight volume.now) (looking.listing cred.now h cookie verifier fixed count)) }
{
    let d = directory(volume, cred, h)?;
    refuse(verifier != 0, Status::BadCookie)?;
    let all = lines_behind(alloc, volume, d, h.fileid, cookie)?;
    let fitted = fitted(d, fixed, 8192_u32.min(count) as usize, all)?;
    Ok(fitted)
}

/// The lines of READDIR.
pub(crate) fn name_lines(alloc: Global, lines: &[Listed]) -> Result<Entries, NoMemory>
    ensures { IfOk result (λ entries. entries ≡ map looking.name_line lines.now) }
{
    let mut entries = Vec::new(alloc);
    for line in lines {
        let Ok(_) = entries.push(name_line(line)?) else {
            return Err(NoMemory);
        };
    }
    Ok(Entries::new(entries))
}

fn name_line(line: &Listed) -> Result<Entry, NoMemory>
    ensures { IfOk result (λ entry. entry ≡ looking.name_line line.now) }
{
    let name = line.name.copy()?;
    Ok(Entry {
        fileid: line.fileid,
        name,
        cookie: line.cookie,
    })
}

/// The lines of READDIRPLUS.
pub(crate) fn plus_lines(
    alloc: Global,
    volume: u64,
    lines: &[Listed],
) -> Result<EntriesPlus, NoMemory>
    ensures { IfOk result (λ entries. entries ≡ map (looking.plus_line volume) lines.now) }
{
    let mut entries = Vec::new(alloc);
    for line in lines {
        let Ok(_) = entries.push(plus_line(alloc, volume, line)?) else {
            return Err(NoMemory);
        };
    }
    Ok(EntriesPlus::new(entries))
}

fn plus_line(alloc: Global, volume: u64, line: &Listed) -> Result<EntryPlus, NoMemory>
    ensures { IfOk result (λ entry. entry ≡ looking.plus_line volume line.now) }
{
    let name = line.name.copy()?;
    let handle = Handle {
        volume,
        fileid: line.fileid,
        kind: line.kind,
    };
    let handle = handle_bytes(alloc, handle)?;
    Ok(EntryPlus {
        fileid: line.fileid,
        name,
        cookie: line.cookie,
        attributes: None,
        handle: Some(handle),
    })
}
