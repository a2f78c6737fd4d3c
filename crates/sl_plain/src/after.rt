//! Nodes as calls leave them.
ghost use Rattle.std.specs.Prelude.{◌≡◌, ◌+◌, ◌-◌, ◌<◌, ◌^◌, min};
ghost use Rattle.sl_model.specs.Volume as volume;
ghost use Rattle.sl_model.specs.Looking as looking;
ghost use Rattle.sl_model.specs.Changing as changing;
ghost use Rattle.sl_plain.specs.Found as found;
ghost use Rattle.sl_plain.specs.Outcomes.{Counts, is_past_node, is_past_entry};

use crate::checks::{given, is_dir};
use crate::halt::Halt;
use crate::special::Special;
use sl_defs::Time;
use sl_model::{Entry, Node};
use sl_types::{CreateHow, Cred, Kind, Sattr, SetTime};

/// Whether the times are equal.
pub(crate) fn same_time(a: Time, b: Time) -> bool
    ensures { result ≡ changing.same_time a b }
{
    a.sec == b.sec && a.nsec == b.nsec
}

fn mode_or(given: Option<u32>, mode: u32) -> u32
    ensures { result ≡ changing.mode_or given mode }
{
    match given {
        Some(mode) => mode % 4096,
        None => mode,
    }
}

fn set_time(set: SetTime, old: Time, now: Time) -> Time
    ensures { result ≡ changing.set_time set old now }
{
    match set {
        SetTime::Keep => old,
        SetTime::Server => now,
        SetTime::Client(time) => time,
    }
}

fn mtime_or(size: Option<u64>, old: Time, now: Time) -> Time
    ensures { result ≡ changing.mtime_or size old now }
{
    match size {
        Some(_) => now,
        None => old,
    }
}

/// A node after SETATTR.
pub(crate) fn set_attributes(n: Node, s: Sattr, now: Time) -> Node
    ensures { result ≡ changing.set_attributes n s now }
{
    Node {
        mode: mode_or(s.mode, n.mode),
        uid: s.uid.unwrap_or(n.uid),
        gid: s.gid.unwrap_or(n.gid),
        size: s.size.unwrap_or(n.size),
        atime: set_time(s.atime, n.atime, now),
        mtime: set_time(s.mtime, mtime_or(s.size, n.mtime, now), now),
        ctime: now,
        ..n
    }
}

/// A node with this size, if one is given, as SETATTR sets it.
pub(crate) fn resized(n: Node, size: Option<u64>, now: Time) -> Node
    ensures { result ≡ changing.resized n size now }
{
    let Some(size) = size else {
        return n;
    };
    let alone = Sattr {
        mode: None,
        uid: None,
        gid: None,
        size: Some(size),
        atime: SetTime::Keep,
        mtime: SetTime::Keep,
    };
    set_attributes(n, alone, now)
}

/// Whether no call sees a difference between the two.
pub(crate) fn same_attributes(a: Node, b: Node) -> bool
    ensures { result ≡ changing.same_attributes a b }
{
    a.mode == b.mode
        && (a.uid == b.uid
            && (a.gid == b.gid
                && (a.size == b.size
                    && (a.parent == b.parent
                        && (same_time(a.atime, b.atime)
                            && (same_time(a.mtime, b.mtime) && same_time(a.ctime, b.ctime)))))))
}

/// A file's node after a write that ends at this offset.
pub(crate) fn written_to(end: u64, moment: Time, n: Node) -> Node
    ensures { result ≡ volume.written_to end moment n }
{
    Node {
        size: n.size.max(end),
        mtime: moment,
        ctime: moment,
        ..n
    }
}

fn one_if(test: bool) -> u32
    ensures { result ≡ changing.one_if test }
{
    if test { 1 } else { 0 }
}

/// A directory with one name more, of an object of that kind.
pub(crate) fn with_name(d: Node, kind: Kind, now: Time) -> Result<Node, Halt>
    ensures { Counts is_past_node result (changing.with_name d kind now) }
{
    let Some(nlink) = d.nlink.checked_add(one_if(is_dir(kind))) else {
        return Err(Halt::Spent);
    };
    let Some(size) = d.size.checked_add(32) else {
        return Err(Halt::Spent);
    };
    let Some(entries) = d.entries.checked_add(1) else {
        return Err(Halt::Spent);
    };
    let Some(made) = d.made.checked_add(1) else {
        return Err(Halt::Spent);
    };
    Ok(Node {
        nlink,
        size,
        entries,
        made,
        mtime: now,
        ctime: now,
        ..d
    })
}

/// A directory with one name less, of an object of that kind.
pub(crate) fn without_name(d: Node, kind: Kind, now: Time) -> Node
    ensures { result ≡ changing.without_name d kind now }
{
    Node {
        nlink: d.nlink.saturating_sub(one_if(is_dir(kind))),
        size: d.size.saturating_sub(32),
        entries: d.entries.saturating_sub(1),
        mtime: now,
        ctime: now,
        ..d
    }
}

/// What the next name of a directory leads to, if it is to lead to this object.
pub(crate) fn entry_to(n: Node, d: Node) -> Result<Entry, Halt>
    ensures { Counts is_past_entry result (changing.entry_to n (changing.cookie_in d)) }
{
    let Some(cookie) = d.made.checked_add(3) else {
        return Err(Halt::Spent);
    };
    Ok(Entry {
        fileid: n.fileid,
        kind: n.kind,
        cookie,
    })
}

fn parent_of_new(kind: Kind, d: Node) -> u64
    ensures { result ≡ found.parent_of_new kind d }
{
    if is_dir(kind) { d.fileid } else { 0 }
}

/// A new object of a directory.
pub(crate) fn new_node(
    kind: Kind,
    mode: u32,
    s: Sattr,
    cred: &Cred,
    d: Node,
    now: Time,
    fileid: u64,
) -> Node
    ensures { result ≡ changing.new_node kind mode s cred.now d now fileid }
{
    Node {
        kind,
        mode: mode_or(s.mode, mode),
        nlink: 1 + one_if(is_dir(kind)),
        uid: s.uid.unwrap_or(cred.uid),
        gid: s.gid.unwrap_or(cred.gid),
        size: 0,
        major: 0,
        minor: 0,
        fsid: d.fsid,
        fileid,
        atime: set_time(s.atime, now, now),
        mtime: set_time(s.mtime, now, now),
        ctime: now,
        parent: parent_of_new(kind, d),
        entries: 0,
        made: 0,
        verifier: None,
    }
}

fn verifier_of(how: CreateHow) -> Option<u64>
    ensures { result ≡ changing.verifier_of how }
{
    match how {
        CreateHow::Exclusive(verifier) => Some(verifier),
        CreateHow::Unchecked(_) => None,
        CreateHow::Guarded(_) => None,
    }
}

/// Whether the object is one that this CREATE may have made.
pub(crate) fn same_create(how: CreateHow, n: Node) -> bool
    ensures { result ≡ changing.same_create how n }
{
    match how {
        CreateHow::Exclusive(verifier) => n.verifier == Some(verifier),
        CreateHow::Unchecked(_) => true,
        CreateHow::Guarded(_) => true,
    }
}

/// The regular file that a CREATE makes.
pub(crate) fn new_file(how: CreateHow, cred: &Cred, d: Node, now: Time, fileid: u64) -> Node
    ensures { result ≡ changing.new_file how cred.now d now fileid }
{
    let given = given(how);
    Node {
        size: given.size.unwrap_or(0),
        verifier: verifier_of(how),
        ..new_node(Kind::Reg, 420, given, cred, d, now, fileid)
    }
}

/// The special object that a MKNOD makes.
pub(crate) fn new_special(s: Special, cred: &Cred, d: Node, now: Time, fileid: u64) -> Node
    ensures { result ≡ changing.new_special (found.special s) cred.now d now fileid }
{
    Node {
        major: s.major,
        minor: s.minor,
        ..new_node(s.kind, 420, s.attributes, cred, d, now, fileid)
    }
}

/// Whether the object goes with the name that it loses.
pub(crate) fn is_last(n: Node) -> bool
    ensures { result ≡ changing.is_last n }
{
    is_dir(n.kind) || n.nlink == 1
}

/// An object with one link less.
pub(crate) fn with_fewer_links(n: Node, now: Time) -> Node
    ensures { result ≡ changing.with_fewer_links n now }
{
    Node {
        nlink: n.nlink.saturating_sub(1),
        ctime: now,
        ..n
    }
}

/// An object with one link more.
pub(crate) fn with_more_links(n: Node, now: Time) -> Result<Node, Halt>
    ensures { Counts is_past_node result (changing.with_more_links n now) }
{
    let Some(nlink) = n.nlink.checked_add(1) else {
        return Err(Halt::Spent);
    };
    Ok(Node {
        nlink,
        ctime: now,
        ..n
    })
}

fn parent_in(n: Node, dir: u64) -> u64
    ensures { result ≡ found.parent_in n dir }
{
    if is_dir(n.kind) { dir } else { n.parent }
}

/// An object that was moved to this directory.
pub(crate) fn moved(n: Node, dir: u64, now: Time) -> Node
    ensures { result ≡ changing.moved n dir now }
{
    Node {
        ctime: now,
        parent: parent_in(n, dir),
        ..n
    }
}

/// The directory that a name is moved to, after the name went from the other.
pub(crate) fn destination(from: Node, less: Node, to: Node) -> Node
    ensures { result ≡ found.destination from less to }
{
    if from.fileid == to.fileid { less } else { to }
}

/// The directory without the name of a target that is there.
pub(crate) fn freed(d: Node, target: Option<Node>, now: Time) -> Node
    ensures { result ≡ changing.freed d target now }
{
    match target {
        Some(t) => without_name(d, t.kind, now),
        None => d,
    }
}
