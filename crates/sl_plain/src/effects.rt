//! What a call that changes something changes and answers, from what it found.
ghost use Rattle.std.specs.Prelude.{◌≡◌, ◌+◌, ◌++◌, ◌^◌, ◌<◌, length, IfOk, OnOk};
ghost use Rattle.sl_model.specs.Changing as changing;
ghost use Rattle.sl_model.specs.Looking as looking;
ghost use Rattle.sl_plain.specs.Found as found;
ghost use Rattle.sl_plain.specs.Outcomes.{Makes, Has, change_of};

use crate::after::{
    destination, entry_to, freed, is_last, moved, new_file, new_node, new_special, resized,
    same_attributes, set_attributes, with_fewer_links, with_more_links, with_name, without_name,
    written_to,
};
use crate::change::Change;
use crate::checks::given;
use crate::creating::Creation;
use crate::halt::Halt;
use crate::names::Place;
use crate::outcome::{Changes, Outcome};
use crate::pending::Pending;
use crate::renaming::Renamed;
use crate::special::Special;
use crate::stretch::Stretch;
use crate::told::{attributes, made, no_wcc, wcc_of};
use sl_defs::{Bytes, NoMemory, Time};
use sl_model::Node;
use sl_types::{CommitOk, CreateHow, Cred, Kind, Reply, Sattr, Stable, Status, WriteOk};
use std::alloc::Global;

// A node with other attributes is put.
fn put_other(changes: &mut Changes, before: Node, after: Node) -> Result<(), NoMemory>
    ensures { OnOk result (changes.new ≡ changes.old ++ changing.putting before after) }
{
    if same_attributes(before, after) {
        return Ok(());
    }
    changes.push(Change::PutNode {
        fileid: after.fileid,
        node: after,
    })
}

/// SETATTR of an object.
pub(crate) fn setting(alloc: Global, n: Node, s: Sattr, now: Time) -> Result<Outcome, NoMemory>
    ensures { IfOk result (λ o. o ≡ changing.setting n s now) }
{
    let after = set_attributes(n, s, now);
    let mut changes = Changes::new(alloc);
    put_other(&mut changes, n, after)?;
    let answer = Reply::Setattr {
        status: Status::Ok,
        wcc: wcc_of(after),
    };
    Ok(Outcome::new(changes, answer))
}

/// The reply to a WRITE of so many bytes.
pub(crate) fn wrote(n: Node, count: u32, committed: Stable, verifier: u64) -> Reply
    ensures { result ≡ changing.wrote n count committed verifier }
{
    Reply::Write(Ok(WriteOk {
        wcc: wcc_of(n),
        count,
        committed,
        verifier,
    }))
}

/// A write that isn't stable yet.
pub(crate) fn unstable_write(
    alloc: Global,
    n: Node,
    offset: u64,
    bytes: Bytes,
    verifier: u64,
    now: Time,
) -> Result<Outcome, NoMemory>
    requires end { offset + length bytes < 2 ^ 63 }
    requires few { length bytes < 2 ^ 32 }
    ensures { IfOk result (λ o. o ≡ changing.unstable_write n offset bytes verifier now) }
{
    let count = bytes.as_slice().len();
    let after = written_to(offset + count as u64, now, n);
    let mut changes = Changes::new(alloc);
    changes.push(Change::AddWrite(Pending {
        fileid: n.fileid,
        offset,
        bytes,
        moment: now,
    }))?;
    Ok(Outcome::new(
        changes,
        wrote(after, count as u32, Stable::Unstable, verifier),
    ))
}

/// A write that is stable at once.
pub(crate) fn stable_write(
    alloc: Global,
    n: Node,
    offset: u64,
    bytes: Bytes,
    verifier: u64,
    now: Time,
) -> Result<Outcome, NoMemory>
    requires end { offset + length bytes < 2 ^ 63 }
    requires few { length bytes < 2 ^ 32 }
    ensures { IfOk result (λ o. o ≡ changing.stable_write n offset bytes verifier now) }
{
    let count = bytes.as_slice().len();
    let after = written_to(offset + count as u64, now, n);
    let mut changes = Changes::new(alloc);
    changes.push(Change::PutNode {
        fileid: n.fileid,
        node: after,
    })?;
    changes.push(Change::PutBytes(Stretch {
        fileid: n.fileid,
        offset,
        bytes,
    }))?;
    Ok(Outcome::new(
        changes,
        wrote(after, count as u32, Stable::FileSync, verifier),
    ))
}

// The object under a name of a directory.
fn making(alloc: Global, d: Node, name: &[u8], n: Node, now: Time) -> Result<Changes, Halt>
    ensures { Makes result (changing.making d name.now n now) }
{
    let more = with_name(d, n.kind, now)?;
    let entry = entry_to(n, d)?;
    let place = Place::of(alloc, d.fileid, name)?;
    let mut changes = Changes::new(alloc);
    changes.push(Change::PutNode {
        fileid: d.fileid,
        node: more,
    })?;
    changes.push(Change::PutName { place, entry })?;
    changes.push(Change::PutNode {
        fileid: n.fileid,
        node: n,
    })?;
    Ok(changes)
}

// A file that is there already.
fn recreating(alloc: Global, n: Node, how: CreateHow, now: Time) -> Result<Outcome, NoMemory>
    ensures { IfOk result (λ o. o ≡ changing.recreating n how now) }
{
    let after = resized(n, given(how).size, now);
    let ok = made(alloc, after)?;
    let mut changes = Changes::new(alloc);
    put_other(&mut changes, n, after)?;
    Ok(Outcome::new(changes, Reply::Create(Ok(ok))))
}

fn creating(
    alloc: Global,
    d: Node,
    name: &[u8],
    how: CreateHow,
    cred: &Cred,
    now: Time,
    fileid: u64,
) -> Result<Outcome, Halt>
    ensures { Has result (changing.creating d name.now how cred.now now fileid) }
{
    let n = new_file(how, cred, d, now, fileid);
    let changes = making(alloc, d, name, n, now)?;
    let ok = made(alloc, n)?;
    Ok(Outcome::new(changes, Reply::Create(Ok(ok))))
}

/// CREATE of a file that is there, or of a new one.
pub(crate) fn created(
    alloc: Global,
    at: Creation,
    name: &[u8],
    how: CreateHow,
    cred: &Cred,
    now: Time,
    fileid: u64,
) -> Result<Outcome, Halt>
    ensures { Has result (found.created name.now how cred.now now fileid at) }
{
    match at {
        Creation::Present(n) => {
            let outcome = recreating(alloc, n, how, now)?;
            Ok(outcome)
        }
        Creation::Absent(d) => creating(alloc, d, name, how, cred, now, fileid),
    }
}

/// MKDIR in a directory.
pub(crate) fn making_directory(
    alloc: Global,
    d: Node,
    name: &[u8],
    s: Sattr,
    cred: &Cred,
    now: Time,
    fileid: u64,
) -> Result<Outcome, Halt>
    ensures { Has result (changing.making_directory d name.now s cred.now now fileid) }
{
    let n = new_node(Kind::Dir, 493, s, cred, d, now, fileid);
    let changes = making(alloc, d, name, n, now)?;
    let ok = made(alloc, n)?;
    Ok(Outcome::new(changes, Reply::Mkdir(Ok(ok))))
}

/// SYMLINK in a directory.
pub(crate) fn making_link(
    alloc: Global,
    d: Node,
    name: &[u8],
    s: Sattr,
    cred: &Cred,
    path: Bytes,
    now: Time,
    fileid: u64,
) -> Result<Outcome, Halt>
    ensures { Has result (changing.making_link d name.now s cred.now path now fileid) }
{
    let n = Node {
        size: path.as_slice().len() as u64,
        ..new_node(Kind::Lnk, 511, s, cred, d, now, fileid)
    };
    let mut changes = making(alloc, d, name, n, now)?;
    changes.push(Change::PutText { fileid, text: path })?;
    let ok = made(alloc, n)?;
    Ok(Outcome::new(changes, Reply::Symlink(Ok(ok))))
}

/// MKNOD in a directory.
pub(crate) fn making_special(
    alloc: Global,
    d: Node,
    name: &[u8],
    s: Special,
    cred: &Cred,
    now: Time,
    fileid: u64,
) -> Result<Outcome, Halt>
    ensures { Has result (changing.making_special d name.now (found.special s) cred.now now fileid) }
{
    let n = new_special(s, cred, d, now, fileid);
    let changes = making(alloc, d, name, n, now)?;
    let ok = made(alloc, n)?;
    Ok(Outcome::new(changes, Reply::Mknod(Ok(ok))))
}

// One name of an object less, and without a name the object goes.
fn dropped(n: Node, now: Time) -> Change
    ensures { change_of result ≡ changing.dropped n now }
{
    if is_last(n) {
        Change::TakeNode(n.fileid)
    } else {
        Change::PutNode {
            fileid: n.fileid,
            node: with_fewer_links(n, now),
        }
    }
}

fn unlinking(alloc: Global, d: Node, name: &[u8], n: Node, now: Time) -> Result<Changes, NoMemory>
    ensures { IfOk result (λ changes. changes ≡ changing.unlinking d name.now n now) }
{
    let place = Place::of(alloc, d.fileid, name)?;
    let mut changes = Changes::new(alloc);
    changes.push(Change::PutNode {
        fileid: d.fileid,
        node: without_name(d, n.kind, now),
    })?;
    changes.push(Change::TakeName(place))?;
    changes.push(dropped(n, now))?;
    Ok(changes)
}

/// REMOVE of a name.
pub(crate) fn removal(
    alloc: Global,
    d: Node,
    name: &[u8],
    n: Node,
    now: Time,
) -> Result<Outcome, NoMemory>
    ensures { IfOk result (λ o. o ≡ changing.removal d name.now n now) }
{
    let changes = unlinking(alloc, d, name, n, now)?;
    let answer = Reply::Remove {
        status: Status::Ok,
        wcc: no_wcc(),
    };
    Ok(Outcome::new(changes, answer))
}

/// RMDIR of a name.
pub(crate) fn directory_removal(
    alloc: Global,
    d: Node,
    name: &[u8],
    n: Node,
    now: Time,
) -> Result<Outcome, NoMemory>
    ensures { IfOk result (λ o. o ≡ changing.directory_removal d name.now n now) }
{
    let changes = unlinking(alloc, d, name, n, now)?;
    let answer = Reply::Rmdir {
        status: Status::Ok,
        wcc: no_wcc(),
    };
    Ok(Outcome::new(changes, answer))
}

// The object at the new name goes, if there is one.
fn drop_target(changes: &mut Changes, target: Option<Node>, now: Time) -> Result<(), NoMemory>
    ensures { OnOk result (changes.new ≡ changes.old ++ changing.dropping target now) }
{
    match target {
        Some(t) => changes.push(dropped(t, now)),
        None => Ok(()),
    }
}

// What a RENAME that moves an object changes.
fn moving(
    alloc: Global,
    from: Node,
    name: &[u8],
    to: Node,
    to_name: &[u8],
    n: Node,
    target: Option<Node>,
    now: Time,
) -> Result<Changes, Halt>
    ensures { Makes result (changing.renaming from name.now to to_name.now n target now).changes }
{
    let less = without_name(from, n.kind, now);
    let into = freed(destination(from, less, to), target, now);
    let more = with_name(into, n.kind, now)?;
    let entry = entry_to(n, into)?;
    let old_place = Place::of(alloc, from.fileid, name)?;
    let new_place = Place::of(alloc, to.fileid, to_name)?;
    let mut changes = Changes::new(alloc);
    changes.push(Change::PutNode {
        fileid: from.fileid,
        node: less,
    })?;
    changes.push(Change::PutNode {
        fileid: to.fileid,
        node: more,
    })?;
    changes.push(Change::TakeName(old_place))?;
    changes.push(Change::PutName {
        place: new_place,
        entry,
    })?;
    drop_target(&mut changes, target, now)?;
    put_other(&mut changes, n, moved(n, to.fileid, now))?;
    Ok(changes)
}

/// RENAME of a name.
pub(crate) fn renamed(
    alloc: Global,
    at: Renamed,
    name: &[u8],
    to_name: &[u8],
    now: Time,
) -> Result<Outcome, Halt>
    ensures { Has result (found.renamed name.now to_name.now now at) }
{
    let answer = Reply::Rename {
        status: Status::Ok,
        from: no_wcc(),
        to: no_wcc(),
    };
    match at {
        Renamed::Same => Ok(Outcome::answering(alloc, answer)),
        Renamed::Moved {
            from,
            to,
            object,
            target,
        } => {
            let changes = moving(alloc, from, name, to, to_name, object, target, now)?;
            Ok(Outcome::new(changes, answer))
        }
    }
}

/// LINK of an object.
pub(crate) fn linking(
    alloc: Global,
    d: Node,
    name: &[u8],
    n: Node,
    now: Time,
) -> Result<Outcome, Halt>
    ensures { Has result (changing.linking d name.now n now) }
{
    let more = with_more_links(n, now)?;
    let changes = making(alloc, d, name, more, now)?;
    let answer = Reply::Link {
        status: Status::Ok,
        attributes: Some(attributes(more)),
        wcc: no_wcc(),
    };
    Ok(Outcome::new(changes, answer))
}

/// COMMIT of a file.
pub(crate) fn committing(alloc: Global, n: Node, verifier: u64) -> Result<Outcome, NoMemory>
    ensures { IfOk result (λ o. o ≡ looking.committing n verifier) }
{
    let mut changes = Changes::new(alloc);
    changes.push(Change::PutNode {
        fileid: n.fileid,
        node: n,
    })?;
    let answer = Reply::Commit(Ok(CommitOk {
        wcc: wcc_of(n),
        verifier,
    }));
    Ok(Outcome::new(changes, answer))
}
