//! What calls answer on a new volume, and what becomes of unstable writes.
use sl_plain::Volume;
use sl_types::{
    Bytes, Call, Choice, CreateHow, Cred, Fh, Gids, Handle, Kind, Name, NoMemory, Reply, Stable,
    Status, Time,
};
use std::alloc::Global;
use std::test::Fail;

const ROOT: Handle = Handle {
    volume: 7,
    fileid: 1,
    kind: Kind::Dir,
};

const MOMENT: Time = Time { sec: 5, nsec: 6 };

fn bytes(alloc: Global, text: &[u8]) -> Result<Bytes, NoMemory> {
    match Vec::from_slice(alloc, text) {
        Ok(bytes) => Ok(Bytes::new(bytes)),
        Err(_) => Err(NoMemory),
    }
}

// The call's reply, which this volume gives with fileid 2 for what the call makes.
fn reply_to(alloc: Global, volume: &mut Volume, call: &Call) -> Result<Reply, Fail> {
    let cred = Cred {
        uid: 1,
        gid: 2,
        gids: Gids::new(),
    };
    let choice = Choice {
        fileid: 2,
        kept: false,
    };
    Ok(volume.perform(alloc, call, &cred, MOMENT, &choice)?)
}

// A REMOVE of this name, in the directory of this handle.
fn remove(alloc: Global, handle: &[u8], name: &[u8]) -> Result<Call, NoMemory> {
    Ok(Call::Remove {
        dir: Fh::new(bytes(alloc, handle)?),
        name: Name::new(bytes(alloc, name)?),
    })
}

// How a REMOVE has ended.
fn status_of(reply: &Reply) -> Status {
    match reply {
        Reply::Remove { status, .. } => *status,
        _ => Status::Ok,
    }
}

// How a REMOVE of this name, in the directory of this handle, ends on this volume.
fn removed(alloc: Global, volume: &mut Volume, handle: &[u8], name: &[u8]) -> Result<Status, Fail> {
    let call = remove(alloc, handle, name)?;
    let reply = reply_to(alloc, volume, &call)?;
    Ok(status_of(&reply))
}

/// The root's handle, of another volume.
const ELSEWHERE: Handle = Handle { volume: 8, ..ROOT };

/// The root's fileid in a file's handle.
const FILE: Handle = Handle {
    kind: Kind::Reg,
    ..ROOT
};

#[test]
fn a_handle_of_no_form_is_told_before_its_name(rt: HostRuntime) -> Result<(), Fail> {
    let mut volume = Volume::new(rt.alloc(), 7)?;
    let status = removed(rt.alloc(), &mut volume, b"SLH1", b"")?;
    assert_eq!(rt; status, Status::BadHandle);
    Ok(())
}

#[test]
fn a_name_of_no_form_is_told_before_a_stale_handle(rt: HostRuntime) -> Result<(), Fail> {
    let mut volume = Volume::new(rt.alloc(), 7)?;
    let status = removed(rt.alloc(), &mut volume, &ELSEWHERE.bytes(), b"a/")?;
    assert_eq!(rt; status, Status::Acces);
    Ok(())
}

#[test]
fn a_stale_handle_is_told_before_a_dot(rt: HostRuntime) -> Result<(), Fail> {
    let mut volume = Volume::new(rt.alloc(), 7)?;
    let elsewhere = removed(rt.alloc(), &mut volume, &ELSEWHERE.bytes(), b".")?;
    assert_eq!(rt; elsewhere, Status::Stale);
    let file = removed(rt.alloc(), &mut volume, &FILE.bytes(), b".")?;
    assert_eq!(rt; file, Status::Stale);
    Ok(())
}

#[test]
fn a_dot_is_told_before_a_name_that_is_not_there(rt: HostRuntime) -> Result<(), Fail> {
    let mut volume = Volume::new(rt.alloc(), 7)?;
    let dots = removed(rt.alloc(), &mut volume, &ROOT.bytes(), b"..")?;
    assert_eq!(rt; dots, Status::Inval);
    let absent = removed(rt.alloc(), &mut volume, &ROOT.bytes(), b"a")?;
    assert_eq!(rt; absent, Status::NoEnt);
    Ok(())
}

// The handle of the file with fileid 2.
fn file(alloc: Global) -> Result<Fh, NoMemory> {
    let handle = Handle {
        volume: 7,
        fileid: 2,
        kind: Kind::Reg,
    };
    Ok(Fh::new(bytes(alloc, &handle.bytes())?))
}

/// A volume with a file, and an unstable write of two bytes at offset 3.
pub(crate) fn written(alloc: Global) -> Result<Volume, Fail> {
    let mut volume = Volume::new(alloc, 7)?;
    let create = Call::Create {
        dir: Fh::new(bytes(alloc, &ROOT.bytes())?),
        name: Name::new(bytes(alloc, b"f")?),
        how: CreateHow::Exclusive(9),
    };
    reply_to(alloc, &mut volume, &create)?;
    let write = Call::Write {
        file: file(alloc)?,
        offset: 3,
        count: 2,
        stable: Stable::Unstable,
        bytes: bytes(alloc, b"xy")?,
    };
    reply_to(alloc, &mut volume, &write)?;
    Ok(volume)
}

// A READ of four bytes of the file, from offset 2 on, performed.
fn read(alloc: Global, volume: &mut Volume) -> Result<Reply, Fail> {
    let read = Call::Read {
        file: file(alloc)?,
        offset: 2,
        count: 4,
    };
    reply_to(alloc, volume, &read)
}

// Whether a READ has ended with these bytes.
fn has_bytes(reply: &Reply, bytes: &[u8]) -> bool {
    match reply {
        Reply::Read(Ok(ok)) => ok.bytes.as_slice() == bytes,
        _ => false,
    }
}

#[test]
fn an_unstable_write_is_seen(rt: HostRuntime) -> Result<(), Fail> {
    let mut volume = written(rt.alloc())?;
    assert_eq!(rt; volume.seen(2).map_or(0, |n| n.size), 5);
    assert_eq!(rt; volume.node(2).map_or(9, |n| n.size), 0);
    assert!(rt; has_bytes(&read(rt.alloc(), &mut volume)?, b"\0xy"));
    Ok(())
}

#[test]
fn an_unstable_write_is_lost_by_a_restart(rt: HostRuntime) -> Result<(), Fail> {
    let mut volume = written(rt.alloc())?;
    volume.restart(rt.alloc(), 8);
    assert_eq!(rt; volume.verifier(), 8);
    assert!(rt; has_bytes(&read(rt.alloc(), &mut volume)?, b""));
    Ok(())
}

#[test]
fn a_flush_keeps_what_was_written(rt: HostRuntime) -> Result<(), Fail> {
    let mut volume = written(rt.alloc())?;
    volume.flush(2)?;
    volume.restart(rt.alloc(), 8);
    assert_eq!(rt; volume.node(2).map_or(0, |n| n.size), 5);
    assert!(rt; has_bytes(&read(rt.alloc(), &mut volume)?, b"\0xy"));
    Ok(())
}
