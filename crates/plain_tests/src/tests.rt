//! Each public function of the plain server, once where it succeeds: no contract says that memory is left.
use sl_model::{Entry, Node};
use sl_plain::{
    Names, Nodes, Pending, Place, Texts, UnstableWrites, Used, Volume, Written, perform_plain,
};
use sl_types::{
    Bytes, Call, Choice, Cred, Fh, Gids, Handle, Kind, Name, NoMemory, Sattr, SetTime, Time,
};
use std::alloc::Global;
use std::test::Fail;

const ROOT: Handle = Handle {
    volume: 7,
    fileid: 1,
    kind: Kind::Dir,
};

const MOMENT: Time = Time { sec: 5, nsec: 6 };

const ENTRY: Entry = Entry {
    fileid: 2,
    kind: Kind::Reg,
    cookie: 3,
};

const FILE: Node = Node {
    kind: Kind::Reg,
    mode: 420,
    nlink: 1,
    uid: 0,
    gid: 0,
    size: 0,
    major: 0,
    minor: 0,
    fsid: 7,
    fileid: 2,
    atime: MOMENT,
    mtime: MOMENT,
    ctime: MOMENT,
    parent: 0,
    entries: 0,
    made: 0,
    verifier: None,
};

fn bytes(alloc: Global, text: &[u8]) -> Result<Bytes, NoMemory> {
    match Vec::from_slice(alloc, text) {
        Ok(bytes) => Ok(Bytes::new(bytes)),
        Err(_) => Err(NoMemory),
    }
}

// MKDIR of `d` in the root.
fn mkdir(alloc: Global) -> Result<Call, NoMemory> {
    let dir = Fh::new(bytes(alloc, &ROOT.bytes())?);
    let name = Name::new(bytes(alloc, b"d")?);
    Ok(Call::Mkdir {
        dir,
        name,
        attributes: Sattr {
            mode: None,
            uid: None,
            gid: None,
            size: None,
            atime: SetTime::Keep,
            mtime: SetTime::Keep,
        },
    })
}

// A volume after that call.
fn volume_with_a_directory(alloc: Global, volume: &Volume) -> Result<Volume, Fail> {
    let call = mkdir(alloc)?;
    let caller = Cred {
        uid: 1,
        gid: 2,
        gids: Gids::new(),
    };
    let choice = Choice {
        fileid: 2,
        kept: false,
    };
    let (after, _) = perform_plain(volume, &call, &caller, MOMENT, &choice)?;
    Ok(after)
}

#[test]
fn a_call_on_a_copy_leaves_the_volume_as_it_was(rt: HostRuntime) -> Result<(), Fail> {
    let volume = Volume::new(rt.alloc(), 7)?;
    let after = volume_with_a_directory(rt.alloc(), &volume)?;
    let place = Place::of(rt.alloc(), 1, b"d")?;
    assert_eq!(rt; volume.entry_at(&place), None);
    assert_eq!(rt; after.entry_at(&place).map_or(0, |entry| entry.fileid), 2);
    Ok(())
}

#[test]
fn a_volume_is_copied_flushed_and_restarted(rt: HostRuntime) -> Result<(), Fail> {
    let volume = Volume::new(rt.alloc(), 7)?;
    let mut copy = volume.copy()?;
    copy.flush(1)?;
    copy.restart(rt.alloc(), 9);
    assert_eq!(rt; copy.verifier(), 9);
    assert_eq!(rt; copy.was_used(1), volume.was_used(1));
    assert_eq!(rt; copy.is_unstable(1), false);
    assert_eq!(rt; copy.node(1), volume.node(1));
    assert_eq!(rt; copy.seen(1), volume.seen(1));
    Ok(())
}

#[test]
fn nodes_are_put_copied_and_taken(rt: HostRuntime) -> Result<(), Fail> {
    let mut nodes = Nodes::new(rt.alloc());
    nodes.put(2, FILE)?;
    let copy = nodes.copy(rt.alloc())?;
    nodes.take(2);
    assert_eq!(rt; nodes.len(), 0);
    assert_eq!(rt; copy.len(), 1);
    assert_eq!(rt; copy.get(2), Some(FILE));
    Ok(())
}

#[test]
fn names_are_put_copied_and_taken(rt: HostRuntime) -> Result<(), Fail> {
    let mut names = Names::new(rt.alloc());
    names.put(Place::of(rt.alloc(), 1, b"f")?, ENTRY)?;
    let copy = names.copy(rt.alloc())?;
    let place = Place::of(rt.alloc(), 1, b"f")?;
    names.take(&place);
    assert_eq!(rt; names.get(&place), None);
    assert_eq!(rt; copy.get(&place), Some(ENTRY));
    Ok(())
}

#[test]
fn texts_are_put_copied_and_taken(rt: HostRuntime) -> Result<(), Fail> {
    let mut texts = Texts::new(rt.alloc());
    texts.put(2, bytes(rt.alloc(), b"path")?)?;
    let copy = texts.copy(rt.alloc())?;
    texts.take(2);
    assert_eq!(rt; texts.copy_of(rt.alloc(), 2)?.as_slice(), b"".as_slice());
    assert_eq!(rt; copy.copy_of(rt.alloc(), 2)?.as_slice(), b"path".as_slice());
    Ok(())
}

#[test]
fn used_fileids_are_put_and_copied(rt: HostRuntime) -> Result<(), Fail> {
    let mut used = Used::new(rt.alloc());
    used.put(2)?;
    let copy = used.copy(rt.alloc())?;
    assert_eq!(rt; copy.has(2), true);
    assert_eq!(rt; copy.has(3), false);
    Ok(())
}

// An unstable write of two bytes at offset 3.
fn pending(alloc: Global) -> Result<Pending, NoMemory> {
    let Ok(bytes) = b"xy".to_vec(alloc) else {
        return Err(NoMemory);
    };
    Ok(Pending {
        fileid: 2,
        offset: 3,
        bytes: Bytes::new(bytes),
        moment: MOMENT,
    })
}

#[test]
fn unstable_writes_are_pushed_copied_and_forgotten(rt: HostRuntime) -> Result<(), Fail> {
    let mut writes = UnstableWrites::new(rt.alloc());
    writes.push(pending(rt.alloc())?)?;
    let copy = writes.copy()?;
    writes.forget(2);
    assert_eq!(rt; writes.has(2), false);
    assert_eq!(rt; copy.has(2), true);
    assert_eq!(rt; writes.as_slice().len(), 0);
    assert_eq!(rt; copy.after(FILE).size, 5);
    assert_eq!(rt; copy.byte_after(2, 4, b'a'), b'y');
    Ok(())
}

#[test]
fn written_bytes_are_put_copied_and_cut(rt: HostRuntime) -> Result<(), Fail> {
    let mut written = Written::new(rt.alloc());
    written.put(2, 0, b'a')?;
    written.put_all(2, 1, b"bc")?;
    let copy = written.copy(rt.alloc())?;
    written.cut(2, 1);
    assert_eq!(rt; written.at(2, 0), b'a');
    assert_eq!(rt; written.at(2, 1), 0);
    assert_eq!(rt; copy.at(2, 2), b'c');
    Ok(())
}

#[test]
fn unstable_writes_are_put_among_written_bytes(rt: HostRuntime) -> Result<(), Fail> {
    let mut writes = UnstableWrites::new(rt.alloc());
    writes.push(pending(rt.alloc())?)?;
    let mut written = Written::new(rt.alloc());
    written.put_writes(2, writes.as_slice())?;
    assert_eq!(rt; written.at(2, 3), b'x');
    Ok(())
}
