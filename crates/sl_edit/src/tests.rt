ghost use Rattle.std.specs.Prelude.{◌≡◌, is_some, length, IsSome};
ghost use Rattle.sl_edit.specs.Edits.{Edited, bytes_if};
ghost use Rattle.sl_edit.specs.Spans as spans;

use super::*;
use sl_calls::{read_args, write_args};
use sl_types::{Fattr, Kind, Time};
use sl_xdr::put_u32;
use std::alloc::Global;
use std::test::Fail;

/// The bytes of these numbers.
fn text(alloc: Global, numbers: &[u32]) -> Result<Vec<u8>, Fail> {
    let mut out = Vec::new(alloc);
    for number in numbers {
        put_u32(&mut out, *number)?;
    }
    Ok(out)
}

/// A packet that begins with these numbers.
fn packet_of(alloc: Global, head: &[u32], numbers: &[u32]) -> Result<Vec<u8>, Fail> {
    let mut out = text(alloc, head)?;
    for number in numbers {
        put_u32(&mut out, *number)?;
    }
    Ok(out)
}

/// A call of procedure 3 and others by AUTH_NONE, up to its arguments; the sixth number is the procedure.
const LOOKUP: [u32; 10] = [5, 0, 2, 100_003, 3, 3, 0, 0, 0, 0];

const READ: [u32; 10] = [5, 0, 2, 100_003, 3, 6, 0, 0, 0, 0];

const WRITE: [u32; 10] = [5, 0, 2, 100_003, 3, 7, 0, 0, 0, 0];

/// An accepted reply, up to its results.
const REPLY: [u32; 6] = [5, 1, 0, 0, 0, 0];

#[test]
fn an_xid_is_written_and_padding_stays(rt: HostRuntime) -> Result<(), Fail> {
    // a handle of one byte and the name `a`, with padding of 01 02 03, and more behind
    let arguments = [1, 0x6801_0203, 1, 0x6101_0203, 7];
    let mut call = packet_of(rt.alloc(), &LOOKUP, &arguments)?;
    CallView::new(&mut call).ok_or("no call")?.set_xid(9);
    let mut head = LOOKUP;
    head[0] = 9;
    let expected = packet_of(rt.alloc(), &head, &arguments)?;
    assert_eq!(rt; call.as_slice(), expected.as_slice());
    Ok(())
}

/// The root's handle of volume 1, and a name of one byte with this padding.
fn root_and_name(name: u32) -> [u32; 11] {
    [32, 0x534c_4831, 0, 0, 1, 0, 1, 2, 0, 1, name]
}

/// The arguments of a LOOKUP, read and written anew.
fn written_anew(alloc: Global, args: &[u8]) -> Result<Vec<u8>, Fail> {
    let call = read_args(alloc, 3, args)?;
    let mut out = Vec::new(alloc);
    write_args(&call, &mut out)?;
    Ok(out)
}

/// A LOOKUP of the name `a` in the root, with padding of 01 02 03, after another xid was written.
fn edited_lookup(alloc: Global) -> Result<Vec<u8>, Fail> {
    let mut call = packet_of(alloc, &LOOKUP, &root_and_name(0x6101_0203))?;
    CallView::new(&mut call).ok_or("no call")?.set_xid(9);
    Ok(call)
}

#[test]
fn the_padding_of_a_lookup_stays(rt: HostRuntime) -> Result<(), Fail> {
    let call = edited_lookup(rt.alloc())?;
    let mut head = LOOKUP;
    head[0] = 9;
    let expected = packet_of(rt.alloc(), &head, &root_and_name(0x6101_0203))?;
    assert_eq!(rt; call.as_slice(), expected.as_slice());
    Ok(())
}

#[test]
fn what_is_written_anew_has_zero_padding(rt: HostRuntime) -> Result<(), Fail> {
    let call = edited_lookup(rt.alloc())?;
    let (_, args) = call.as_slice().split_at_checked(40).ok_or("short")?;
    let anew = written_anew(rt.alloc(), args)?;
    let expected = text(rt.alloc(), &root_and_name(0x6100_0000))?;
    assert_eq!(rt; anew.as_slice(), expected.as_slice());
    Ok(())
}

/// Writes the i-th handle through its slot. Its caller knows of the packet what it would after `set_handle`.
fn write_handle(view: &mut CallView<'_>, i: u8, handle: &[u8])
    requires present { IsSome (spans.handle_span i view.old.now) }
    requires size { length (bytes_if view.old.now (spans.handle_span i view.old.now)) ≡ length handle.now }
    ensures same_packet { view.new.ghost_name ≡ view.old.ghost_name }
    ensures edited { Edited (spans.handle_span i view.old.now) handle.now view.old.now view.new.now }
{
    view.handle_slot(i).copy_from_slice(handle);
}

/// The same of attributes.
fn write_attributes(view: &mut ReplyView<'_>, attributes: &[u8; 84]) -> bool
    ensures same_packet { (view.new.procedure ≡ view.old.procedure) × (view.new.packet.ghost_name ≡ view.old.packet.ghost_name) }
    ensures edited { Edited (spans.attributes_span view.old.procedure view.old.packet.now) attributes.now view.old.packet.now view.new.packet.now }
    ensures done { result ≡ is_some (spans.attributes_span view.old.procedure view.old.packet.now) }
{
    match view.attr_slot() {
        Some(slot) => {
            *slot = *attributes;
            true
        }
        None => false,
    }
}

#[test]
fn a_handle_is_lent(rt: HostRuntime) -> Result<(), Fail> {
    let mut call = packet_of(rt.alloc(), &LOOKUP, &root_and_name(0x6101_0203))?;
    let mut view = CallView::new(&mut call).ok_or("no call")?;
    let seven = [7; 32];
    let shown = view.handle(0).ok_or("no handle")?;
    assert_eq!(rt; shown.len(), seven.len());
    write_handle(&mut view, 0, &seven);
    let word = 0x0707_0707;
    let arguments = [
        32,
        word,
        word,
        word,
        word,
        word,
        word,
        word,
        word,
        1,
        0x6101_0203,
    ];
    let expected = packet_of(rt.alloc(), &LOOKUP, &arguments)?;
    assert_eq!(rt; call.as_slice(), expected.as_slice());
    Ok(())
}

#[test]
fn handles_of_any_length_are_lent(rt: HostRuntime) -> Result<(), Fail> {
    // a handle of one byte, one of none and the name `a`, with padding of 01 02 03
    let mut head = LOOKUP;
    head[5] = 15;
    let mut call = packet_of(rt.alloc(), &head, &[1, 0x6801_0203, 0, 1, 0x6101_0203])?;
    let mut view = CallView::new(&mut call).ok_or("no call")?;
    view.handle_mut(0).ok_or("no handle")?.fill(0x6b);
    assert!(rt; view.handle_mut(1).ok_or("no handle")?.is_empty());
    assert!(rt; view.handle_mut(2).is_none());
    let expected = packet_of(rt.alloc(), &head, &[1, 0x6b01_0203, 0, 1, 0x6101_0203])?;
    assert_eq!(rt; call.as_slice(), expected.as_slice());
    Ok(())
}

#[test]
fn handles_are_shown_and_written(rt: HostRuntime) -> Result<(), Fail> {
    // a handle of one byte and the name `a`, with padding of 01 02 03
    let mut call = packet_of(rt.alloc(), &LOOKUP, &[1, 0x6801_0203, 1, 0x6101_0203])?;
    let mut view = CallView::new(&mut call).ok_or("no call")?;
    assert_eq!(rt; view.handle(0).ok_or("no handle")?, b"h".as_slice());
    assert!(rt; view.handle(1).is_none());
    assert!(rt; !view.set_handle(0, b"kk"));
    assert!(rt; view.set_handle(0, b"k"));
    let expected = packet_of(rt.alloc(), &LOOKUP, &[1, 0x6b01_0203, 1, 0x6101_0203])?;
    assert_eq!(rt; call.as_slice(), expected.as_slice());
    Ok(())
}

/// Whether another second handle is written in these arguments of this procedure, and makes those of them.
fn takes_second(
    alloc: Global,
    procedure: u32,
    before: &[u32],
    after: &[u32],
) -> Result<bool, Fail> {
    let mut head = LOOKUP;
    head[5] = procedure;
    let mut call = packet_of(alloc, &head, before)?;
    let done = CallView::new(&mut call)
        .ok_or("no call")?
        .set_handle(1, b"wxyz");
    let expected = packet_of(alloc, &head, after)?;
    Ok(done && call.as_slice() == expected.as_slice())
}

#[test]
fn rename_and_link_have_a_second_handle(rt: HostRuntime) -> Result<(), Fail> {
    let alloc = rt.alloc();
    let before = [0, 1, 0x6101_0203, 4, 0x6162_6364, 0];
    let after = [0, 1, 0x6101_0203, 4, 0x7778_797a, 0];
    assert!(rt; takes_second(alloc, 14, &before, &after)?);
    assert!(rt; takes_second(alloc, 15, &[0, 4, 0x6162_6364, 0], &[0, 4, 0x7778_797a, 0])?);
    Ok(())
}

#[test]
fn attributes_are_lent(rt: HostRuntime) -> Result<(), Fail> {
    let mut reply = reply_with(rt.alloc(), &[0, 1], &OLD_WORDS, &[63])?;
    let mut view = ReplyView::new(4, &mut reply).ok_or("no reply")?;
    assert!(rt; write_attributes(&mut view, &[1; 84]));
    let expected = reply_with(rt.alloc(), &[0, 1], &[0x0101_0101; 21], &[63])?;
    assert_eq!(rt; reply.as_slice(), expected.as_slice());
    Ok(())
}

#[test]
fn what_no_readable_call_is_has_no_view(rt: HostRuntime) -> Result<(), Fail> {
    let call = packet_of(rt.alloc(), &LOOKUP, &[0, 1, 0x6100_0000])?;
    for n in 0..call.len() {
        let (front, _) = call.as_slice().split_at_checked(n).ok_or("short")?;
        let mut front = front.to_vec(rt.alloc())?;
        assert!(rt; CallView::new(&mut front).is_none());
    }
    // another program
    let mut other = text(rt.alloc(), &[5, 0, 2, 100_004, 3, 3, 0, 0, 0, 0, 0, 0])?;
    assert!(rt; CallView::new(&mut other).is_none());
    Ok(())
}

#[test]
fn a_packet_that_is_no_call_stays_as_it_is(rt: HostRuntime) -> Result<(), Fail> {
    // another program
    let numbers = [5, 0, 2, 100_004, 3, 3, 0, 0, 0, 0, 0, 0];
    let mut other = text(rt.alloc(), &numbers)?;
    assert!(rt; CallView::new(&mut other).is_none());
    let expected = text(rt.alloc(), &numbers)?;
    assert_eq!(rt; other.as_slice(), expected.as_slice());
    Ok(())
}

#[test]
fn only_a_read_has_a_count_to_write(rt: HostRuntime) -> Result<(), Fail> {
    let mut call = packet_of(rt.alloc(), &READ, &[3, 0x6162_6307, 0, 8, 4096])?;
    assert!(rt; CallView::new(&mut call).ok_or("no call")?.set_count(100));
    let expected = packet_of(rt.alloc(), &READ, &[3, 0x6162_6307, 0, 8, 100])?;
    assert_eq!(rt; call.as_slice(), expected.as_slice());
    let arguments = [0, 0, 8, 4, 2, 4, 0x6162_6364];
    let mut other = packet_of(rt.alloc(), &WRITE, &arguments)?;
    assert!(rt; !CallView::new(&mut other).ok_or("no call")?.set_count(100));
    let expected = packet_of(rt.alloc(), &WRITE, &arguments)?;
    assert_eq!(rt; other.as_slice(), expected.as_slice());
    Ok(())
}

/// The arguments of a WRITE of `abcde` with padding of 01 02 03, and then of its first bytes, with their number.
const CUTS: [(u32, &[u32]); 4] = [
    (5, &[0, 0, 8, 5, 2, 5, 0x6162_6364, 0x6500_0000]),
    (4, &[0, 0, 8, 4, 2, 4, 0x6162_6364]),
    (2, &[0, 0, 8, 2, 2, 2, 0x6162_0000]),
    (0, &[0, 0, 8, 0, 2, 0]),
];

/// Whether a WRITE that is cut to n bytes has these arguments.
fn is_cut(alloc: Global, n: u32, arguments: &[u32]) -> Result<bool, Fail> {
    let mut call = packet_of(
        alloc,
        &WRITE,
        &[0, 0, 8, 7, 2, 5, 0x6162_6364, 0x6501_0203, 7],
    )?;
    let mut view = CallView::new(&mut call).ok_or("no call")?;
    let length = view.cut_write(n).ok_or("not cut")?;
    let expected = packet_of(alloc, &WRITE, arguments)?;
    let (cut, _) = call.as_slice().split_at_checked(length).ok_or("short")?;
    Ok(cut == expected.as_slice())
}

#[test]
fn a_write_is_cut_to_its_first_bytes(rt: HostRuntime) -> Result<(), Fail> {
    for (n, arguments) in CUTS.iter() {
        assert!(rt; is_cut(rt.alloc(), *n, arguments)?);
    }
    Ok(())
}

#[test]
fn what_has_fewer_bytes_is_not_cut(rt: HostRuntime) -> Result<(), Fail> {
    let arguments = [0, 0, 8, 5, 2, 5, 0x6162_6364, 0x6501_0203];
    let mut call = packet_of(rt.alloc(), &WRITE, &arguments)?;
    assert_eq!(rt;
        CallView::new(&mut call).ok_or("no call")?.cut_write(6),
        None
    );
    let expected = packet_of(rt.alloc(), &WRITE, &arguments)?;
    assert_eq!(rt; call.as_slice(), expected.as_slice());
    let mut read = packet_of(rt.alloc(), &READ, &[0, 0, 8, 4096])?;
    assert_eq!(rt;
        CallView::new(&mut read).ok_or("no call")?.cut_write(0),
        None
    );
    Ok(())
}

/// The attributes of the root of volume 7.
const ROOT: Fattr = Fattr {
    kind: Kind::Dir,
    mode: 0o755,
    nlink: 2,
    uid: 3,
    gid: 4,
    size: 5,
    used: 6,
    major: 8,
    minor: 9,
    fsid: 7,
    fileid: 1,
    atime: Time { sec: 10, nsec: 11 },
    mtime: Time { sec: 12, nsec: 13 },
    ctime: Time { sec: 14, nsec: 15 },
};

/// The same as numbers, and other attributes.
const ROOT_WORDS: [u32; 21] = [
    2, 0o755, 2, 3, 4, 0, 5, 0, 6, 8, 9, 0, 7, 0, 1, 10, 11, 12, 13, 14, 15,
];

const OLD_WORDS: [u32; 21] = [1; 21];

/// What stands before and behind the attributes of the object in results of a procedure.
const ATTRIBUTES: [(u32, &[u32], &[u32]); 9] = [
    (1, &[0], &[]),
    (2, &[0, 1, 1, 2, 3, 4, 5, 6, 1], &[]),
    (3, &[0, 1, 0x6801_0203, 1], &[0]),
    (4, &[0, 1], &[63]),
    (6, &[0, 1], &[2, 1, 2, 0x6162_0304]),
    (7, &[0, 0, 1], &[5, 2, 0, 9]),
    (8, &[0, 1, 1, 0x6801_0203, 1], &[0, 0]),
    (15, &[0, 1], &[0, 0]),
    (21, &[0, 0, 1], &[0, 9]),
];

/// A reply with these attributes between its other results.
fn reply_with(
    alloc: Global,
    before: &[u32],
    attributes: &[u32],
    behind: &[u32],
) -> Result<Vec<u8>, Fail> {
    let mut out = packet_of(alloc, &REPLY, before)?;
    for number in attributes {
        put_u32(&mut out, *number)?;
    }
    for number in behind {
        put_u32(&mut out, *number)?;
    }
    Ok(out)
}

/// Whether the attributes between these results are written.
fn are_written(
    alloc: Global,
    procedure: u32,
    before: &[u32],
    behind: &[u32],
) -> Result<bool, Fail> {
    let mut reply = reply_with(alloc, before, &OLD_WORDS, behind)?;
    let done = ReplyView::new(procedure, &mut reply)
        .ok_or("no reply")?
        .patch_attr(&ROOT);
    let expected = reply_with(alloc, before, &ROOT_WORDS, behind)?;
    Ok(done && reply.as_slice() == expected.as_slice())
}

#[test]
fn the_attributes_of_the_object_are_written(rt: HostRuntime) -> Result<(), Fail> {
    for (procedure, before, behind) in ATTRIBUTES.iter() {
        assert!(rt; are_written(rt.alloc(), *procedure, before, behind)?);
    }
    Ok(())
}

/// Results without attributes of the object: absent ones, failures, and procedures that give none.
const BARE: [(u32, &[u32]); 6] = [
    (1, &[70]),
    (3, &[0, 0, 0, 0]),
    (7, &[0, 0, 0, 5, 2, 0, 9]),
    (12, &[0, 0, 0]),
    (2, &[70, 0, 0]),
    (16, &[0, 0, 0, 0, 0, 1]),
];

/// Whether no attributes are written in these results.
fn are_left(alloc: Global, procedure: u32, results: &[u32]) -> Result<bool, Fail> {
    let mut reply = packet_of(alloc, &REPLY, results)?;
    let done = ReplyView::new(procedure, &mut reply)
        .ok_or("no reply")?
        .patch_attr(&ROOT);
    let expected = packet_of(alloc, &REPLY, results)?;
    Ok(!done && reply.as_slice() == expected.as_slice())
}

#[test]
fn absent_attributes_are_not_written(rt: HostRuntime) -> Result<(), Fail> {
    for (procedure, results) in BARE.iter() {
        assert!(rt; are_left(rt.alloc(), *procedure, results)?);
    }
    Ok(())
}

/// An edit of a reply.
#[derive(Clone, Copy)]
enum Edit {
    Verifier(u64),
    EndMark(bool),
    Restore,
}

/// What the edit answers.
fn apply(view: &mut ReplyView<'_>, edit: Edit) -> bool {
    match edit {
        Edit::Verifier(verifier) => view.set_verifier(verifier),
        Edit::EndMark(eof) => view.set_eof(eof),
        Edit::Restore => view.restore_handle(),
    }
}

/// Whether the edit says that it was made, and makes these results of those.
fn makes(
    alloc: Global,
    procedure: u32,
    before: &[u32],
    edit: Edit,
    after: &[u32],
) -> Result<bool, Fail> {
    let mut reply = packet_of(alloc, &REPLY, before)?;
    let done = apply(
        &mut ReplyView::new(procedure, &mut reply).ok_or("no reply")?,
        edit,
    );
    let expected = packet_of(alloc, &REPLY, after)?;
    Ok(done && reply.as_slice() == expected.as_slice())
}

/// Whether the edit says that there is nothing to edit, and leaves the results as they are.
fn leaves(alloc: Global, procedure: u32, results: &[u32], edit: Edit) -> Result<bool, Fail> {
    let mut reply = packet_of(alloc, &REPLY, results)?;
    let done = apply(
        &mut ReplyView::new(procedure, &mut reply).ok_or("no reply")?,
        edit,
    );
    let expected = packet_of(alloc, &REPLY, results)?;
    Ok(!done && reply.as_slice() == expected.as_slice())
}

#[test]
fn write_and_commit_have_a_verifier(rt: HostRuntime) -> Result<(), Fail> {
    let alloc = rt.alloc();
    let edit = Edit::Verifier(0x0000_0001_0000_0002);
    assert!(rt;
        makes(
            alloc,
            7,
            &[0, 0, 0, 5, 2, 0, 9],
            edit,
            &[0, 0, 0, 5, 2, 1, 2]
        )?
    );
    assert!(rt; makes(alloc, 21, &[0, 0, 0, 0, 9], edit, &[0, 0, 0, 1, 2])?);
    assert!(rt; leaves(alloc, 6, &[0, 0, 2, 0, 2, 0x6162_0304], edit)?);
    Ok(())
}

#[test]
fn read_and_listings_have_an_end_mark(rt: HostRuntime) -> Result<(), Fail> {
    let alloc = rt.alloc();
    let before = [0, 0, 2, 0, 2, 0x6162_0304];
    let after = [0, 0, 2, 1, 2, 0x6162_0304];
    assert!(rt; makes(alloc, 6, &before, Edit::EndMark(true), &after)?);
    assert!(rt;
        makes(
            alloc,
            16,
            &[0, 0, 0, 0, 0, 1],
            Edit::EndMark(false),
            &[0, 0, 0, 0, 0, 0]
        )?
    );
    assert!(rt; leaves(alloc, 7, &[0, 0, 0, 5, 2, 0, 9], Edit::EndMark(true))?);
    Ok(())
}

#[test]
fn a_handle_of_32_bytes_becomes_a_clients(rt: HostRuntime) -> Result<(), Fail> {
    let alloc = rt.alloc();
    // site 3 and actor 4 stand in its last four bytes
    let made = [0, 1, 32, 1, 2, 3, 4, 5, 6, 7, 0x0003_0004, 0, 0, 0];
    let restored = [0, 1, 32, 1, 2, 3, 4, 5, 6, 7, 0, 0, 0, 0];
    assert!(rt; makes(alloc, 9, &made, Edit::Restore, &restored)?);
    let found = [0, 32, 1, 2, 3, 4, 5, 6, 7, 0x0003_0004, 0, 0];
    let restored = [0, 32, 1, 2, 3, 4, 5, 6, 7, 0, 0, 0];
    assert!(rt; makes(alloc, 3, &found, Edit::Restore, &restored)?);
    // a handle of 4 bytes, and none
    assert!(rt; leaves(alloc, 8, &[0, 1, 4, 9, 0, 0, 0], Edit::Restore)?);
    assert!(rt; leaves(alloc, 8, &[0, 0, 0, 0, 0], Edit::Restore)?);
    Ok(())
}

#[test]
fn a_reply_takes_another_xid(rt: HostRuntime) -> Result<(), Fail> {
    let mut reply = packet_of(rt.alloc(), &REPLY, &[70])?;
    ReplyView::new(1, &mut reply).ok_or("no reply")?.set_xid(8);
    let expected = text(rt.alloc(), &[8, 1, 0, 0, 0, 0, 70])?;
    assert_eq!(rt; reply.as_slice(), expected.as_slice());
    Ok(())
}

#[test]
fn a_call_is_edited_with_no_view(rt: HostRuntime) -> Result<(), Fail> {
    // a handle of one byte and the name `a`, with padding of 01 02 03
    let mut call = packet_of(rt.alloc(), &LOOKUP, &[1, 0x6801_0203, 1, 0x6101_0203])?;
    assert!(rt; packet::is_call(&call));
    assert!(rt; packet::set_xid(&mut call, 9));
    assert!(rt; packet::set_handle(&mut call, 0, b"k"));
    assert_eq!(rt;
        packet::handle(&call, 0).ok_or("no handle")?,
        b"k".as_slice()
    );
    let mut head = LOOKUP;
    head[0] = 9;
    let expected = packet_of(rt.alloc(), &head, &[1, 0x6b01_0203, 1, 0x6101_0203])?;
    assert_eq!(rt; call.as_slice(), expected.as_slice());
    Ok(())
}

#[test]
fn a_read_and_a_write_are_edited_with_no_view(rt: HostRuntime) -> Result<(), Fail> {
    let mut read = packet_of(rt.alloc(), &READ, &[0, 0, 8, 4096])?;
    assert!(rt; packet::set_count(&mut read, 100));
    let expected = packet_of(rt.alloc(), &READ, &[0, 0, 8, 100])?;
    assert_eq!(rt; read.as_slice(), expected.as_slice());
    let mut write = packet_of(
        rt.alloc(),
        &WRITE,
        &[0, 0, 8, 5, 2, 5, 0x6162_6364, 0x6501_0203],
    )?;
    let length = packet::cut_write(&mut write, 2).ok_or("not cut")?;
    let expected = packet_of(rt.alloc(), &WRITE, &[0, 0, 8, 2, 2, 2, 0x6162_0000])?;
    let (cut, _) = write.as_slice().split_at_checked(length).ok_or("short")?;
    assert_eq!(rt; cut, expected.as_slice());
    Ok(())
}

#[test]
fn a_reply_is_edited_with_no_view(rt: HostRuntime) -> Result<(), Fail> {
    let mut reply = reply_with(rt.alloc(), &[0, 0, 1], &OLD_WORDS, &[5, 2, 0, 9])?;
    assert!(rt; packet::is_reply(&reply, 7));
    assert!(rt; packet::set_attributes(&mut reply, 7, &ROOT));
    assert!(rt; packet::set_verifier(&mut reply, 7, 0x0000_0001_0000_0002));
    let expected = reply_with(rt.alloc(), &[0, 0, 1], &ROOT_WORDS, &[5, 2, 1, 2])?;
    assert_eq!(rt; reply.as_slice(), expected.as_slice());
    Ok(())
}

#[test]
fn marks_and_handles_are_edited_with_no_view(rt: HostRuntime) -> Result<(), Fail> {
    let mut read = packet_of(rt.alloc(), &REPLY, &[0, 0, 2, 0, 2, 0x6162_0304])?;
    assert!(rt; packet::set_eof(&mut read, 6, true));
    let expected = packet_of(rt.alloc(), &REPLY, &[0, 0, 2, 1, 2, 0x6162_0304])?;
    assert_eq!(rt; read.as_slice(), expected.as_slice());
    let mut found = packet_of(
        rt.alloc(),
        &REPLY,
        &[0, 32, 1, 2, 3, 4, 5, 6, 7, 0x0003_0004, 0, 0],
    )?;
    assert!(rt; packet::restore_handle(&mut found, 3));
    let expected = packet_of(rt.alloc(), &REPLY, &[0, 32, 1, 2, 3, 4, 5, 6, 7, 0, 0, 0])?;
    assert_eq!(rt; found.as_slice(), expected.as_slice());
    Ok(())
}
