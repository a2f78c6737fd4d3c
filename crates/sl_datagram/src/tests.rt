use super::*;
use sl_types::{Call, Handle, Kind};
use std::alloc::Global;
use std::test::Fail;

/// A GETATTR of the handle `root`, made for nobody: xid 5, a call, RPC version 2, program 100003, version 3, procedure 1,
/// no credential and no verifier.
const GETATTR: &[u8] =
    b"\0\0\0\x05\0\0\0\0\0\0\0\x02\0\x01\x86\xa3\0\0\0\x03\0\0\0\x01\0\0\0\0\0\0\0\0\0\0\0\0\0\0\0\0\0\0\0\x04root";

/// How many bytes of it are its header.
const HEADER: usize = 40;

/// The reply that its arguments can't be read.
const GARBAGE: &[u8] = b"\0\0\0\x05\0\0\0\x01\0\0\0\0\0\0\0\0\0\0\0\0\0\0\0\x04";

/// A NULL call: xid 9 and procedure 0.
const NULL: &[u8] =
    b"\0\0\0\x09\0\0\0\0\0\0\0\x02\0\x01\x86\xa3\0\0\0\x03\0\0\0\0\0\0\0\0\0\0\0\0\0\0\0\0\0\0\0\0";

/// Its empty result.
const DONE: &[u8] = b"\0\0\0\x09\0\0\0\x01\0\0\0\0\0\0\0\0\0\0\0\0\0\0\0\0";

/// A call of program 100004, with xid 9, and the reply that it isn't there.
const MOUNT: &[u8] =
    b"\0\0\0\x09\0\0\0\0\0\0\0\x02\0\x01\x86\xa4\0\0\0\x03\0\0\0\0\0\0\0\0\0\0\0\0\0\0\0\0\0\0\0\0";

const UNAVAILABLE: &[u8] = b"\0\0\0\x09\0\0\0\x01\0\0\0\0\0\0\0\0\0\0\0\0\0\0\0\x01";

/// The object of a GETATTR that is asked, and no bytes of any other datagram.
fn object_of(datagram: &Datagram) -> &[u8] {
    match datagram {
        Datagram::Asked(
            Asked {
                call: Call::Getattr { object },
                ..
            },
        ) => object.as_slice(),
        _ => &[],
    }
}

#[test]
fn a_call_is_asked(rt: HostRuntime) -> Result<(), Fail> {
    let datagram = read_datagram(rt.alloc(), GETATTR)?;
    assert_eq!(rt; object_of(&datagram), b"root".as_slice());
    Ok(())
}

/// The number and the procedure of a call that is asked.
fn numbers_of(datagram: &Datagram) -> Option<(u32, u32)> {
    match datagram {
        Datagram::Asked(asked) => Some((asked.xid, asked.procedure)),
        _ => None,
    }
}

#[test]
fn an_asked_call_has_its_numbers(rt: HostRuntime) -> Result<(), Fail> {
    let datagram = read_datagram(rt.alloc(), GETATTR)?;
    assert_eq!(rt; numbers_of(&datagram), Some((5, 1)));
    Ok(())
}

#[test]
fn what_its_header_answers_is_answered(rt: HostRuntime) -> Result<(), Fail> {
    for (call, reply) in [(NULL, DONE), (MOUNT, UNAVAILABLE)] {
        match read_datagram(rt.alloc(), call)? {
            Datagram::Answered(answer) => assert_eq!(rt; answer.as_slice(), reply),
            _ => assert!(rt; false),
        }
    }
    Ok(())
}

#[test]
fn arguments_that_end_early_are_garbage(rt: HostRuntime) -> Result<(), Fail> {
    for length in HEADER..GETATTR.len() {
        match read_datagram(rt.alloc(), &GETATTR[..length])? {
            Datagram::Answered(answer) => assert_eq!(rt; answer.as_slice(), GARBAGE),
            _ => assert!(rt; false),
        }
    }
    Ok(())
}

#[test]
fn a_header_that_ends_early_is_junk(rt: HostRuntime) -> Result<(), Fail> {
    for length in 0..HEADER {
        assert!(rt;
            matches!(
                read_datagram(rt.alloc(), &GETATTR[..length])?,
                Datagram::Junk
            )
        );
    }
    Ok(())
}

/// A COMMIT of the same handle: procedure 21, from the first byte to the last.
const COMMIT: &[u8] =
    b"\0\0\0\x05\0\0\0\0\0\0\0\x02\0\x01\x86\xa3\0\0\0\x03\0\0\0\x15\0\0\0\0\0\0\0\0\0\0\0\0\0\0\0\0\0\0\0\x04root\0\0\0\0\0\0\0\0\0\0\0\0";

/// Whether the call of a packet may change something, and whether it may at least make something stable.
fn changes(alloc: Global, packet: &[u8]) -> Option<(bool, bool)> {
    match read_datagram(alloc, packet).ok()? {
        Datagram::Asked(asked) => Some((is_changing(&asked.call), may_change(&asked.call))),
        _ => None,
    }
}

#[test]
fn a_getattr_changes_nothing(rt: HostRuntime) {
    assert_eq!(rt; changes(rt.alloc(), GETATTR), Some((false, false)));
}

#[test]
fn a_commit_changes_nothing_and_makes_stable(rt: HostRuntime) {
    assert_eq!(rt; changes(rt.alloc(), COMMIT), Some((false, true)));
}

#[test]
fn a_handle_leads_to_its_fileid(rt: HostRuntime) {
    let handle = Handle {
        volume: 1,
        fileid: 9,
        kind: Kind::Reg,
    };
    assert_eq!(rt; fileid_of(&handle.bytes()), 9);
    assert_eq!(rt; fileid_of(b"root"), 0);
}
