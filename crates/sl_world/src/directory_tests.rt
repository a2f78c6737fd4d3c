use super::*;
use sl_frames::{Body, Frame};
use sl_types::{Bytes, Handle, InternalHandle, Kind};
use std::alloc::Global;
use std::test::Fail;

/// A directory server of volume 7 that has seen fence 2, and waits for tags from 3 on.
const DIRECTORY: Directory = Directory {
    actor: 16,
    volume: 7,
    site: Site { fence: 2, low: 3 },
};

/// A call without its arguments: xid 5, a call, RPC version 2, program 100003, version 3, procedure 1, no credential and no
/// verifier.
const GETATTR: &[u8] =
    b"\0\0\0\x05\0\0\0\0\0\0\0\x02\0\x01\x86\xa3\0\0\0\x03\0\0\0\x01\0\0\0\0\0\0\0\0\0\0\0\0\0\0\0\0";

/// The same of procedure 18.
const FSSTAT: &[u8] =
    b"\0\0\0\x05\0\0\0\0\0\0\0\x02\0\x01\x86\xa3\0\0\0\x03\0\0\0\x12\0\0\0\0\0\0\0\0\0\0\0\0\0\0\0\0";

/// The lengths of a handle, and of one that is too short.
const WHOLE: &[u8] = b"\0\0\0\x20";

const SHORT: &[u8] = b"\0\0\0\x1f";

/// The reply to an accepted call with xid 5.
const REPLY: &[u8] = b"\0\0\0\x05\0\0\0\x01\0\0\0\0\0\0\0\0\0\0\0\0\0\0\0\0";

/// The results OK with the root's attributes, STALE and BADHANDLE.
const ROOT: &[u8] =
    b"\0\0\0\0\0\0\0\x02\0\0\x01\xed\0\0\0\x02\0\0\0\0\0\0\0\0\0\0\0\0\0\0\0\0\0\0\0\0\0\0\0\0\0\0\0\0\0\0\0\0\0\0\0\0\0\0\0\x07\0\0\0\0\0\0\0\x01\0\0\0\0\0\0\0\0\0\0\0\0\0\0\0\0\0\0\0\0\0\0\0\0";

const STALE: &[u8] = b"\0\0\0\x46";

const BAD_HANDLE: &[u8] = b"\0\0\x27\x11";

/// A handle of volume 7 among the servers.
fn handle(fileid: u64, kind: Kind) -> [u8; 32] {
    let handle = Handle {
        volume: 7,
        fileid,
        kind,
    };
    InternalHandle {
        handle,
        site: 0,
        actor: 16,
    }
    .bytes()
}

/// A call of this front, with a handle of this length.
fn call(
    alloc: Global,
    front: &[u8],
    length: &[u8],
    fileid: u64,
    kind: Kind,
) -> Result<Bytes, Fail> {
    let mut packet = Vec::new(alloc);
    packet.extend_from_slice(front)?;
    packet.extend_from_slice(length)?;
    packet.extend_from_slice(&handle(fileid, kind))?;
    Ok(Bytes::new(packet))
}

/// A packet that the proxy forwards under this fence, with this tag.
fn forward(fence: u64, tag: u64, packet: Bytes) -> Frame {
    Frame {
        from: 0,
        to: 16,
        fence,
        tag,
        low: 4,
        op: 0,
        boot: 0,
        arrival: 1,
        body: Body::Forward { chosen: 0, packet },
    }
}

/// What is sent for a packet.
fn sent(alloc: Global, packet: Bytes) -> Result<Step, Fail> {
    let mut directory = DIRECTORY;
    Ok(
        directory
            .step(alloc, &forward(2, 4, packet))
            .map_err(|_| "no step")?,
    )
}

/// Whether one packet is sent: an accepted call's reply with these results.
fn replies(alloc: Global, step: &Step, results: &[u8]) -> Result<bool, Fail> {
    let mut reply = Vec::from_slice(alloc, REPLY)?;
    reply.extend_from_slice(results)?;
    Ok(match step.frames.as_slice() {
        [
            Frame {
                body: Body::Packet(packet),
                ..
            },
        ] => packet.as_slice() == reply.as_slice(),
        _ => false,
    })
}

#[test]
fn the_root_s_attributes_are_answered(rt: HostRuntime) -> Result<(), Fail> {
    let step = sent(rt.alloc(), call(rt.alloc(), GETATTR, WHOLE, 1, Kind::Dir)?)?;
    assert!(rt; replies(rt.alloc(), &step, ROOT)?);
    assert_eq!(rt; step.notes.as_slice().len(), 0);
    Ok(())
}

#[test]
fn an_answer_is_of_its_request(rt: HostRuntime) -> Result<(), Fail> {
    let step = sent(rt.alloc(), call(rt.alloc(), GETATTR, WHOLE, 1, Kind::Dir)?)?;
    match step.frames.as_slice() {
        [frame] => {
            assert_eq!(rt; (frame.from, frame.to), (16, 0));
            assert_eq!(rt; (frame.fence, frame.tag, frame.low), (2, 4, 0));
        }
        _ => assert!(rt; false),
    }
    Ok(())
}

#[test]
fn another_object_is_stale(rt: HostRuntime) -> Result<(), Fail> {
    let fileid = sent(rt.alloc(), call(rt.alloc(), GETATTR, WHOLE, 2, Kind::Dir)?)?;
    assert!(rt; replies(rt.alloc(), &fileid, STALE)?);
    let kind = sent(rt.alloc(), call(rt.alloc(), GETATTR, WHOLE, 1, Kind::Reg)?)?;
    assert!(rt; replies(rt.alloc(), &kind, STALE)?);
    Ok(())
}

#[test]
fn bytes_that_are_no_handle_are_refused(rt: HostRuntime) -> Result<(), Fail> {
    let step = sent(rt.alloc(), call(rt.alloc(), GETATTR, SHORT, 1, Kind::Dir)?)?;
    assert!(rt; replies(rt.alloc(), &step, BAD_HANDLE)?);
    Ok(())
}

#[test]
fn an_older_fence_is_passed_over(rt: HostRuntime) -> Result<(), Fail> {
    let mut directory = DIRECTORY;
    let packet = call(rt.alloc(), GETATTR, WHOLE, 1, Kind::Dir)?;
    let step = directory
        .step(rt.alloc(), &forward(1, 4, packet))
        .map_err(|_| "no step")?;
    assert_eq!(rt; step.frames.as_slice().len(), 0);
    assert_eq!(rt; directory, DIRECTORY);
    Ok(())
}

#[test]
fn a_tag_that_is_not_waited_for_is_passed_over(rt: HostRuntime) -> Result<(), Fail> {
    let mut directory = DIRECTORY;
    let packet = call(rt.alloc(), GETATTR, WHOLE, 1, Kind::Dir)?;
    let step = directory
        .step(rt.alloc(), &forward(2, 3, packet))
        .map_err(|_| "no step")?;
    assert_eq!(rt; step.frames.as_slice().len(), 0);
    assert_eq!(rt; directory.site, Site { fence: 2, low: 4 });
    Ok(())
}

#[test]
fn no_call_is_answered_by_nothing(rt: HostRuntime) -> Result<(), Fail> {
    let step = sent(rt.alloc(), Bytes::new(Vec::new(rt.alloc())))?;
    assert_eq!(rt; step.frames.as_slice().len(), 0);
    Ok(())
}

#[test]
fn another_call_is_not_built(rt: HostRuntime) -> Result<(), Fail> {
    let mut directory = DIRECTORY;
    let packet = call(rt.alloc(), FSSTAT, WHOLE, 1, Kind::Dir)?;
    let step = directory.step(rt.alloc(), &forward(2, 4, packet));
    assert!(rt; matches!(step, Err(StepFault::NotBuilt)));
    Ok(())
}
