use super::*;
use sl_frames::{Body, Frame};
use sl_past::Remark;
use sl_types::{Bytes, Cred, Gids, Handle, Kind, Policy, Setup};
use std::alloc::Global;
use std::test::Fail;

/// A GETATTR: xid 5, no credential, and the handle of a directory of volume 1 with the fileid 5 of site 3.
const GETATTR: &[u8] =
    b"\0\0\0\x05\0\0\0\0\0\0\0\x02\0\x01\x86\xa3\0\0\0\x03\0\0\0\x01\0\0\0\0\0\0\0\0\0\0\0\0\0\
      \0\0\0\0\0\0 SLH1\0\0\0\0\0\0\0\0\0\0\0\x01\0\0\x03\0\0\0\0\x05\0\0\0\x02\0\0\0\0";

/// It as server 17 is sent it, with tag 1: the last four bytes of the handle are the site and the server.
const FORWARDED: &[u8] =
    b"\0\0\0\x01\0\0\0\0\0\0\0\x02\0\x01\x86\xa3\0\0\0\x03\0\0\0\x01\0\0\0\0\0\0\0\0\0\0\0\0\0\
      \0\0\0\0\0\0 SLH1\0\0\0\0\0\0\0\0\0\0\0\x01\0\0\x03\0\0\0\0\x05\0\0\0\x02\0\x03\0\x11";

/// The answer to tag 1, with the attributes of the directory.
const ANSWER: &[u8] =
    b"\0\0\0\x01\0\0\0\x01\0\0\0\0\0\0\0\0\0\0\0\0\0\0\0\0\0\0\0\0\0\0\0\x02\0\0\x01\xed\0\0\0\
      \x02\0\0\0\0\0\0\0\0\0\0\0\0\0\0\x10\0\0\0\0\0\0\0\x10\0\0\0\0\0\0\0\0\0\0\0\0\0\0\0\0\
      \x01\0\0\x03\0\0\0\0\x05\0\0\0\0\0\0\0\0\0\0\0\0\0\0\0\0\0\0\0\0\0\0\0\0";

/// It as the client is sent it.
const REPLY: &[u8] =
    b"\0\0\0\x05\0\0\0\x01\0\0\0\0\0\0\0\0\0\0\0\0\0\0\0\0\0\0\0\0\0\0\0\x02\0\0\x01\xed\0\0\0\
      \x02\0\0\0\0\0\0\0\0\0\0\0\0\0\0\x10\0\0\0\0\0\0\0\x10\0\0\0\0\0\0\0\0\0\0\0\0\0\0\0\0\
      \x01\0\0\x03\0\0\0\0\x05\0\0\0\0\0\0\0\0\0\0\0\0\0\0\0\0\0\0\0\0\0\0\0\0";

/// The answer to tag 1, with the attributes of a regular file.
const FILE: &[u8] =
    b"\0\0\0\x01\0\0\0\x01\0\0\0\0\0\0\0\0\0\0\0\0\0\0\0\0\0\0\0\0\0\0\0\x01\0\0\x01\xed\0\0\0\
      \x02\0\0\0\0\0\0\0\0\0\0\0\0\0\0\x10\0\0\0\0\0\0\0\x10\0\0\0\0\0\0\0\0\0\0\0\0\0\0\0\0\
      \x01\0\0\x03\0\0\0\0\x05\0\0\0\0\0\0\0\0\0\0\0\0\0\0\0\0\0\0\0\0\0\0\0\0";

/// A GETATTR of a handle of 31 bytes.
const CUT: &[u8] =
    b"\0\0\0\x05\0\0\0\0\0\0\0\x02\0\x01\x86\xa3\0\0\0\x03\0\0\0\x01\0\0\0\0\0\0\0\0\0\0\0\0\0\
      \0\0\0\0\0\0\x1fSLH1\0\0\0\0\0\0\0\0\0\0\0\x01\0\0\x03\0\0\0\0\x05\0\0\0\x02\0\0\0\0";

/// Its reply, NFS3ERR_BADHANDLE.
const BADHANDLE: &[u8] = b"\0\0\0\x05\0\0\0\x01\0\0\0\0\0\0\0\0\0\0\0\0\0\0\0\0\0\0'\x11";

/// A GETATTR of a handle of volume 2.
const FOREIGN: &[u8] =
    b"\0\0\0\x05\0\0\0\0\0\0\0\x02\0\x01\x86\xa3\0\0\0\x03\0\0\0\x01\0\0\0\0\0\0\0\0\0\0\0\0\0\
      \0\0\0\0\0\0 SLH1\0\0\0\0\0\0\0\0\0\0\0\x02\0\0\x03\0\0\0\0\x05\0\0\0\x02\0\0\0\0";

/// Its reply, NFS3ERR_STALE.
const STALE: &[u8] = b"\0\0\0\x05\0\0\0\x01\0\0\0\0\0\0\0\0\0\0\0\0\0\0\0\0\0\0\0F";

/// A GETATTR of a handle of 65 bytes.
const LONG: &[u8] =
    b"\0\0\0\x05\0\0\0\0\0\0\0\x02\0\x01\x86\xa3\0\0\0\x03\0\0\0\x01\0\0\0\0\0\0\0\0\0\0\0\0\0\
      \0\0\0\0\0\0Ahhhhhhhhhhhhhhhhhhhhhhhhhhhhhhhhhhhhhhhhhhhhhhhhhhhhhhhhhhhhhhhhh\0\0\0";

/// Its reply, GARBAGE_ARGS.
const GARBAGE: &[u8] = b"\0\0\0\x05\0\0\0\x01\0\0\0\0\0\0\0\0\0\0\0\0\0\0\0\x04";

/// A READLINK of the directory.
const READLINK: &[u8] =
    b"\0\0\0\x05\0\0\0\0\0\0\0\x02\0\x01\x86\xa3\0\0\0\x03\0\0\0\x05\0\0\0\0\0\0\0\0\0\0\0\0\0\
      \0\0\0\0\0\0 SLH1\0\0\0\0\0\0\0\0\0\0\0\x01\0\0\x03\0\0\0\0\x05\0\0\0\x02\0\0\0\0";

/// A NULL call, with xid 9, and its empty reply.
const NULL: &[u8] =
    b"\0\0\0\x09\0\0\0\0\0\0\0\x02\0\x01\x86\xa3\0\0\0\x03\0\0\0\0\0\0\0\0\0\0\0\0\0\0\0\0\0\0\
      \0\0";

const DONE: &[u8] = b"\0\0\0\x09\0\0\0\x01\0\0\0\0\0\0\0\0\0\0\0\0\0\0\0\0";

/// The proxy of volume 1 with two directory servers, under fence 65537.
fn proxy(alloc: Global, welcomed: bool) -> Proxy {
    Proxy {
        setup: Setup {
            volume: 1,
            policy: Policy::Hash,
            dirs: 2,
            small: 1,
            nodes: 1,
        },
        fence: 65537,
        welcomed,
        pending: Looks::new(alloc),
        next_tag: 1,
    }
}

/// A frame of that fence to the proxy.
fn frame(from: u8, tag: u64, body: Body) -> Frame {
    Frame {
        from,
        to: 0,
        fence: 65537,
        tag,
        low: 0,
        op: 0,
        boot: 0,
        arrival: 0,
        body,
    }
}

/// A packet from a server.
fn packet(alloc: Global, from: u8, tag: u64, bytes: &[u8]) -> Result<Frame, Fail> {
    let bytes = bytes.to_vec(alloc)?;
    Ok(frame(from, tag, Body::Packet(Bytes::new(bytes))))
}

/// A call that waits under this tag.
fn look(alloc: Global, tag: u64) -> Look {
    Look {
        client: 4,
        packet: Bytes::new(Vec::new(alloc)),
        xid: 7,
        cred: Cred {
            uid: 1,
            gid: 2,
            gids: Gids::new(),
        },
        handle: Handle {
            volume: 1,
            fileid: 1,
            kind: Kind::Dir,
        },
        tag,
        to: 16,
    }
}

/// What the proxy does for a datagram that arrives in event 9.
fn arrived(alloc: Global, proxy: &mut Proxy, bytes: &[u8]) -> Result<Step, Fail> {
    match proxy.arrive(alloc, 9, 4, bytes) {
        Ok(step) => Ok(step),
        Err(_) => Err(Fail::from("no step")),
    }
}

/// What it does for a frame that event 12 sent.
fn taken(alloc: Global, proxy: &mut Proxy, frame: &Frame) -> Result<Step, Fail> {
    match proxy.take(alloc, frame, 12) {
        Ok(step) => Ok(step),
        Err(_) => Err(Fail::from("no step")),
    }
}

/// Whether that is all: this reply, to the call that arrived in event 9, as that event answered it.
fn is_reply(step: &Step, answered_in: u64, reply: &[u8]) -> bool {
    if !step.frames.as_slice().is_empty() {
        return false;
    }
    match step.notes.as_slice() {
        [
            Remark::Replied {
                arrival: 9,
                event,
                bytes,
            },
        ] => *event == answered_in && bytes.as_slice() == reply,
        _ => false,
    }
}

fn is_silent(step: &Step) -> bool {
    step.frames.as_slice().is_empty() && step.notes.as_slice().is_empty()
}

#[test]
fn junk_is_dropped(rt: HostRuntime) -> Result<(), Fail> {
    let mut proxy = proxy(rt.alloc(), false);
    let step = arrived(rt.alloc(), &mut proxy, b"no call")?;
    assert!(rt; matches!(step.notes.as_slice(), [Remark::Junk(9)]));
    assert!(rt; step.frames.as_slice().is_empty());
    Ok(())
}

#[test]
fn what_needs_no_server_is_answered_before_the_welcome(rt: HostRuntime) -> Result<(), Fail> {
    let mut proxy = proxy(rt.alloc(), false);
    assert!(rt; is_reply(&arrived(rt.alloc(), &mut proxy, NULL)?, 9, DONE));
    assert!(rt; is_reply(&arrived(rt.alloc(), &mut proxy, LONG)?, 9, GARBAGE));
    Ok(())
}

#[test]
fn a_call_before_the_welcome_is_early(rt: HostRuntime) -> Result<(), Fail> {
    let mut proxy = proxy(rt.alloc(), false);
    let step = arrived(rt.alloc(), &mut proxy, GETATTR)?;
    assert!(rt; matches!(step.notes.as_slice(), [Remark::Early(9)]));
    assert_eq!(rt; proxy.pending.len(), 0);
    Ok(())
}

/// A proxy with so many calls that wait.
fn busy(alloc: Global, calls: u8) -> Result<Proxy, Fail> {
    let mut proxy = proxy(alloc, true);
    for call in 0..u64::from(calls) {
        proxy.pending.put(call + 1000, look(alloc, call + 1))?;
    }
    proxy.next_tag = 1001;
    Ok(proxy)
}

#[test]
fn the_257th_call_is_too_many(rt: HostRuntime) -> Result<(), Fail> {
    let mut proxy = busy(rt.alloc(), 255)?;
    let step = arrived(rt.alloc(), &mut proxy, GETATTR)?;
    assert!(rt; step.notes.as_slice().is_empty());
    let step = arrived(rt.alloc(), &mut proxy, GETATTR)?;
    assert!(rt; matches!(step.notes.as_slice(), [Remark::Full(9)]));
    Ok(())
}

#[test]
fn handles_that_can_t_be_are_refused(rt: HostRuntime) -> Result<(), Fail> {
    let mut proxy = proxy(rt.alloc(), true);
    assert!(rt; is_reply(&arrived(rt.alloc(), &mut proxy, CUT)?, 9, BADHANDLE));
    assert!(rt; is_reply(&arrived(rt.alloc(), &mut proxy, FOREIGN)?, 9, STALE));
    assert_eq!(rt; proxy.pending.len(), 0);
    Ok(())
}

/// Whether that is all: the frame of that GETATTR with tag 1.
fn is_request(step: &Step) -> bool {
    let [frame] = step.frames.as_slice() else {
        return false;
    };
    let Body::Forward { chosen: 0, packet } = &frame.body else {
        return false;
    };
    (frame.from, frame.to, frame.fence) == (0, 17, 65537)
        && (frame.tag, frame.low, frame.op, frame.boot, frame.arrival) == (1, 1, 0, 0, 9)
        && packet.as_slice() == FORWARDED
}

#[test]
fn a_call_is_passed_on_to_the_objects_server(rt: HostRuntime) -> Result<(), Fail> {
    let mut proxy = proxy(rt.alloc(), true);
    let step = arrived(rt.alloc(), &mut proxy, GETATTR)?;
    assert!(rt; is_request(&step));
    assert!(rt; step.notes.as_slice().is_empty());
    assert_eq!(rt;
        (proxy.next_tag, proxy.pending.sent_to(17, 1)),
        (2, Some(9))
    );
    Ok(())
}

/// The tag and the low tag of the one frame that is sent.
fn tag_and_low(step: &Step) -> Option<(u64, u64)> {
    match step.frames.as_slice() {
        [frame] => Some((frame.tag, frame.low)),
        _ => None,
    }
}

#[test]
fn the_oldest_request_is_the_low_one(rt: HostRuntime) -> Result<(), Fail> {
    let mut proxy = busy(rt.alloc(), 3)?;
    let step = arrived(rt.alloc(), &mut proxy, GETATTR)?;
    assert_eq!(rt; tag_and_low(&step), Some((1001, 1)));
    Ok(())
}

#[test]
fn the_last_tag_is_never_used(rt: HostRuntime) {
    let mut proxy = proxy(rt.alloc(), true);
    proxy.next_tag = u64::MAX;
    let step = proxy.arrive(rt.alloc(), 9, 4, GETATTR);
    assert!(rt; matches!(step, Err(StepFault::Spent)));
}

#[test]
fn other_procedures_are_not_built(rt: HostRuntime) {
    let mut proxy = proxy(rt.alloc(), true);
    let step = proxy.arrive(rt.alloc(), 9, 4, READLINK);
    assert!(rt; matches!(step, Err(StepFault::NotBuilt)));
}

#[test]
fn a_volume_without_directory_servers_is_not_built(rt: HostRuntime) {
    let mut proxy = proxy(rt.alloc(), true);
    proxy.setup.dirs = 0;
    let step = proxy.arrive(rt.alloc(), 9, 4, GETATTR);
    assert!(rt; matches!(step, Err(StepFault::NotBuilt)));
}

#[test]
fn the_first_welcome_brings_the_verifier(rt: HostRuntime) -> Result<(), Fail> {
    let mut proxy = proxy(rt.alloc(), false);
    let welcome = frame(1, 0, Body::Welcome);
    let first = taken(rt.alloc(), &mut proxy, &welcome)?;
    assert!(rt; matches!(first.notes.as_slice(), [Remark::Verf(65537)]));
    assert!(rt; proxy.welcomed);
    assert!(rt; is_silent(&taken(rt.alloc(), &mut proxy, &welcome)?));
    Ok(())
}

#[test]
fn a_welcome_of_another_fence_or_actor_is_passed_over(rt: HostRuntime) -> Result<(), Fail> {
    let mut proxy = proxy(rt.alloc(), false);
    let mut welcome = frame(16, 0, Body::Welcome);
    assert!(rt; is_silent(&taken(rt.alloc(), &mut proxy, &welcome)?));
    welcome.from = 1;
    welcome.fence = 65538;
    assert!(rt; is_silent(&taken(rt.alloc(), &mut proxy, &welcome)?));
    assert!(rt; !proxy.welcomed);
    Ok(())
}

/// A proxy that has asked server 17 under tag 1.
fn asking(alloc: Global) -> Result<Proxy, Fail> {
    let mut proxy = proxy(alloc, true);
    arrived(alloc, &mut proxy, GETATTR)?;
    Ok(proxy)
}

#[test]
fn an_answer_is_the_reply_once(rt: HostRuntime) -> Result<(), Fail> {
    let mut proxy = asking(rt.alloc())?;
    let answer = packet(rt.alloc(), 17, 1, ANSWER)?;
    assert!(rt; is_reply(&taken(rt.alloc(), &mut proxy, &answer)?, 12, REPLY));
    assert_eq!(rt; proxy.pending.len(), 0);
    assert!(rt; is_silent(&taken(rt.alloc(), &mut proxy, &answer)?));
    Ok(())
}

#[test]
fn a_failure_is_the_reply_too(rt: HostRuntime) -> Result<(), Fail> {
    let mut proxy = asking(rt.alloc())?;
    let answer = packet(rt.alloc(), 17, 1, STALE)?;
    assert!(rt; is_reply(&taken(rt.alloc(), &mut proxy, &answer)?, 12, STALE));
    Ok(())
}

#[test]
fn an_answer_of_another_server_or_tag_is_passed_over(rt: HostRuntime) -> Result<(), Fail> {
    let mut proxy = asking(rt.alloc())?;
    let server = packet(rt.alloc(), 16, 1, ANSWER)?;
    assert!(rt; is_silent(&taken(rt.alloc(), &mut proxy, &server)?));
    let tag = packet(rt.alloc(), 17, 2, ANSWER)?;
    assert!(rt; is_silent(&taken(rt.alloc(), &mut proxy, &tag)?));
    assert_eq!(rt; proxy.pending.len(), 1);
    Ok(())
}

#[test]
fn an_answer_of_another_fence_is_passed_over(rt: HostRuntime) -> Result<(), Fail> {
    let mut proxy = asking(rt.alloc())?;
    let mut answer = packet(rt.alloc(), 17, 1, ANSWER)?;
    answer.fence = 65538;
    assert!(rt; is_silent(&taken(rt.alloc(), &mut proxy, &answer)?));
    assert_eq!(rt; proxy.pending.len(), 1);
    Ok(())
}

#[test]
fn a_packet_that_is_no_reply_is_passed_over(rt: HostRuntime) -> Result<(), Fail> {
    let mut proxy = asking(rt.alloc())?;
    let answer = packet(rt.alloc(), 17, 1, b"no reply")?;
    assert!(rt; is_silent(&taken(rt.alloc(), &mut proxy, &answer)?));
    assert_eq!(rt; proxy.pending.len(), 1);
    Ok(())
}

#[test]
fn a_files_attributes_are_not_built(rt: HostRuntime) -> Result<(), Fail> {
    let mut proxy = asking(rt.alloc())?;
    let answer = packet(rt.alloc(), 17, 1, FILE)?;
    let step = proxy.take(rt.alloc(), &answer, 12);
    assert!(rt; matches!(step, Err(StepFault::NotBuilt)));
    Ok(())
}

#[test]
fn other_frames_are_not_built(rt: HostRuntime) {
    let mut proxy = proxy(rt.alloc(), true);
    let step = proxy.take(rt.alloc(), &frame(1, 0, Body::Refuse), 12);
    assert!(rt; matches!(step, Err(StepFault::NotBuilt)));
}
