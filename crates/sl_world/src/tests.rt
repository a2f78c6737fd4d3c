use super::*;
use sl_frames::{Body, Frame};
use sl_past::Remark;
use sl_types::{Bytes, Cred, Gids, Handle, Kind};
use std::alloc::Global;
use std::test::Fail;

/// A frame of the proxy's to the coordinator.
fn frame(fence: u64, body: Body) -> Frame {
    Frame {
        from: 0,
        to: 1,
        fence,
        tag: 0,
        low: 0,
        op: 0,
        boot: 0,
        arrival: 0,
        body,
    }
}

/// A coordinator that has seen this fence.
fn coordinator(fence: u64) -> Coordinator {
    Coordinator {
        site: Site { fence, low: 0 },
        heard: false,
    }
}

#[test]
fn a_hello_is_answered_by_a_welcome(rt: HostRuntime) -> Result<(), Fail> {
    let mut coordinator = coordinator(1);
    let step = coordinator
        .step(rt.alloc(), &frame(2, Body::Hello))
        .map_err(|_| "no step")?;
    assert!(rt; coordinator.heard);
    assert_eq!(rt; coordinator.site.fence, 2);
    assert_eq!(rt; step.notes.as_slice().len(), 0);
    let frames = step.frames.as_slice();
    assert_eq!(rt; frames.len(), 1);
    assert!(rt; matches!(frames[0].body, Body::Welcome));
    assert_eq!(rt; frames[0].fence, 2);
    Ok(())
}

#[test]
fn a_hello_of_an_older_fence_is_passed_over(rt: HostRuntime) -> Result<(), Fail> {
    let mut coordinator = coordinator(3);
    let step = coordinator
        .step(rt.alloc(), &frame(2, Body::Hello))
        .map_err(|_| "no step")?;
    assert_eq!(rt; step.frames.as_slice().len(), 0);
    assert_eq!(rt; coordinator.site.fence, 3);
    Ok(())
}

#[test]
fn nothing_else_is_built_of_the_coordinator(rt: HostRuntime) {
    let mut coordinator = coordinator(1);
    let step = coordinator.step(rt.alloc(), &frame(2, Body::Grant));
    assert!(rt; matches!(step, Err(StepFault::NotBuilt)));
}

/// A call whose request has this tag.
fn look(alloc: Global, tag: u64) -> Look {
    Look {
        client: 5,
        packet: Bytes::new(Vec::new(alloc)),
        xid: 7,
        cred: Cred {
            uid: 1,
            gid: 2,
            gids: Gids::new(),
        },
        handle: Handle {
            volume: 1,
            fileid: 1,
            kind: Kind::Dir,
        },
        tag,
        to: 16,
    }
}

#[test]
fn calls_wait_for_the_answers_to_their_requests(rt: HostRuntime) -> Result<(), Fail> {
    let mut looks = Looks::new(rt.alloc());
    assert_eq!(rt; looks.low(9), 9);
    looks.put(3, look(rt.alloc(), 4))?;
    looks.put(5, look(rt.alloc(), 6))?;
    assert_eq!(rt; looks.len(), 2);
    assert_eq!(rt; looks.low(9), 4);
    assert_eq!(rt; looks.sent_to(16, 6), Some(5));
    assert_eq!(rt; looks.sent_to(17, 6), None);
    assert_eq!(rt; looks.take(3).map_or(0, |look| look.tag), 4);
    assert_eq!(rt; looks.low(9), 6);
    Ok(())
}

#[test]
fn a_frame_flies_until_it_is_taken(rt: HostRuntime) -> Result<(), Fail> {
    let mut flight = Flight::new(rt.alloc());
    let flying = Flying {
        frame: frame(2, Body::Hello),
        event: 4,
    };
    flight.put(1, flying)?;
    assert_eq!(rt; flight.len(), 1);
    assert!(rt; flight.take(2).is_none());
    assert_eq!(rt; flight.take(1).map_or(0, |flying| flying.event), 4);
    assert_eq!(rt; flight.len(), 0);
    Ok(())
}

#[test]
fn a_note_is_kept(rt: HostRuntime) -> Result<(), Fail> {
    let notes = Notes::one(rt.alloc(), Remark::Verf(3))?;
    assert!(rt; matches!(notes.as_slice(), [Remark::Verf(3)]));
    assert_eq!(rt; Notes::none(rt.alloc()).as_slice().len(), 0);
    Ok(())
}
