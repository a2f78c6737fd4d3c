use super::*;
use sl_defs::{Bytes, Event, Time};
use sl_frames::{Body, Frame};
use std::test::Fail;

/// The opening of a volume, Hello and Welcome, and a call that comes too early in between.
const OPENING: &[u8] = b"volume 1 switch 0 1 1 1
= sent 1 00010100000000010000000000000000000000000000000000000000000000000000000000000000000000000000000000000000
at 7 8
call 3 00
= junk 1
give 1
= sent 2 01000200000000010000000000000000000000000000000000000000000000000000000000000000000000000000000000000000
= lost 9
give 2
= verf 0000000100000000
";

/// Each form of a line, and each form of a note.
const FORMS: &[u8] = b"volume 2 hash 0 8 4 8
at 4294967295 999999999
call 0 -
give 1
copy 2
drop 3
tick
stop 16 5
start 51
fuse 0 1 2
fail 1 7
= sent 1 00010100000000010000000000000000000000000000000000000000000000000000000000000000000000000000000000000000
= did 3 4294967295 999999999 18446744073709551615 1
= flush 2
= verf 0000000100000000
= reply 1 2 00ff
= junk 1
= early 3
= full 259
= lost 0
= down 55
";

/// Texts that are no transcripts.
const BAD: [&[u8]; 12] = [
    // no end of line, of a line and of a note
    b"volume 1 hash 0 1 1 1",
    b"volume 1 hash 0 1 1 1\ntick",
    b"volume 1 hash 0 1 1 1\n= junk 1",
    // a bad line, a line of no transcript, and lines out of their places
    b"volume 1 hash 0 0 1 1\n",
    b"volume 1 hash 0 1 1 1\nflow 3\n",
    b"tick\n",
    b"volume 1 hash 0 1 1 1\nvolume 1 hash 0 1 1 1\n",
    b"= junk 1\nvolume 1 hash 0 1 1 1\n",
    b"\n",
    // a bad note, and two whose frames are none
    b"volume 1 hash 0 1 1 1\n= junk 01\n",
    b"volume 1 hash 0 1 1 1\n= sent 1 -\n",
    b"volume 1 hash 0 1 1 1\n= sent 1 01000100000000010000000000000000000000000000000000000000000000000000000000000000000000000000000000000000\n",
];

#[test]
fn a_turn_has_the_parts_that_it_was_made_of(rt: HostRuntime) -> Result<(), Fail> {
    let moment = Time { sec: 7, nsec: 8 };
    let datagram = Bytes::new(vec![in rt.alloc(); 1, 2]?);
    let happening = Happening::Happens(Event::Call {
        client: 3,
        datagram,
    });
    let turn = Turn::new(happening, moment, vec![in rt.alloc(); Remark::Junk(1)]?);
    assert!(rt;
        matches!(
            turn.happening(),
            Happening::Happens(Event::Call { client: 3, .. })
        )
    );
    assert_eq!(rt; turn.moment(), moment);
    assert!(rt; matches!(turn.remarks(), [Remark::Junk(1)]));
    Ok(())
}

#[test]
fn the_newest_turn_is_the_first(rt: HostRuntime) -> Result<(), Fail> {
    let turns = read_history(rt.alloc(), OPENING)?;
    match turns.as_slice() {
        [welcomed, greeted, called, moved, opened] => {
            assert!(rt; matches!(welcomed.happening(), Happening::Happens(Event::Give(2))));
            assert!(rt; matches!(welcomed.remarks(), [Remark::Verf(4294967296)]));
            assert!(rt;
                matches!(
                    greeted.remarks(),
                    [Remark::Sent { number: 2, .. }, Remark::Lost(9)]
                )
            );
            assert!(rt; matches!(called.remarks(), [Remark::Junk(1)]));
            assert_eq!(rt; called.moment(), Time { sec: 7, nsec: 8 });
            assert_eq!(rt; moved.moment(), Time { sec: 7, nsec: 8 });
            assert_eq!(rt; opened.moment(), Time { sec: 0, nsec: 0 });
            assert!(rt; is_hello(opened.remarks()));
        }
        _ => assert!(rt; false),
    }
    Ok(())
}

/// Whether the proxy's Hello under its first fence was sent as the first frame, and nothing else was remarked.
fn is_hello(remarks: &[Remark]) -> bool {
    matches!(
        remarks,
        [Remark::Sent {
            number: 1,
            frame: Frame {
                from: 0,
                to: 1,
                fence: 4294967296,
                body: Body::Hello,
                ..
            },
        }]
    )
}

#[test]
fn each_form_is_read(rt: HostRuntime) -> Result<(), Fail> {
    let turns = read_history(rt.alloc(), FORMS)?;
    assert_eq!(rt; turns.len(), 11);
    match turns.as_slice() {
        [last, ..] => assert_eq!(rt; last.remarks().len(), 10),
        [] => assert!(rt; false),
    }
    Ok(())
}

#[test]
fn the_empty_text_is_of_the_empty_history(rt: HostRuntime) -> Result<(), Fail> {
    let turns = read_history(rt.alloc(), b"")?;
    assert!(rt; turns.is_empty());
    Ok(())
}

#[test]
fn what_is_no_transcript_is_bad(rt: HostRuntime) {
    for text in BAD {
        assert!(rt; matches!(read_history(rt.alloc(), text), Err(TranscriptFault::Bad)));
    }
}
