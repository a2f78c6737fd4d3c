ghost use Rattle.std.specs.Prelude.{◌<◌};

use super::rows::{others, rows};
use super::*;
use std::alloc::Global;
use std::test::Fail;

fn is_frame(alloc: Global, bytes: &[u8]) -> bool {
    Frame::read(alloc, bytes).is_ok()
}

/// Whether the frame ends in a packet, which may have any bytes.
fn has_packet(frame: &Frame) -> bool {
    matches!(frame.body, Body::Forward { .. } | Body::Packet(_))
}

#[test]
fn frames_are_written_as_they_were_read(rt: HostRuntime) -> Result<(), Fail> {
    for row in rows() {
        let frame = Frame::read(rt.alloc(), row.bytes)?;
        let mut out = Vec::new(rt.alloc());
        frame.write(&mut out)?;
        assert_eq!(rt; out.as_slice(), row.bytes);
        let copy = frame.copy()?;
        assert_eq!(rt; copy.body.kind(), frame.body.kind());
    }
    Ok(())
}

#[test]
fn whole_frames_alone_are_read(rt: HostRuntime) -> Result<(), Fail> {
    for row in rows() {
        let frame = Frame::read(rt.alloc(), row.bytes)?;
        if !has_packet(&frame) {
            let mut bytes = row.bytes.to_vec(rt.alloc())?;
            bytes.push(0)?;
            assert!(rt; !is_frame(rt.alloc(), &bytes), "{frame:?}");
            bytes.truncate(row.bytes.len().saturating_sub(1));
            assert!(rt; !is_frame(rt.alloc(), &bytes), "{frame:?}");
        }
    }
    Ok(())
}

/// The bytes with the last byte of a field of the header changed; fields are numbered from the tag on.
fn with_field_changed(alloc: Global, bytes: &[u8], field: usize) -> Result<Vec<u8>, Fail>
    requires { field < 5 }
{
    let mut changed = bytes.to_vec(alloc)?;
    if let Some(byte) = changed.get_mut(19 + 8 * field) {
        *byte = 255 - *byte;
    }
    Ok(changed)
}

#[test]
fn header_fields_without_use_are_zero(rt: HostRuntime) -> Result<(), Fail> {
    for row in rows() {
        let used = row.used;
        for field in 0..5 {
            let bytes = with_field_changed(rt.alloc(), row.bytes, field)?;
            let is_used = used[field];
            assert_eq!(rt; is_frame(rt.alloc(), &bytes), is_used);
        }
    }
    Ok(())
}

#[test]
fn what_no_frame_is_is_bad(rt: HostRuntime) -> Result<(), Fail> {
    for bytes in others() {
        let fault = Frame::read(rt.alloc(), bytes).err();
        assert_eq!(rt; fault, Some(FrameFault::BadFrame));
    }
    Ok(())
}

#[test]
fn the_opening_has_these_bytes(rt: HostRuntime) -> Result<(), Fail> {
    let hello = Frame {
        from: 0,
        to: 1,
        fence: 1 << 32,
        tag: 0,
        low: 0,
        op: 0,
        boot: 0,
        arrival: 0,
        body: Body::Hello,
    };
    let mut out = Vec::new(rt.alloc());
    hello.write(&mut out)?;
    let mut expected = b"\0\x01\x01\0\0\0\0\x01\0\0\0\0".to_vec(rt.alloc())?;
    expected.extend_from_slice(&[0; 40])?;
    assert_eq!(rt; out.as_slice(), expected.as_slice());
    Ok(())
}
