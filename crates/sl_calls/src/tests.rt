mod skipping;

use super::rows::rows;
use super::*;
use sl_types::{ArgsFault, Call};
use std::test::Fail;

#[test]
fn written_calls_have_zero_padding(rt: HostRuntime) -> Result<(), Fail> {
    for row in rows() {
        let mut bytes = row.padded.to_vec(rt.alloc())?;
        bytes.extend_from_slice(b"more")?;
        let call = read_args(rt.alloc(), row.procedure, &bytes)?;
        let mut out = Vec::new(rt.alloc());
        write_args(&call, &mut out)?;
        assert_eq!(rt; out.as_slice(), row.canonical);
    }
    Ok(())
}

#[test]
fn arguments_that_end_early_are_garbage(rt: HostRuntime) -> Result<(), Fail> {
    for row in rows() {
        for length in 0..row.canonical.len() {
            let read = read_args(rt.alloc(), row.procedure, &row.canonical[..length]);
            assert_eq!(rt; read.err(), Some(ArgsFault::Garbage));
        }
    }
    Ok(())
}

#[test]
fn opaques_of_any_length_are_garbage_where_they_pass_the_end(rt: HostRuntime) -> Result<(), Fail> {
    for row in rows() {
        for &place in row.lengths {
            assert!(rt; place < row.canonical.len());
            let (front, back) = row.canonical.split_at(place);
            assert!(rt; 4 <= back.len());
            let mut long = front.to_vec(rt.alloc())?;
            long.extend_from_slice(&[255; 4])?;
            long.extend_from_slice(&back[4..])?;
            let read = read_args(rt.alloc(), row.procedure, &long);
            assert_eq!(rt; read.err(), Some(ArgsFault::Garbage));
        }
    }
    Ok(())
}

#[test]
fn fields_come_in_their_order(rt: HostRuntime) -> Result<(), Fail> {
    let bytes = b"\0\0\0\x01h\x01\x02\x03\0\0\0\x01a\0\0\0\0\0\0\0\0\0\0\x01b\0\0\0";
    match read_args(rt.alloc(), 14, bytes)? {
        Call::Rename {
            from,
            from_name,
            to,
            to_name,
        } => {
            assert_eq!(rt; from.as_slice(), b"h".as_slice());
            assert_eq!(rt; from_name.as_slice(), b"a".as_slice());
            assert!(rt; to.as_slice().is_empty());
            assert_eq!(rt; to_name.as_slice(), b"b".as_slice());
        }
        call => assert!(rt; false, "{call:?}"),
    }
    Ok(())
}
