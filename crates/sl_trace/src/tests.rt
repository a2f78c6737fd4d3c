use super::*;
use sl_types::LineFault;
use std::alloc::AllocError;
use std::test::Fail;

const NOTES: [&[u8]; 12] = [
    b"= sent 1 000101",
    b"= sent 18446744073709551615 -",
    b"= did 3 4294967295 999999999 18446744073709551615 1",
    b"= did 0 0 0 0 0",
    b"= flush 2",
    b"= verf 0000000100000000",
    b"= reply 1 2 00ff",
    b"= junk 1",
    b"= early 3",
    b"= full 259",
    b"= lost 0",
    b"= down 55",
];

const BAD: [&[u8]; 10] = [
    b"",
    b"= sent 1 0",
    b"= did 0 0 1000000000 0 0",
    b"= did 0 0 0 0 2",
    b"= verf 00000001000000",
    b"= verf 000000010000000A",
    b"= junk 01",
    b"= junk 18446744073709551616",
    b"= down 256",
    b"=junk 1",
];

fn is_read_again(rt: &HostRuntime, text: &[u8]) -> Result<bool, AllocError> {
    let mut out = Vec::new(rt.alloc());
    match read_note(rt.alloc(), text) {
        Ok(note) => match write_note(&note, &mut out) {
            Ok(()) => Ok(out.as_slice() == text),
            Err(_) => Ok(false),
        },
        Err(_) => Ok(false),
    }
}

fn is_bad(rt: &HostRuntime, text: &[u8]) -> bool {
    match read_note(rt.alloc(), text) {
        Ok(_) => false,
        Err(fault) => fault == LineFault::Bad,
    }
}

#[test]
fn notes_are_read_and_written_again(rt: HostRuntime) -> Result<(), Fail> {
    for text in NOTES {
        assert!(rt; is_read_again(&rt, text)?);
    }
    Ok(())
}

#[test]
fn what_spells_no_note_is_bad(rt: HostRuntime) {
    for text in BAD {
        assert!(rt; is_bad(&rt, text));
    }
}
