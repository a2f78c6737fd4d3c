use super::*;
use sl_types::{LineFault, Policy, Setup};
use std::alloc::AllocError;
use std::test::Fail;

const V1: Setup = Setup {
    volume: 1,
    policy: Policy::Switch(0),
    dirs: 1,
    small: 1,
    nodes: 1,
};

fn is_read_again(rt: &HostRuntime, text: &[u8], setup: Option<&Setup>) -> Result<bool, AllocError> {
    let mut out = Vec::new(rt.alloc());
    match read_line(rt.alloc(), text, setup) {
        Ok(line) => match write_line(&line, &mut out) {
            Ok(()) => Ok(out.as_slice() == text),
            Err(_) => Ok(false),
        },
        Err(_) => Ok(false),
    }
}

fn is_bad(rt: &HostRuntime, text: &[u8], setup: Option<&Setup>) -> bool {
    match read_line(rt.alloc(), text, setup) {
        Ok(_) => false,
        Err(fault) => fault == LineFault::Bad,
    }
}

const FIRST: [&[u8]; 3] = [
    b"volume 1 switch 0 1 1 1",
    b"volume 18446744073709551615 switch 255 8 4 8",
    b"volume 0 hash 0 1 1 1",
];

const FIRST_BAD: [&[u8]; 9] = [
    b"",
    b"volume 1 switch 256 1 1 1",
    b"volume 1 hash 1 1 1 1",
    b"volume 01 switch 0 1 1 1",
    b"volume 1 switch 0 9 1 1",
    b"volume 1 switch 0 1 5 1",
    b"volume 1 switch 0 1 1 9",
    b"volume 1 switch 0 0 1 1",
    b"tick",
];

const LATER: [&[u8]; 17] = [
    b"at 4294967295 999999999",
    b"call 0 -",
    b"call 4294967295 00ff",
    b"give 1",
    b"copy 18446744073709551615",
    b"drop 0",
    b"flow 1",
    b"flow 1000000",
    b"tick",
    b"stop 0 18446744073709551615",
    b"stop 1 0",
    b"start 16",
    b"start 32",
    b"fuse 48 1 0",
    b"fail 48 18446744073709551615",
    b"=",
    b"= reply 1 1 00",
];

const LATER_BAD: [&[u8]; 21] = [
    b"",
    b"at 0 1000000000",
    b"at 4294967296 0",
    b"call 0 0",
    b"call 0 0A",
    b"call 0",
    b"call 4294967296 -",
    b"call 0 - ",
    b"call 0 -\r",
    b"give 01",
    b"give 18446744073709551616",
    b"give  1",
    b"flow 0",
    b"flow 1000001",
    b"tick ",
    b"stop 2 0",
    b"start 17",
    b"start 49",
    b"fuse 48 0 0",
    b"fail 33 1",
    b"volume 1 switch 0 1 1 1",
];

#[test]
fn lines_are_read_and_written_again(rt: HostRuntime) -> Result<(), Fail> {
    for text in FIRST {
        assert!(rt; is_read_again(&rt, text, None)?);
    }
    for text in LATER {
        assert!(rt; is_read_again(&rt, text, Some(&V1))?);
    }
    Ok(())
}

#[test]
fn what_spells_no_line_is_bad(rt: HostRuntime) {
    for text in FIRST_BAD {
        assert!(rt; is_bad(&rt, text, None));
    }
    for text in LATER_BAD {
        assert!(rt; is_bad(&rt, text, Some(&V1)));
    }
    assert!(rt; is_bad(&rt, b"= a\nb", Some(&V1)));
}
