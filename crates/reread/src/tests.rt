use crate::requests::answer;
use std::test::Fail;

/// Requests, one behind the other, and their answers.
const ROWS: [(&[u8], &[u8]); 15] = [
    // a handle of one byte, whose padding is no zeros, and a byte behind it
    (b"call 1 00000001aabbccdd00", b"00000001aa000000"),
    (b"call 1 00000041", b"garbage"),
    (b"call 22 -", b"garbage"),
    (b"call 0 -", b"-"),
    (b"reply 1 00000046", b"00000046"),
    (b"reply 1 0000004600", b"garbage"),
    (
        b"reply 2 000000000000000100000000000000090000000100000002000000030000000400000000",
        b"000000000000000000000000",
    ),
    (b"first volume 1 hash 1 1 1 1", b"bad"),
    (b"first volume 1 switch 0 1 1 1", b"volume 1 switch 0 1 1 1"),
    (b"later start 16", b"start 16"),
    (b"later start 17", b"bad"),
    (b"later tick ", b"bad"),
    (b"note = junk 1", b"= junk 1"),
    (b"note = junk 01", b"bad"),
    (b"another", b"no request"),
];

#[test]
fn requests_have_these_answers(rt: HostRuntime) -> Result<(), Fail> {
    let mut volume = None;
    for (request, expected) in ROWS.iter() {
        let found = answer(rt.alloc(), request, &mut volume)?;
        assert_eq!(rt; found.as_slice(), *expected);
    }
    Ok(())
}
