use crate::requests::answer_text;
use sl_plain::Volume;
use std::test::Fail;

/// Requests on a new volume, one behind the other, and their answers.
const ROWS: [(&[u8], &[u8]); 6] = [
    (
        b"call 9 5 0 0 000000010000000000000002000186a3000000030000000000000000000000000000000000000000",
        b"000000010000000100000000000000000000000000000000",
    ),
    (
        b"call 9 5 0 0 0000000a0000000000000002000186a300000003000000010000000000000000000000000000000000000020",
        b"garbage",
    ),
    (
        b"call 9 5 0 0 0000000b0000000000000002000186a300000003",
        b"no call",
    ),
    (b"flush 2", b"flushed"),
    (b"restart 77", b"restarted"),
    (b"start 16", b"no request"),
];

#[test]
fn requests_have_these_answers(rt: HostRuntime) -> Result<(), Fail> {
    let mut volume = Volume::new(rt.alloc(), 7)?;
    for (request, expected) in ROWS.iter() {
        let found = answer_text(rt.alloc(), &mut volume, request)?;
        assert_eq!(rt; found.as_slice(), *expected);
    }
    Ok(())
}
