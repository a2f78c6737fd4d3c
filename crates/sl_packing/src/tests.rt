use super::*;
use sl_replies::read_reply;
use sl_types::{Bytes, Fh, LookupOk, Reply, Status};
use std::alloc::Global;
use std::test::Fail;

fn lookup_reply(rt: &HostRuntime, length: usize) -> Result<Reply, Fail> {
    let object = Fh::new(Bytes::new(vec![in rt.alloc(); 7; length]?));
    Ok(Reply::Lookup(Ok(LookupOk {
        object,
        attributes: None,
        dir_attributes: None,
    })))
}

#[test]
fn a_handle_of_65_bytes_and_a_failure_that_is_ok_are_in_no_reply(
    rt: HostRuntime,
) -> Result<(), Fail> {
    assert!(rt; fits(&lookup_reply(&rt, 64)?));
    assert!(rt; !fits(&lookup_reply(&rt, 65)?));
    assert!(rt; fits(&Reply::Getattr(Err(Status::Stale))));
    assert!(rt; !fits(&Reply::Getattr(Err(Status::Ok))));
    Ok(())
}

#[test]
fn a_reply_s_packet_has_its_head_and_its_results(rt: HostRuntime) -> Result<(), Fail> {
    let reply = Reply::Getattr(Err(Status::Stale));
    let packet = reply_packet(rt.alloc(), 7, &reply)?;
    let expected: [u8; 28] = [
        0, 0, 0, 7, 0, 0, 0, 1, 0, 0, 0, 0, 0, 0, 0, 0, 0, 0, 0, 0, 0, 0, 0, 0, 0, 0, 0, 70,
    ];
    assert_eq!(rt; packet.as_slice(), expected.as_slice());
    Ok(())
}

/// The bytes of these numbers.
fn text(alloc: Global, numbers: &[u32]) -> Result<Vec<u8>, Fail> {
    let mut out = Vec::new(alloc);
    for number in numbers {
        out.extend_from_slice(&number.to_be_bytes())?;
    }
    Ok(out)
}

/// Results that are OK, one for each way in which procedures have them, by the procedure's number.
const RESULTS: [(u32, &[u32]); 15] = [
    (2, &[0, 0, 0]),
    (3, &[0, 4, 0x0102_0304, 0, 0]),
    (4, &[0, 0, 63]),
    (5, &[0, 0, 1, 0x6100_0000]),
    (6, &[0, 0, 2, 1, 2, 0x6162_0000]),
    (7, &[0, 0, 0, 5, 2, 0, 9]),
    (8, &[0, 1, 4, 0x0102_0304, 0, 0, 0]),
    (14, &[0, 0, 0, 0, 0]),
    (15, &[0, 0, 0, 0]),
    (16, &[0, 0, 0, 0, 1, 0, 1, 1, 0x2e00_0000, 0, 1, 0, 1]),
    (17, &[0, 0, 0, 0, 1, 0, 1, 1, 0x2e00_0000, 0, 1, 0, 0, 0, 1]),
    (18, &[0, 0, 1, 2, 3, 4, 5, 6, 7, 8, 9, 10, 11, 12, 0]),
    (19, &[0, 0, 1, 2, 3, 4, 5, 6, 7, 0, 8, 0, 1, 27]),
    (20, &[0, 0, 65000, 255, 1, 1, 0, 1]),
    (21, &[0, 0, 0, 0, 9]),
];

#[test]
fn results_of_each_procedure_stand_behind_the_head(rt: HostRuntime) -> Result<(), Fail> {
    for (procedure, numbers) in RESULTS.iter() {
        let results = text(rt.alloc(), numbers)?;
        let reply = read_reply(rt.alloc(), *procedure, &results)?;
        let packet = reply_packet(rt.alloc(), 7, &reply)?;
        let (_, behind) = packet.as_slice().split_at_checked(24).ok_or("short")?;
        assert_eq!(rt; behind, results.as_slice(), "{procedure}");
    }
    Ok(())
}
