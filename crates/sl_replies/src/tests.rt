mod skipping;

use super::*;
use sl_types::{ArgsFault, Fattr, Kind, Reply, Status, Time, Wcc};
use sl_xdr::put_u32;
use std::alloc::Global;
use std::test::Fail;

/// The bytes of these numbers.
fn text(alloc: Global, numbers: &[u32]) -> Result<Vec<u8>, Fail> {
    let mut out = Vec::new(alloc);
    for number in numbers {
        put_u32(&mut out, *number)?;
    }
    Ok(out)
}

/// Results of each procedure, by its number.
const RESULTS: [(u32, &[u32]); 21] = [
    (1, &ROOT),
    (1, &[70]),
    (2, &[0, 0, 0]),
    // what stood there before is passed over
    (2, &[0, 1, 0, 9, 1, 2, 3, 4, 0]),
    (3, &[0, 4, 0x0102_0304, 0, 0]),
    (3, &[2, 0]),
    (4, &[0, 0, 63]),
    (5, &[0, 0, 1, 0x6100_0000]),
    (6, &[0, 0, 2, 1, 2, 0x6162_0000]),
    (7, &[0, 0, 0, 5, 2, 0, 9]),
    (8, &[0, 1, 4, 0x0102_0304, 0, 0, 0]),
    (11, &[10007, 0, 0]),
    (12, &[66, 0, 0]),
    (14, &[0, 0, 0, 0, 0]),
    (15, &[0, 0, 0, 0]),
    (16, &[0, 0, 0, 0, 1, 0, 1, 1, 0x2e00_0000, 0, 1, 0, 1]),
    (17, &[0, 0, 0, 0, 1, 0, 1, 1, 0x2e00_0000, 0, 1, 0, 0, 0, 1]),
    (18, &[0, 0, 1, 2, 3, 4, 5, 6, 7, 8, 9, 10, 11, 12, 0]),
    (19, &[0, 0, 1, 2, 3, 4, 5, 6, 7, 0, 8, 0, 1, 27]),
    (20, &[0, 0, 65000, 255, 1, 1, 0, 1]),
    (21, &[0, 0, 0, 0, 9]),
];

/// GETATTR of the root of volume 7.
const ROOT: [u32; 22] = [
    0, 2, 0o755, 2, 0, 0, 0, 0, 0, 0, 0, 0, 0, 7, 0, 1, 0, 0, 0, 0, 0, 0,
];

/// Whether bytes are the results of this procedure.
fn is_read(alloc: Global, procedure: u32, bytes: &[u8]) -> bool {
    match read_reply(alloc, procedure, bytes) {
        Ok(_) => true,
        Err(ArgsFault::Garbage) => false,
        Err(ArgsFault::NoMemory) => false,
    }
}

#[test]
fn whole_results_alone_are_read(rt: HostRuntime) -> Result<(), Fail> {
    for (procedure, numbers) in RESULTS.iter() {
        let mut bytes = text(rt.alloc(), numbers)?;
        assert!(rt; is_read(rt.alloc(), *procedure, &bytes), "{procedure}");
        for n in 0..bytes.len() {
            let (front, _) = bytes.as_slice().split_at_checked(n).ok_or("short")?;
            assert!(rt; !is_read(rt.alloc(), *procedure, front), "{procedure}");
        }
        bytes.push(0)?;
        assert!(rt; !is_read(rt.alloc(), *procedure, &bytes), "{procedure}");
    }
    Ok(())
}

#[test]
fn what_no_reply_is_is_garbage(rt: HostRuntime) -> Result<(), Fail> {
    // a status that isn't answered, a list that goes on, a flag of 2, a handle of 65 bytes, a procedure of no number
    let cases: [(u32, &[u32]); 5] = [
        (2, &[5, 0, 0]),
        (16, &[0, 0, 0, 0, 1, 0, 1]),
        (6, &[0, 0, 2, 2, 2, 0x6162_0000]),
        (
            3,
            &[
                0, 65, 0, 0, 0, 0, 0, 0, 0, 0, 0, 0, 0, 0, 0, 0, 0, 0, 0, 0, 0,
            ],
        ),
        (22, &[]),
    ];
    for (procedure, numbers) in cases.iter() {
        let bytes = text(rt.alloc(), numbers)?;
        assert!(rt; !is_read(rt.alloc(), *procedure, &bytes), "{procedure}");
    }
    Ok(())
}

/// Results with padding that isn't zero, each before its canonical spelling.
const PADDED: [(u32, &[u32], &[u32]); 6] = [
    (3, &[0, 1, 0x6101_0203, 0, 0], &[0, 1, 0x6100_0000, 0, 0]),
    (5, &[0, 0, 3, 0x6162_63ff], &[0, 0, 3, 0x6162_6300]),
    (
        6,
        &[0, 0, 2, 1, 2, 0x6162_ffff],
        &[0, 0, 2, 1, 2, 0x6162_0000],
    ),
    (
        8,
        &[0, 1, 2, 0x6162_0001, 0, 0, 0],
        &[0, 1, 2, 0x6162_0000, 0, 0, 0],
    ),
    (
        16,
        &[0, 0, 0, 0, 1, 0, 1, 1, 0x2eff_ffff, 0, 1, 0, 1],
        &[0, 0, 0, 0, 1, 0, 1, 1, 0x2e00_0000, 0, 1, 0, 1],
    ),
    (
        17,
        &[
            0,
            0,
            0,
            0,
            1,
            0,
            1,
            1,
            0x2e01_0000,
            0,
            1,
            0,
            1,
            1,
            0x6880_8080,
            0,
            1,
        ],
        &[
            0,
            0,
            0,
            0,
            1,
            0,
            1,
            1,
            0x2e00_0000,
            0,
            1,
            0,
            1,
            1,
            0x6800_0000,
            0,
            1,
        ],
    ),
];

#[test]
fn padding_is_not_looked_at_and_written_as_zeros(rt: HostRuntime) -> Result<(), Fail> {
    for (procedure, padded, canonical) in PADDED.iter() {
        let bytes = text(rt.alloc(), padded)?;
        let expected = text(rt.alloc(), canonical)?;
        let mut out = Vec::new(rt.alloc());
        match read_reply(rt.alloc(), *procedure, &bytes) {
            Ok(reply) => write_reply(&reply, &mut out)?,
            Err(_) => {}
        }
        assert_eq!(rt; out.as_slice(), expected.as_slice(), "{procedure}");
    }
    Ok(())
}

const START: Time = Time { sec: 0, nsec: 0 };

#[test]
fn replies_have_these_bytes(rt: HostRuntime) -> Result<(), Fail> {
    let root = Fattr {
        kind: Kind::Dir,
        mode: 0o755,
        nlink: 2,
        uid: 0,
        gid: 0,
        size: 0,
        used: 0,
        major: 0,
        minor: 0,
        fsid: 7,
        fileid: 1,
        atime: START,
        mtime: START,
        ctime: START,
    };
    let mut out = Vec::new(rt.alloc());
    write_reply(&Reply::Getattr(Ok(root)), &mut out)?;
    let expected = text(rt.alloc(), &ROOT)?;
    assert_eq!(rt; out.as_slice(), expected.as_slice());
    let removed = Reply::Remove {
        status: Status::NotEmpty,
        wcc: Wcc { after: None },
    };
    let mut out = Vec::new(rt.alloc());
    write_reply(&removed, &mut out)?;
    let expected = text(rt.alloc(), &[66, 0, 0])?;
    assert_eq!(rt; out.as_slice(), expected.as_slice());
    Ok(())
}
