use super::*;
use sl_types::{Fattr, Kind, Sattr, SetTime, Time};
use sl_xdr::Cursor;
use std::test::Fail;

#[test]
fn attributes_are_read_again(rt: HostRuntime) -> Result<(), Fail> {
    let time = Time { sec: 1, nsec: 2 };
    let sattr = Sattr {
        mode: Some(420),
        uid: None,
        gid: Some(3),
        size: Some(4),
        atime: SetTime::Server,
        mtime: SetTime::Client(time),
    };
    let fattr = Fattr {
        kind: Kind::Fifo,
        mode: 1,
        nlink: 2,
        uid: 3,
        gid: 4,
        size: 5,
        used: 6,
        major: 7,
        minor: 8,
        fsid: 9,
        fileid: 10,
        atime: time,
        mtime: time,
        ctime: time,
    };
    let mut out = Vec::new(rt.alloc());
    put_sattr(&mut out, sattr)?;
    assert_eq!(rt; out.len(), 48);
    put_optional_fattr(&mut out, Some(fattr))?;
    assert_eq!(rt; out.len(), 136);
    let mut cursor = Cursor::new(&out);
    assert_eq!(rt; take_sattr(&mut cursor)?, sattr);
    assert_eq!(rt; take_optional_fattr(&mut cursor)?, Some(fattr));
    Ok(())
}

#[test]
fn handles_and_names_are_seen_where_they_stand(rt: HostRuntime) -> Result<(), Fail> {
    let mut cursor = Cursor::new(b"\0\0\0\x01h\x01\x02\x03\0\0\0\x02ab\0\0\0\0\0A");
    assert_eq!(rt; borrow_fh(&mut cursor)?, b"h".as_slice());
    assert_eq!(rt; borrow_bytes(&mut cursor)?, b"ab".as_slice());
    assert!(rt; borrow_fh(&mut cursor).is_err());
    Ok(())
}
