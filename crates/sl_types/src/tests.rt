use super::*;
use std::test::Fail;

#[test]
fn copies_are_equal(rt: HostRuntime) -> Result<(), Fail> {
    let name = Name::new(Bytes::new(vec![in rt.alloc(); 97, 98]?));
    assert_eq!(rt; name.copy()?.as_slice(), b"ab".as_slice());
    let handle = Fh::new(Bytes::new(vec![in rt.alloc(); 1, 2]?));
    assert_eq!(rt; handle.copy()?.as_slice(), [1, 2].as_slice());
    let mut gids = Gids::new();
    gids.push(7);
    assert_eq!(rt; gids.copy().as_slice(), [7].as_slice());
    Ok(())
}

/// The root of volume 7.
const ROOT: Handle = Handle {
    volume: 7,
    fileid: 1,
    kind: Kind::Dir,
};

const ROOT_BYTES: [u8; 32] = [
    0x53, 0x4c, 0x48, 0x31, 0, 0, 0, 0, 0, 0, 0, 0, 0, 0, 0, 7, 0, 0, 0, 0, 0, 0, 0, 1, 0, 0, 0, 2,
    0, 0, 0, 0,
];

/// The same among the servers, for site 63 and actor 16.
const INTERNAL_BYTES: [u8; 32] = [
    0x53, 0x4c, 0x48, 0x31, 0, 0, 0, 0, 0, 0, 0, 0, 0, 0, 0, 7, 0, 0, 0, 0, 0, 0, 0, 1, 0, 0, 0, 2,
    0, 63, 0, 16,
];

#[test]
fn handles_have_these_bytes(rt: HostRuntime) {
    assert_eq!(rt; ROOT.bytes().as_slice(), ROOT_BYTES.as_slice());
    assert_eq!(rt; Handle::read(&ROOT_BYTES), Some(ROOT));
    assert_eq!(rt; Handle::read(&ROOT_BYTES[..31]), None);
    let internal = InternalHandle {
        handle: ROOT,
        site: 63,
        actor: 16,
    };
    assert_eq!(rt; internal.bytes().as_slice(), INTERNAL_BYTES.as_slice());
    assert_eq!(rt; InternalHandle::read(&INTERNAL_BYTES), Some(internal));
    assert_eq!(rt;
        Handle::read(&INTERNAL_BYTES),
        None,
        "a client has no such handle"
    );
}
