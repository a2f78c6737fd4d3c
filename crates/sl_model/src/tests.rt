use super::*;
use sl_defs::Time;
use sl_types::Kind;

const MOMENT: Time = Time { sec: 5, nsec: 6 };

const FILE: Node = Node {
    kind: Kind::Reg,
    mode: 420,
    nlink: 1,
    uid: 3,
    gid: 4,
    size: 5,
    major: 0,
    minor: 0,
    fsid: 7,
    fileid: 2,
    atime: MOMENT,
    mtime: MOMENT,
    ctime: MOMENT,
    parent: 0,
    entries: 0,
    made: 0,
    verifier: Some(9),
};

#[test]
fn laws_ask_for_nothing() {
    reading_keeps();
    failure_keeps();
    cuts_bytes();
    grows_by_zeros();
    plans_suffice();
    calls_are_blind();
    looking_tells();
    cells_suffice();
    views_fit();
    views_suffice();
    clean_is_seen();
    cells_follow();
    restart_keeps_tree();
}

#[test]
fn nodes_are_equal_where_each_field_is(rt: HostRuntime) {
    assert_eq!(rt; FILE, Node { ..FILE });
    assert_ne!(rt; FILE, Node { size: 6, ..FILE });
    assert_ne!(rt;
        FILE,
        Node {
            verifier: None,
            ..FILE
        }
    );
}

#[test]
fn entries_are_equal_where_each_field_is(rt: HostRuntime) {
    let entry = Entry {
        fileid: 2,
        kind: Kind::Reg,
        cookie: 3,
    };
    assert_eq!(rt; entry, Entry { ..entry });
    assert_ne!(rt; entry, Entry { cookie: 4, ..entry });
}
