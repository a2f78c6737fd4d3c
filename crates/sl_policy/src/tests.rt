use super::*;

/// A directory of site 5.
const SRC: u64 = 5 * 1_099_511_627_776 + 7;

/// The last fileid of all.
const LAST: u64 = 70_368_744_177_663;

#[test]
fn a_fileid_tells_its_site(rt: HostRuntime) {
    assert_eq!(rt; site_of(1), 0);
    assert_eq!(rt; site_of(1_099_511_627_775), 0);
    assert_eq!(rt; site_of(SRC), 5);
    assert_eq!(rt; site_of(LAST), 63);
}

/// The hashes are Python's, by `hashlib.md5(directory.to_bytes(8, 'big') + name)`.
#[test]
fn under_hash_the_hash_gives_the_site(rt: HostRuntime) {
    assert_eq!(rt; name_site(Policy::Hash, 1, b"etc"), 60);
    assert_eq!(rt; name_site(Policy::Hash, SRC, b"src"), 37);
    assert_eq!(rt; name_site(Policy::Hash, LAST, b"file.txt"), 53);
    assert_eq!(rt; object_site(Policy::Hash, 1, b"a", false), 35);
    assert_eq!(rt; object_site(Policy::Hash, 1, b"b", true), 26);
}

#[test]
fn under_switch_names_and_files_stay(rt: HostRuntime) {
    assert_eq!(rt; name_site(Policy::Switch(255), SRC, b"src"), 5);
    assert_eq!(rt; object_site(Policy::Switch(255), SRC, b"src", false), 5);
}

/// The hash's ninth byte is 47 for `etc` in directory 1, and 103 for `src` in that of site 5.
#[test]
fn under_switch_directories_leave_below_the_bound(rt: HostRuntime) {
    assert_eq!(rt; object_site(Policy::Switch(48), 1, b"etc", true), 60);
    assert_eq!(rt; object_site(Policy::Switch(47), 1, b"etc", true), 0);
    assert_eq!(rt; object_site(Policy::Switch(104), SRC, b"src", true), 37);
    assert_eq!(rt; object_site(Policy::Switch(103), SRC, b"src", true), 5);
    assert_eq!(rt; object_site(Policy::Switch(0), 1, b"etc", true), 0);
}
