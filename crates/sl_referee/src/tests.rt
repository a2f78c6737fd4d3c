use super::*;
use sl_past::read_history;
use sl_plain::Volume;
use std::alloc::Global;

/// The volume is opened, and a NULL call is answered at once.
const NULL: &[u8] = b"volume 1 switch 0 1 1 1
call 0 000000090000000000000002000186a3000000030000000000000000000000000000000000000000
= reply 1 1 000000090000000100000000000000000000000000000000
";

/// The same with a wrong byte.
const WRONG: &[u8] = b"volume 1 switch 0 1 1 1
call 0 000000090000000000000002000186a3000000030000000000000000000000000000000000000000
= reply 1 1 000000080000000100000000000000000000000000000000
";

/// Whether the history of a transcript is legal, for a server that began with volume 1.
fn is_legal_text(alloc: Global, text: &[u8]) -> Option<bool> {
    let Ok(history) = read_history(alloc, text) else {
        return None;
    };
    let Ok(volume) = Volume::new(alloc, 1) else {
        return None;
    };
    is_legal(alloc, volume, &history).ok()
}

#[test]
fn the_right_reply_is_legal(rt: HostRuntime) {
    assert_eq!(rt; is_legal_text(rt.alloc(), NULL), Some(true));
}

#[test]
fn a_wrong_reply_is_illegal(rt: HostRuntime) {
    assert_eq!(rt; is_legal_text(rt.alloc(), WRONG), Some(false));
}
