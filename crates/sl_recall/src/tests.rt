use super::*;
use sl_past::read_history;
use std::alloc::Global;

/// A call waits when a new write verifier stands, and is replied all the same.
const FORGOTTEN: &[u8] = b"volume 1 switch 0 1 1 1
call 0 000000090000000000000002000186a300000003000000010000000000000000000000000000000000000020534c483100000000000000000000000100000000000000020000000100000000
= verf 0000000100000000
= reply 1 1 00
";

/// A reply tells the attributes of a regular file, which the next call asks for.
const TOLD: &[u8] = b"volume 1 switch 0 1 1 1
call 0 000000090000000000000002000186a300000003000000010000000000000000000000000000000000000020534c483100000000000000000000000100000000000000020000000100000000
= reply 1 1 0000000900000001000000000000000000000000000000000000000000000001000001a400000001000000000000000000000000000000000000000000000000000000000000000000000000000000010000000000000002000000000000000000000000000000000000000000000000
call 0 000000090000000000000002000186a300000003000000010000000000000000000000000000000000000020534c483100000000000000000000000100000000000000020000000100000000
";

/// The same, and the next call is handed on to a server.
const ASKED_AGAIN: &[u8] = b"volume 1 switch 0 1 1 1
call 0 000000090000000000000002000186a300000003000000010000000000000000000000000000000000000020534c483100000000000000000000000100000000000000020000000100000000
= reply 1 1 0000000900000001000000000000000000000000000000000000000000000001000001a400000001000000000000000000000000000000000000000000000000000000000000000000000000000000010000000000000002000000000000000000000000000000000000000000000000
call 0 000000090000000000000002000186a300000003000000010000000000000000000000000000000000000020534c483100000000000000000000000100000000000000020000000100000000
= sent 1 0010030000000000000000010000000000000001000000000000000100000000000000000000000000000000000000000000000200000000000000000000004c000000090000000000000002000186a300000003000000010000000000000000000000000000000000000020534c483100000000000000000000000100000000000000020000000100000000
";

/// The proxy says hello, and is never answered.
const UNWELCOME: &[u8] = b"volume 1 switch 0 1 1 1
= sent 1 00010100000000010000000000000000000000000000000000000000000000000000000000000000000000000000000000000000
give 1
";

/// The same, but the frame is lost.
const LOST: &[u8] = b"volume 1 switch 0 1 1 1
= sent 1 00010100000000010000000000000000000000000000000000000000000000000000000000000000000000000000000000000000
drop 1
";

/// Whether the history of a transcript is fenced.
fn is_fenced_text(alloc: Global, text: &[u8]) -> Option<bool> {
    let Ok(history) = read_history(alloc, text) else {
        return None;
    };
    is_fenced(alloc, &history).ok()
}

/// Whether the history of a transcript remembers.
fn remembers_text(alloc: Global, text: &[u8]) -> Option<bool> {
    let Ok(history) = read_history(alloc, text) else {
        return None;
    };
    remembers(alloc, &history).ok()
}

/// Whether the history of a transcript is completed.
fn is_completed_text(alloc: Global, text: &[u8]) -> Option<bool> {
    let Ok(history) = read_history(alloc, text) else {
        return None;
    };
    is_completed(alloc, &history).ok()
}

#[test]
fn a_call_that_waits_may_be_replied(rt: HostRuntime) {
    assert_eq!(rt; is_fenced_text(rt.alloc(), TOLD), Some(true));
}

#[test]
fn a_forgotten_call_is_not_replied(rt: HostRuntime) {
    assert_eq!(rt; is_fenced_text(rt.alloc(), FORGOTTEN), Some(false));
}

#[test]
fn a_file_is_told_once(rt: HostRuntime) {
    assert_eq!(rt; remembers_text(rt.alloc(), TOLD), Some(true));
}

#[test]
fn a_file_is_not_asked_for_again(rt: HostRuntime) {
    assert_eq!(rt; remembers_text(rt.alloc(), ASKED_AGAIN), Some(false));
}

#[test]
fn what_is_lost_completes_nothing(rt: HostRuntime) {
    assert_eq!(rt; is_completed_text(rt.alloc(), LOST), Some(true));
}

#[test]
fn the_proxy_is_welcomed(rt: HostRuntime) {
    assert_eq!(rt; is_completed_text(rt.alloc(), UNWELCOME), Some(false));
}
