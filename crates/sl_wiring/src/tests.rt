use super::*;
use sl_defs::{Policy, Setup};
use sl_past::read_history;
use sl_plain::Volume;
use std::alloc::Global;

/// An ensemble with one server of each class.
const SETUP: Setup = Setup {
    volume: 1,
    policy: Policy::Switch(0),
    dirs: 1,
    small: 1,
    nodes: 1,
};

/// The proxy says hello, and the coordinator welcomes it.
const WELCOMED: &[u8] = b"volume 1 switch 0 1 1 1
= sent 1 00010100000000010000000000000000000000000000000000000000000000000000000000000000000000000000000000000000
give 1
= sent 2 01000200000000010000000000000000000000000000000000000000000000000000000000000000000000000000000000000000
give 2
= verf 0000000100000000
";

/// The same, but the Welcome is of a fence under which nobody said hello.
const UNASKED: &[u8] = b"volume 1 switch 0 1 1 1
= sent 1 00010100000000010000000000000000000000000000000000000000000000000000000000000000000000000000000000000000
give 1
= sent 2 01000200000000020000000000000000000000000000000000000000000000000000000000000000000000000000000000000000
";

/// A frame is given that was never sent.
const UNSENT: &[u8] = b"volume 1 switch 0 1 1 1
= sent 1 00010100000000010000000000000000000000000000000000000000000000000000000000000000000000000000000000000000
give 2
";

/// Whether the history of a transcript is wired, for a server that began with volume 1.
fn is_wired_text(alloc: Global, text: &[u8]) -> Option<bool> {
    let Ok(history) = read_history(alloc, text) else {
        return None;
    };
    let Ok(volume) = Volume::new(alloc, 1) else {
        return None;
    };
    is_wired(alloc, SETUP, volume, &history).ok()
}

#[test]
fn a_welcome_follows_its_hello(rt: HostRuntime) {
    assert_eq!(rt; is_wired_text(rt.alloc(), WELCOMED), Some(true));
}

#[test]
fn an_answer_that_nobody_asked_for_is_not_wired(rt: HostRuntime) {
    assert_eq!(rt; is_wired_text(rt.alloc(), UNASKED), Some(false));
}

#[test]
fn a_frame_that_was_not_sent_is_not_given(rt: HostRuntime) {
    assert_eq!(rt; is_wired_text(rt.alloc(), UNSENT), Some(false));
}
