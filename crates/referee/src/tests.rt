use super::*;
use std::alloc::Global;

/// Each claim holds.
const RIGHT: Findings = Findings {
    legal: Answer::Yes,
    licensed: Answer::Yes,
    wired: Answer::Yes,
    fenced: Answer::Yes,
    remembering: Answer::Yes,
    completed: Answer::Yes,
};

/// What is found of a transcript, where the text is one.
fn found(alloc: Global, text: &[u8]) -> Option<Findings> {
    match judge(alloc, text).ok()? {
        Verdict::Found(findings) => Some(findings),
        Verdict::NoTranscript => None,
    }
}

/// The opening of a volume.
const OPENING: &[u8] = b"volume 1 switch 0 1 1 1
= sent 1 00010100000000010000000000000000000000000000000000000000000000000000000000000000000000000000000000000000
";

#[test]
fn an_opening_is_right(rt: HostRuntime) {
    assert_eq!(rt; found(rt.alloc(), OPENING), Some(RIGHT));
}

/// A reply to no call.
const REPLY_TO_NOTHING: &[u8] = b"volume 1 switch 0 1 1 1
tick
= reply 1 1 00
";

#[test]
fn a_reply_to_no_call_is_illegal(rt: HostRuntime) {
    let legal = found(rt.alloc(), REPLY_TO_NOTHING).map(|findings| findings.legal);
    assert_eq!(rt; legal, Some(Answer::No));
}

/// A second write verifier, though nothing has ended since the first.
const TWO_VERIFIERS: &[u8] = b"volume 1 switch 0 1 1 1
tick
= verf 0000000100000000
tick
= verf 0000000100000001
";

#[test]
fn a_verifier_that_is_not_due_is_not_licensed(rt: HostRuntime) {
    let licensed = found(rt.alloc(), TWO_VERIFIERS).map(|findings| findings.licensed);
    assert_eq!(rt; licensed, Some(Answer::No));
}

/// A frame is given that was never sent.
const GIVEN_FROM_NOWHERE: &[u8] = b"volume 1 switch 0 1 1 1
give 1
";

#[test]
fn a_frame_that_was_never_sent_is_not_wired(rt: HostRuntime) {
    let wired = found(rt.alloc(), GIVEN_FROM_NOWHERE).map(|findings| findings.wired);
    assert_eq!(rt; wired, Some(Answer::No));
}

#[test]
fn a_text_without_an_end_of_line_is_no_transcript(rt: HostRuntime) {
    let verdict = judge(rt.alloc(), b"volume 1 switch 0 1 1 1").ok();
    assert_eq!(rt; verdict, Some(Verdict::NoTranscript));
}

#[test]
fn each_answer_has_its_word(rt: HostRuntime) {
    assert_eq!(rt; word_of(Answer::Yes), "yes");
    assert_eq!(rt; word_of(Answer::TooLong), "too long");
}
