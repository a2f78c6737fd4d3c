use super::*;
use sl_past::{Remark, Turn, read_history};
use sl_plain::Volume;
use sl_types::{Reply, Status};
use std::alloc::Global;
use std::test::Fail;

/// The opening of a volume: Hello, Welcome, and the write verifier. Then a fileid is asked for.
const OPENING: &[u8] = b"volume 1 switch 0 1 1 1
= sent 1 00010100000000010000000000000000000000000000000000000000000000000000000000000000000000000000000000000000
give 1
= sent 2 01000200000000010000000000000000000000000000000000000000000000000000000000000000000000000000000000000000
copy 2
= verf 0000000100000000
= sent 3 0010090000000001000000000000000000000005000000000000000500000000000000000000000000000000000000000000000100000000
";

/// Two frames under each number: of one turn the first counts, and of several turns the newest turn's.
const AGAIN: &[u8] = b"volume 1 switch 0 1 1 1
= sent 1 00010100000000010000000000000000000000000000000000000000000000000000000000000000000000000000000000000000
= sent 1 01000200000000010000000000000000000000000000000000000000000000000000000000000000000000000000000000000000
= sent 2 00010100000000010000000000000000000000000000000000000000000000000000000000000000000000000000000000000000
tick
= sent 2 01000200000000010000000000000000000000000000000000000000000000000000000000000000000000000000000000000000
";

/// Calls, all of them GETATTR but the second, which is NULL. The first has its reply, the third is dropped, and the note that
/// drops the fourth comes too late.
const CALLS: &[u8] = b"volume 1 switch 0 1 1 1
call 0 000000090000000000000002000186a3000000030000000100000000000000000000000000000000000000040000000a
call 0 000000090000000000000002000186a3000000030000000000000000000000000000000000000000
call 0 000000090000000000000002000186a3000000030000000100000000000000000000000000000000000000040000000a
= reply 1 3 00
= early 3
call 0 000000090000000000000002000186a3000000030000000100000000000000000000000000000000000000040000000a
tick
= early 4
";

/// A directory server stops, and the coordinator ends and starts.
const STOPS: &[u8] = b"volume 1 switch 0 2 1 1
stop 16 0
= down 1
start 1
= down 0
";

/// The ledger of these turns, of which the newest is the first.
fn ledger_of(alloc: Global, history: &[Turn]) -> Option<Ledger> {
    let mut ledger = Ledger::new(alloc).ok()?;
    for turn in history.iter().rev() {
        ledger.begin(alloc, turn.happening()).ok()?;
        for remark in turn.remarks() {
            ledger.note(alloc, remark).ok()?;
        }
    }
    Some(ledger)
}

/// The ledger of a transcript.
fn read(alloc: Global, text: &[u8]) -> Option<Ledger> {
    let Ok(history) = read_history(alloc, text) else {
        return None;
    };
    ledger_of(alloc, &history)
}

/// How many events and frames there were.
fn counts(alloc: Global, text: &[u8]) -> Option<(u64, u64)> {
    let ledger = read(alloc, text)?;
    Some((ledger.events(), ledger.frames()))
}

/// Who sent the frame of this number.
fn sender(alloc: Global, text: &[u8], number: u64) -> Option<u8> {
    let ledger = read(alloc, text)?;
    ledger.frame(number).map(|frame| frame.from)
}

/// Whether the frame of this number is in flight, and whether none is.
fn flight(alloc: Global, text: &[u8], number: u64) -> Option<(bool, bool)> {
    let ledger = read(alloc, text)?;
    Some((ledger.is_flying(number), ledger.is_still()))
}

/// Who sent the frame that is given, and in which event.
fn given(alloc: Global, text: &[u8]) -> Option<(Option<u8>, Option<u64>)> {
    let ledger = read(alloc, text)?;
    Some((ledger.reached().map(|frame| frame.from), ledger.sent_in()))
}

/// To whom the first request under this fence and tag was sent.
fn receiver(alloc: Global, text: &[u8], fence: u64, tag: u64) -> Option<u8> {
    let ledger = read(alloc, text)?;
    ledger.request(fence, tag).map(|frame| frame.to)
}

/// The fence of the last Hello, and the last write verifier.
fn fences(alloc: Global, text: &[u8]) -> Option<(Option<u64>, Option<u64>)> {
    let ledger = read(alloc, text)?;
    Some((ledger.last_hello(), ledger.last_verf()))
}

/// The procedure of the call that arrived in this event.
fn procedure(alloc: Global, text: &[u8], event: u64) -> Option<u32> {
    let ledger = read(alloc, text)?;
    ledger.asked(event).map(|asked| asked.procedure)
}

/// Whether the newest turn brings a datagram.
fn has_arrived(alloc: Global, text: &[u8]) -> Option<bool> {
    let ledger = read(alloc, text)?;
    Some(ledger.arrived().is_some())
}

/// The only call that waits.
fn only_waiting(alloc: Global, text: &[u8]) -> Option<u64> {
    let ledger = read(alloc, text)?;
    match ledger.waiting() {
        [event] => Some(*event),
        _ => None,
    }
}

/// Whether this actor is up, and whether it was as the newest turn began.
fn ups(alloc: Global, text: &[u8], actor: u8) -> Option<(bool, bool)> {
    let ledger = read(alloc, text)?;
    Some((ledger.is_up(actor), ledger.was_up(actor)))
}

/// The verifier of the volume, once this note was served.
fn verifier_behind(alloc: Global, text: &[u8], remark: &Remark) -> Option<u64> {
    let ledger = read(alloc, text)?;
    let mut volume = Volume::new(alloc, 1).ok()?;
    match serve(alloc, &ledger, &mut volume, remark) {
        Ok(_) => Some(volume.verifier()),
        Err(_) => None,
    }
}

#[test]
fn events_and_frames_are_counted(rt: HostRuntime) {
    assert_eq!(rt; counts(rt.alloc(), OPENING), Some((2, 3)));
}

#[test]
fn frames_are_found_by_their_numbers(rt: HostRuntime) {
    assert_eq!(rt; sender(rt.alloc(), OPENING, 2), Some(1));
    assert_eq!(rt; sender(rt.alloc(), OPENING, 4), None);
}

#[test]
fn the_first_frame_of_the_newest_turn_counts(rt: HostRuntime) {
    assert_eq!(rt; sender(rt.alloc(), AGAIN, 1), Some(0));
    assert_eq!(rt; sender(rt.alloc(), AGAIN, 2), Some(1));
}

#[test]
fn a_copied_frame_stays_in_flight(rt: HostRuntime) {
    assert_eq!(rt; flight(rt.alloc(), OPENING, 1), Some((false, false)));
    assert_eq!(rt; flight(rt.alloc(), OPENING, 2), Some((true, false)));
}

#[test]
fn a_frame_is_given_to_who_is_up(rt: HostRuntime) {
    assert_eq!(rt; given(rt.alloc(), OPENING), Some((Some(1), Some(1))));
}

#[test]
fn requests_are_found_by_fence_and_tag(rt: HostRuntime) {
    assert_eq!(rt; receiver(rt.alloc(), OPENING, 1 << 32, 5), Some(16));
    assert_eq!(rt; receiver(rt.alloc(), OPENING, 1 << 32, 0), None);
}

#[test]
fn the_fences_are_known(rt: HostRuntime) {
    assert_eq!(rt;
        fences(rt.alloc(), OPENING),
        Some((Some(1 << 32), Some(1 << 32)))
    );
}

#[test]
fn calls_that_ask_something_are_known(rt: HostRuntime) {
    assert_eq!(rt; procedure(rt.alloc(), CALLS, 1), Some(1));
    assert_eq!(rt; procedure(rt.alloc(), CALLS, 2), None);
    assert_eq!(rt; has_arrived(rt.alloc(), CALLS), Some(false));
}

#[test]
fn one_call_waits(rt: HostRuntime) {
    assert_eq!(rt; only_waiting(rt.alloc(), CALLS), Some(4));
}

#[test]
fn actors_stop_and_start(rt: HostRuntime) {
    assert_eq!(rt; ups(rt.alloc(), STOPS, 0), Some((false, true)));
    assert_eq!(rt; ups(rt.alloc(), STOPS, 1), Some((true, false)));
    assert_eq!(rt; ups(rt.alloc(), STOPS, 16), Some((false, false)));
}

#[test]
fn notes_are_served(rt: HostRuntime) {
    let verf = Remark::Verf(7);
    assert_eq!(rt; verifier_behind(rt.alloc(), CALLS, &verf), Some(7));
    let flush = Remark::Flush(1);
    assert_eq!(rt; verifier_behind(rt.alloc(), CALLS, &flush), Some(0));
}

/// The reply to a GETATTR that its handle is stale: xid 9, an accepted call's reply, and status 70.
const STALE: &[u8] = b"\0\0\0\x09\0\0\0\x01\0\0\0\0\0\0\0\0\0\0\0\0\0\0\0\0\0\0\0\x46";

#[test]
fn a_packet_has_its_results(rt: HostRuntime) -> Result<(), Fail> {
    let results = results_of(rt.alloc(), 1, STALE)?;
    assert!(rt; matches!(results, Some(Reply::Getattr(Err(Status::Stale)))));
    Ok(())
}
