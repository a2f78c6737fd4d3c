//! What stands behind the first word of a note. Of parts that spell nothing of the kind, nothing is said.
ghost use Rattle.std.specs.Prelude.{◌≡◌, ◌^◌, ◌<◌, ℕ, List, IfOk};
ghost use Rattle.sl_defs.specs.declared.setup.Time.{Time};
ghost use Rattle.sl_defs.specs.declared.note.Choice.{Choice};
ghost use Rattle.sl_defs.specs.Items.{AreBytes};
ghost use Rattle.sl_defs.specs.Schedules.{FitsMoment, moment_text};
ghost use Rattle.sl_defs.specs.Transcripts.{FitsDid, FitsReply, choice_text, did_text, reply_text, sent_text, verifier_text};

use hex::decode_to_slice;
use sl_text::{cut, hex_bytes, number_u32, number_u64};
use sl_types::{Bytes, Choice, NoMemory, Time};
use std::alloc::Global;

/// A frame and its bytes.
pub fn sent_of(alloc: Global, text: &[u8]) -> Result<(u64, Bytes), NoMemory>
    ensures { (frame : ℕ) (bytes : List ℕ) → frame < 2 ^ 64 → AreBytes bytes → text.now ≡ sent_text frame bytes
        → IfOk result (λ x. (x.0 ≡ frame) × (x.1 ≡ bytes)) }
{
    let (frame, hex) = cut(text);
    let frame = number_u64(frame);
    match hex_bytes(alloc, hex) {
        Ok(bytes) => Ok((frame, bytes)),
        Err(e) => Err(e),
    }
}

/// A call, the event whose answer it is, and the reply's bytes.
pub fn reply_of(alloc: Global, text: &[u8]) -> Result<(u64, u64, Bytes), NoMemory>
    ensures { (arrival event : ℕ) (bytes : List ℕ) → FitsReply arrival event bytes → text.now ≡ reply_text arrival event bytes
        → IfOk result (λ x. (x.0 ≡ arrival) × (x.1 ≡ event) × (x.2 ≡ bytes)) }
{
    let (arrival, rest) = cut(text);
    let (event, hex) = cut(rest);
    let arrival = number_u64(arrival);
    let event = number_u64(event);
    match hex_bytes(alloc, hex) {
        Ok(bytes) => Ok((arrival, event, bytes)),
        Err(e) => Err(e),
    }
}

/// A fileid, and whether the number behind it is 1.
fn choice_of(text: &[u8]) -> Choice
    ensures { (c : Choice) → c.fileid < 2 ^ 64 → text.now ≡ choice_text c → result ≡ c }
{
    let (fileid, kept) = cut(text);
    Choice {
        fileid: number_u64(fileid),
        kept: number_u64(kept) == 1,
    }
}

/// A call, a moment and a choice.
pub fn did_of(text: &[u8]) -> (u64, Time, Choice)
    ensures { (arrival : ℕ) (at : Time) (choice : Choice) → FitsDid arrival at choice → text.now ≡ did_text arrival at choice
        → (result.0 ≡ arrival) × (result.1 ≡ at) × (result.2 ≡ choice) }
{
    let (arrival, rest) = cut(text);
    let (sec, rest) = cut(rest);
    let (nsec, rest) = cut(rest);
    let at = Time {
        sec: number_u32(sec),
        nsec: number_u32(nsec),
    };
    (number_u64(arrival), at, choice_of(rest))
}

/// A write verifier of 16 digits.
pub fn verifier_of(text: &[u8]) -> u64
    ensures { (v : ℕ) → v < 2 ^ 64 → text.now ≡ verifier_text v → result ≡ v }
{
    let mut bytes = [0; 8];
    match decode_to_slice(text, &mut bytes) {
        Ok(()) => u64::from_be_bytes(bytes),
        Err(_) => 0,
    }
}
