//! Requests, a line each, and their answers.
ghost use Rattle.std.specs.Prelude.{◌≡◌, ◌^◌, ◌<◌, ◌++◌, ℕ, List, IfOk, OnOk, Some, None, codes};
ghost use Rattle.sl_defs.specs.Items.{AreBytes};
ghost use Rattle.sl_defs.specs.declared.setup.Setup.{Setup};
ghost use Rattle.reread.specs.Answers.{IsCallAnswer, IsLineAnswer, IsNoteAnswer, IsReplyAnswer, IsVolumeOf, packet_text};

use crate::packets::{packet_of, reread_call, reread_reply};
use crate::texts::{first_volume, reread_line, reread_note};
use crate::words::word;
use sl_text::behind;
use sl_types::{NoMemory, Setup};
use std::alloc::Global;

/// The answer to a call's arguments.
fn answer_call(alloc: Global, text: &[u8]) -> Result<Vec<u8>, NoMemory>
    ensures { (procedure : ℕ) (bytes : List ℕ) → procedure < 2 ^ 32 → AreBytes bytes → text.now ≡ packet_text procedure bytes
        → IfOk result (λ answer. IsCallAnswer procedure bytes answer.items) }
{
    let (procedure, bytes) = packet_of(alloc, text)?;
    reread_call(alloc, procedure, bytes.as_slice())
}

/// The answer to a reply's results.
fn answer_reply(alloc: Global, text: &[u8]) -> Result<Vec<u8>, NoMemory>
    ensures { (procedure : ℕ) (bytes : List ℕ) → procedure < 2 ^ 32 → AreBytes bytes → text.now ≡ packet_text procedure bytes
        → IfOk result (λ answer. IsReplyAnswer procedure bytes answer.items) }
{
    let (procedure, bytes) = packet_of(alloc, text)?;
    reread_reply(alloc, procedure, bytes.as_slice())
}

/// The answer to a request. A first line makes its volume the one that later lines are of; where it is bad, there is none.
pub fn answer(
    alloc: Global,
    request: &[u8],
    volume: &mut Option<Setup>,
) -> Result<Vec<u8>, NoMemory>
    ensures call { (procedure : ℕ) (bytes : List ℕ) → procedure < 2 ^ 32 → AreBytes bytes
        → request.now ≡ codes "call " ++ packet_text procedure bytes
        → IfOk result (λ answer. IsCallAnswer procedure bytes answer.items) }
    ensures reply { (procedure : ℕ) (bytes : List ℕ) → procedure < 2 ^ 32 → AreBytes bytes
        → request.now ≡ codes "reply " ++ packet_text procedure bytes
        → IfOk result (λ answer. IsReplyAnswer procedure bytes answer.items) }
    ensures first { (text : List ℕ) → request.now ≡ codes "first " ++ text → IfOk result (λ answer. IsLineAnswer None text answer.items) }
    ensures volume { (text : List ℕ) → request.now ≡ codes "first " ++ text → OnOk result (IsVolumeOf text volume.new) }
    ensures later { (text : List ℕ) (setup : Setup) → volume.old ≡ Some setup → request.now ≡ codes "later " ++ text
        → IfOk result (λ answer. IsLineAnswer (Some setup) text answer.items) }
    ensures note { (text : List ℕ) → request.now ≡ codes "note " ++ text → IfOk result (λ answer. IsNoteAnswer text answer.items) }
{
    if let Some(rest) = behind(request, b"call ") {
        return answer_call(alloc, rest);
    }
    if let Some(rest) = behind(request, b"reply ") {
        return answer_reply(alloc, rest);
    }
    if let Some(rest) = behind(request, b"first ") {
        *volume = first_volume(alloc, rest)?;
        return reread_line(alloc, rest, None);
    }
    if let Some(rest) = behind(request, b"later ") {
        return reread_line(alloc, rest, volume.as_ref());
    }
    if let Some(rest) = behind(request, b"note ") {
        return reread_note(alloc, rest);
    }
    word(alloc, b"no request")
}
