//! Requests, a line each, and their answers.
ghost use Rattle.std.specs.Prelude.{◌≡◌, ◌^◌, ◌<◌, ◌++◌, ℕ, List, IfOk, codes, decimal};
ghost use Rattle.sl_defs.specs.declared.note.Choice.{Choice};
ghost use Rattle.sl_defs.specs.declared.setup.Time.{Time};
ghost use Rattle.sl_model.specs.Volume as volumes;
ghost use Rattle.plainly.specs.declared.answers.Answer.TheVariants.{Flushed, Restarted};
ghost use Rattle.plainly.specs.Answers.{FitsRequest, IsCallAnswer, Prints, call_text};

use crate::answers::Answer;
use crate::calls::{answer_call, call_of};
use sl_plain::Volume;
use sl_text::{behind, number_u64};
use sl_types::NoMemory;
use std::alloc::Global;

/// The answer to a request.
fn answer(alloc: Global, volume: &mut Volume, request: &[u8]) -> Result<Answer, NoMemory>
    ensures call { (at : Time) (choice : Choice) (datagram : List ℕ) → FitsRequest at choice datagram
        → request.now ≡ codes "call " ++ call_text at choice datagram
        → IfOk result (IsCallAnswer volume.old volume.new at choice datagram) }
    ensures restart { (verifier : ℕ) → verifier < 2 ^ 64 → request.now ≡ codes "restart " ++ decimal verifier
        → IfOk result (λ answer. (answer ≡ Restarted) × (volume.new ≡ volumes.restart verifier volume.old)) }
    ensures flush { (fileid : ℕ) → fileid < 2 ^ 64 → request.now ≡ codes "flush " ++ decimal fileid
        → IfOk result (λ answer. (answer ≡ Flushed) × (volume.new ≡ volumes.flush fileid volume.old)) }
{
    if let Some(rest) = behind(request, b"call ") {
        let (at, choice, datagram) = call_of(alloc, rest)?;
        return answer_call(alloc, volume, datagram.as_slice(), at, choice);
    }
    if let Some(rest) = behind(request, b"restart ") {
        volume.restart(alloc, number_u64(rest));
        return Ok(Answer::Restarted);
    }
    if let Some(rest) = behind(request, b"flush ") {
        volume.flush(number_u64(rest))?;
        return Ok(Answer::Flushed);
    }
    Ok(Answer::NoRequest)
}

/// The line that answers a request.
pub fn answer_text(alloc: Global, volume: &mut Volume, request: &[u8]) -> Result<Vec<u8>, NoMemory>
    ensures call { (at : Time) (choice : Choice) (datagram : List ℕ) → FitsRequest at choice datagram
        → request.now ≡ codes "call " ++ call_text at choice datagram
        → IfOk result (λ text. Prints (IsCallAnswer volume.old volume.new at choice datagram) text.items) }
    ensures restart { (verifier : ℕ) → verifier < 2 ^ 64 → request.now ≡ codes "restart " ++ decimal verifier
        → IfOk result (λ text. (text.items ≡ codes "restarted") × (volume.new ≡ volumes.restart verifier volume.old)) }
    ensures flush { (fileid : ℕ) → fileid < 2 ^ 64 → request.now ≡ codes "flush " ++ decimal fileid
        → IfOk result (λ text. (text.items ≡ codes "flushed") × (volume.new ≡ volumes.flush fileid volume.old)) }
{
    let answer = answer(alloc, volume, request)?;
    answer.text(alloc)
}
