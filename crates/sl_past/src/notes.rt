//! The notes of a transcript, read as remarks.
ghost use Rattle.std.specs.Prelude.{◌≡◌, ◌++◌, List, ℕ, All, Err, IfOk, map};
ghost use Rattle.sl_defs.specs.Transcripts.{FitsNote, note_text};
ghost use Rattle.sl_defs.specs.declared.note.Printed.TheVariants as printed;
ghost use Rattle.sl_history.specs.Turns as turns;
ghost use Rattle.sl_history.specs.Turns.{note_of};
ghost use Rattle.sl_past.specs.Fronts.{BeginsWithRemarks, HasNoFrame};
ghost use Rattle.sl_past.specs.Transcripts.{HasFrame, IsRemark, remarks_text};
ghost use Rattle.sl_past.specs.Words.{remark_of};

use crate::fault::TranscriptFault;
use crate::lines::{begins_note, cut_line};
use crate::remark::Remark;
use sl_defs::Printed;
use sl_frames::{Frame, FrameFault};
use sl_trace::read_note;
use sl_types::LineFault;
use std::alloc::Global;

/// The remark that the frame of this number was sent, whose text these bytes are.
fn sent(alloc: Global, number: u64, bytes: &[u8]) -> Result<Remark, TranscriptFault>
    ensures found { IfOk result (λ remark. HasFrame (remark_of remark) × (note_of (remark_of remark) ≡ printed.Sent number bytes.now)) }
    ensures bad { result ≡ Err TranscriptFault.Bad → HasNoFrame (printed.Sent number bytes.now) }
{
    match Frame::read(alloc, bytes) {
        Ok(frame) => Ok(Remark::Sent { number, frame }),
        Err(FrameFault::BadFrame) => Err(TranscriptFault::Bad),
        Err(FrameFault::NoMemory) => Err(TranscriptFault::NoMemory),
    }
}

/// The remark that is printed as this note.
fn remark_in(alloc: Global, note: Printed) -> Result<Remark, TranscriptFault>
    ensures found { IfOk result (λ remark. HasFrame (remark_of remark) × (note_of (remark_of remark) ≡ note)) }
    ensures bad { result ≡ Err TranscriptFault.Bad → HasNoFrame note }
{
    match note {
        Printed::Sent { frame, bytes } => sent(alloc, frame, bytes.as_slice()),
        Printed::Did {
            arrival,
            at,
            choice,
        } => Ok(Remark::Did {
            arrival,
            at,
            choice,
        }),
        Printed::Flush(fileid) => Ok(Remark::Flush(fileid)),
        Printed::Verf(verifier) => Ok(Remark::Verf(verifier)),
        Printed::Reply {
            arrival,
            event,
            bytes,
        } => Ok(Remark::Replied {
            arrival,
            event,
            bytes,
        }),
        Printed::Junk(arrival) => Ok(Remark::Junk(arrival)),
        Printed::Early(arrival) => Ok(Remark::Early(arrival)),
        Printed::Full(arrival) => Ok(Remark::Full(arrival)),
        Printed::Lost(arrival) => Ok(Remark::Lost(arrival)),
        Printed::Down(actor) => Ok(Remark::Down(actor)),
    }
}

/// The remark whose note is this line.
fn read_remark(alloc: Global, line: &[u8]) -> Result<Remark, TranscriptFault>
    ensures found { IfOk result (λ remark. IsRemark (remark_of remark) × (line.now ≡ note_text (note_of (remark_of remark)))) }
    ensures bad { result ≡ Err TranscriptFault.Bad → (remark : turns.Remark) → FitsNote (note_of remark) → IsRemark remark
        → line.now ≡ note_text (note_of remark) → ⊥ }
{
    match read_note(alloc, line) {
        Ok(note) => remark_in(alloc, note),
        Err(LineFault::Bad) => Err(TranscriptFault::Bad),
        Err(LineFault::NoMemory) => Err(TranscriptFault::NoMemory),
    }
}

/// The remarks whose notes stand at the front of the text, and what is left behind them.
pub fn read_remarks(alloc: Global, text: &[u8]) -> Result<(Vec<Remark>, &[u8]), TranscriptFault>
    ensures found { IfOk result (λ x. All IsRemark (map remark_of x.0.items) × (text.now ≡ remarks_text (map remark_of x.0.items) ++ x.1.now)) }
    ensures rest { IfOk result (λ x. (remarks : List turns.Remark) (rest : List ℕ) → BeginsWithRemarks text.now remarks rest → x.1.now ≡ rest) }
    ensures bad { result ≡ Err TranscriptFault.Bad → (remarks : List turns.Remark) (rest : List ℕ) → BeginsWithRemarks text.now remarks rest → ⊥ }
{
    let mut remarks = Vec::new(alloc);
    let mut rest = text;
    while begins_note(rest) {
        let Some((line, behind)) = cut_line(rest) else {
            return Err(TranscriptFault::Bad);
        };
        let remark = read_remark(alloc, line)?;
        if remarks.push(remark).is_err() {
            return Err(TranscriptFault::NoMemory);
        }
        rest = behind;
    }
    Ok((remarks, rest))
}
