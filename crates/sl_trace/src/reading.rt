ghost use Rattle.std.specs.Prelude.{◌≡◌, ◌<◌, ◌^◌, IfOk, IfSome, IsTrue, ◌↔◌};
ghost use Rattle.sl_types.specs.declared.fault.LineFault.TheVariants.{Bad};
ghost use Rattle.sl_defs.specs.declared.note.Printed.{Printed};
ghost use Rattle.sl_defs.specs.Transcripts.{FitsNote, IsNote, IsNumbered, note_text};

use crate::parts::{did_of, reply_of, sent_of, verifier_of};
use crate::writing::write_note;
use sl_defs::Printed;
use sl_text::{behind, number_u8, number_u64};
use sl_types::{LineFault, NoMemory};
use std::alloc::Global;

/// A note that the text may spell: if it spells any, it spells this one.
fn note_of(alloc: Global, text: &[u8]) -> Result<Printed, NoMemory>
    ensures { (note : Printed) → FitsNote note → text.now ≡ note_text note → IfOk result (λ found. found ≡ note) }
{
    if let Some(rest) = behind(text, b"= sent ") {
        let (frame, bytes) = sent_of(alloc, rest)?;
        return Ok(Printed::Sent { frame, bytes });
    }
    if let Some(rest) = behind(text, b"= reply ") {
        let (arrival, event, bytes) = reply_of(alloc, rest)?;
        return Ok(Printed::Reply {
            arrival,
            event,
            bytes,
        });
    }
    if let Some(rest) = behind(text, b"= did ") {
        let (arrival, at, choice) = did_of(rest);
        return Ok(Printed::Did {
            arrival,
            at,
            choice,
        });
    }
    Ok(numbered_of(text))
}

/// The same, of a note that has one number and no bytes.
fn numbered_of(text: &[u8]) -> Printed
    ensures { (note : Printed) → FitsNote note → text.now ≡ note_text note → IsNumbered note → result ≡ note }
{
    if let Some(rest) = behind(text, b"= flush ") {
        return Printed::Flush(number_u64(rest));
    }
    if let Some(rest) = behind(text, b"= verf ") {
        return Printed::Verf(verifier_of(rest));
    }
    if let Some(rest) = behind(text, b"= junk ") {
        return Printed::Junk(number_u64(rest));
    }
    if let Some(rest) = behind(text, b"= early ") {
        return Printed::Early(number_u64(rest));
    }
    if let Some(rest) = behind(text, b"= full ") {
        return Printed::Full(number_u64(rest));
    }
    if let Some(rest) = behind(text, b"= lost ") {
        return Printed::Lost(number_u64(rest));
    }
    if let Some(rest) = behind(text, b"= down ") {
        return Printed::Down(number_u8(rest));
    }
    Printed::Junk(0)
}

/// Whether a note's moment has nanoseconds below 10^9.
fn is_note(note: &Printed) -> bool
    ensures { IsTrue result ↔ IsNote note.now }
{
    match note {
        Printed::Did {
            arrival: _,
            at,
            choice: _,
        } => at.nsec < 1000000000,
        _ => true,
    }
}

/// The note that the text spells.
pub fn read_note(alloc: Global, text: &[u8]) -> Result<Printed, LineFault>
    // What is read is a note of the grammar, and the text is its spelling.
    ensures found { IfOk result (λ note. IsNote note × (text.now ≡ note_text note)) }
    // It is bad only where it spells no note.
    ensures bad { result ≡ Err Bad → (note : Printed) → FitsNote note → IsNote note → text.now ≡ note_text note → ⊥ }
{
    let Ok(note) = note_of(alloc, text) else {
        return Err(LineFault::NoMemory);
    };
    if !is_note(&note) {
        return Err(LineFault::Bad);
    }
    let mut printed = Vec::new(alloc);
    if write_note(&note, &mut printed).is_err() {
        return Err(LineFault::NoMemory);
    }
    if printed.as_slice() == text {
        Ok(note)
    } else {
        Err(LineFault::Bad)
    }
}
