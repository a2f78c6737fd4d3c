//! The text of a turn: its line, and its notes.
ghost use Rattle.std.specs.Prelude.{◌≡◌, ◌++◌, ◌↔◌, true, All, IfOk, IsTrue, OnOk, map};
ghost use Rattle.sl_defs.specs.Histories.{ended};
ghost use Rattle.sl_defs.specs.declared.event.Event.TheVariants as event;
ghost use Rattle.sl_defs.specs.declared.event.Line.TheVariants as line;
ghost use Rattle.sl_defs.specs.Schedules.{line_text};
ghost use Rattle.sl_defs.specs.Transcripts.{note_text};
ghost use Rattle.sl_frames.specs.Frames.{frame_text};
ghost use Rattle.sl_history.specs.Turns.{note_of};
ghost use Rattle.sl_past.specs.Words.{remark_of};
ghost use Rattle.sl_past.specs.Transcripts.{remarks_text};
ghost use Rattle.slice.specs.Printing.{has_text, is_plain};

use sl_frames::{Body, Frame};
use sl_past::Remark;
use sl_sched::{Event, Line, write_line};
use sl_text::put;
use sl_trace::{Printed, write_note};
use sl_types::{Bytes, NoMemory};
use std::alloc::Global;

/// Whether a frame's body has no lists, so that it has a text whatever it says.
fn is_plain(body: &Body) -> bool
    ensures { result ≡ is_plain body.now }
{
    match body {
        Body::Hello => true,
        Body::Welcome => true,
        Body::Forward { .. } => true,
        Body::Packet(_) => true,
        Body::Ask(_) => false,
        Body::Found(_) => false,
        Body::List { .. } => true,
        Body::Listed { .. } => false,
        Body::Mint { .. } => true,
        Body::Minted { .. } => true,
        Body::Intent(_) => false,
        Body::Decided { .. } => true,
        Body::Lock(_) => false,
        Body::Grant => true,
        Body::Refuse => true,
        Body::Apply => true,
        Body::Release => true,
        Body::Ack => true,
    }
}

/// Whether the note of a remark has a text.
fn has_text(remark: &Remark) -> bool
    ensures { result ≡ has_text (remark_of remark.now) }
{
    match remark {
        Remark::Sent { frame, .. } => is_plain(&frame.body),
        Remark::Did { .. } => true,
        Remark::Flush(_) => true,
        Remark::Verf(_) => true,
        Remark::Replied { .. } => true,
        Remark::Junk(_) => true,
        Remark::Early(_) => true,
        Remark::Full(_) => true,
        Remark::Lost(_) => true,
        Remark::Down(_) => true,
    }
}

/// Whether all notes have a text.
pub fn have_texts(remarks: &[Remark]) -> bool
    ensures { IsTrue result ↔ All (λ r. has_text (remark_of r) ≡ true) remarks.now }
{
    remarks.iter().all(|remark| has_text(remark))
}

/// The bytes of a frame.
#[tactic(auto, using(crate::proofs::Plain::plain_is_short))]
fn bytes_of(alloc: Global, frame: &Frame) -> Result<Bytes, NoMemory>
    requires { is_plain frame.now.«body» ≡ true }
    ensures { IfOk result (λ bytes. bytes ≡ frame_text frame.now) }
{
    let mut bytes = Vec::new(alloc);
    match frame.write(&mut bytes) {
        Ok(()) => Ok(Bytes::new(bytes)),
        Err(_) => Err(NoMemory),
    }
}

/// The note as which a remark is printed.
fn note_of(alloc: Global, remark: &Remark) -> Result<Printed, NoMemory>
    requires { has_text (remark_of remark.now) ≡ true }
    ensures { IfOk result (λ note. note ≡ note_of (remark_of remark.now)) }
{
    match remark {
        Remark::Sent { number, frame } => Ok(Printed::Sent {
            frame: *number,
            bytes: bytes_of(alloc, frame)?,
        }),
        Remark::Did {
            arrival,
            at,
            choice,
        } => Ok(Printed::Did {
            arrival: *arrival,
            at: *at,
            choice: *choice,
        }),
        Remark::Flush(fileid) => Ok(Printed::Flush(*fileid)),
        Remark::Verf(verifier) => Ok(Printed::Verf(*verifier)),
        Remark::Replied {
            arrival,
            event,
            bytes,
        } => Ok(Printed::Reply {
            arrival: *arrival,
            event: *event,
            bytes: bytes.copy()?,
        }),
        Remark::Junk(arrival) => Ok(Printed::Junk(*arrival)),
        Remark::Early(arrival) => Ok(Printed::Early(*arrival)),
        Remark::Full(arrival) => Ok(Printed::Full(*arrival)),
        Remark::Lost(arrival) => Ok(Printed::Lost(*arrival)),
        Remark::Down(actor) => Ok(Printed::Down(*actor)),
    }
}

/// Appends a remark's note, with an end of line.
fn put_note(alloc: Global, out: &mut Vec<u8>, remark: &Remark) -> Result<(), NoMemory>
    requires { has_text (remark_of remark.now) ≡ true }
    ensures { OnOk result (out.new.items ≡ out.old.items ++ ended (note_text (note_of (remark_of remark.now)))) }
{
    let note = note_of(alloc, remark)?;
    write_note(&note, out)?;
    put(out, b"\n")
}

/// Appends the notes of remarks, each with an end of line.
fn put_notes(alloc: Global, out: &mut Vec<u8>, remarks: &[Remark]) -> Result<(), NoMemory>
    requires { All (λ r. has_text (remark_of r) ≡ true) remarks.now }
    ensures { OnOk result (out.new.items ≡ out.old.items ++ remarks_text (map remark_of remarks.now)) }
{
    for remark in remarks {
        put_note(alloc, out, remark)?;
    }
    Ok(())
}

/// A line's text and the notes behind it, each with its end.
#[tactic(auto, using(crate::proofs::Texts::joined))]
pub fn turn_text(alloc: Global, line: &[u8], notes: &[Remark]) -> Result<Vec<u8>, NoMemory>
    requires { All (λ r. has_text (remark_of r) ≡ true) notes.now }
    ensures { IfOk result (λ text. text.items ≡ ended line.now ++ remarks_text (map remark_of notes.now)) }
{
    let mut out = Vec::new(alloc);
    put(&mut out, line)?;
    put(&mut out, b"\n")?;
    put_notes(alloc, &mut out, notes)?;
    Ok(out)
}

/// The line by which the frame of this number is given.
pub fn give_text(alloc: Global, number: u64) -> Result<Vec<u8>, NoMemory>
    ensures { IfOk result (λ text. text.items ≡ line_text (line.Happens (event.Give number))) }
{
    let mut out = Vec::new(alloc);
    write_line(&Line::Happens(Event::Give(number)), &mut out)?;
    Ok(out)
}
