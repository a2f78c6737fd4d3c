//! Texts: the lines of schedules and the notes of transcripts.
ghost use Rattle.std.specs.Prelude.{◌≡◌, IfOk};
ghost use Rattle.std.specs.Option.{option_copied};
ghost use Rattle.sl_defs.specs.Schedules.{line_text};
ghost use Rattle.sl_defs.specs.Transcripts.{note_text};
ghost use Rattle.reread.specs.Answers.{IsLineAnswer, IsNoteAnswer, IsVolumeOf, volume_in};

use crate::words::word;
use sl_sched::{Line, read_line, write_line};
use sl_trace::{Printed, read_note, write_note};
use sl_types::{LineFault, NoMemory, Setup};
use std::alloc::Global;

fn printed_line(alloc: Global, line: &Line) -> Result<Vec<u8>, NoMemory>
    ensures { IfOk result (λ text. text.items ≡ line_text line.now) }
{
    let mut text = Vec::new(alloc);
    write_line(line, &mut text)?;
    Ok(text)
}

fn printed_note(alloc: Global, note: &Printed) -> Result<Vec<u8>, NoMemory>
    ensures { IfOk result (λ text. text.items ≡ note_text note.now) }
{
    let mut text = Vec::new(alloc);
    write_note(note, &mut text)?;
    Ok(text)
}

/// A line of a schedule printed again: the first where no volume is known, and else another one of that volume's; or
/// `bad`.
pub fn reread_line(alloc: Global, text: &[u8], setup: Option<&Setup>) -> Result<Vec<u8>, NoMemory>
    ensures { IfOk result (λ answer. IsLineAnswer (option_copied setup.entry) text.now answer.items) }
{
    match read_line(alloc, text, setup) {
        Ok(line) => printed_line(alloc, &line),
        Err(LineFault::Bad) => word(alloc, b"bad"),
        Err(LineFault::NoMemory) => Err(NoMemory),
    }
}

/// The volume of a line, where it is one.
fn set_up(line: &Line) -> Option<Setup>
    ensures { result ≡ volume_in line.now }
{
    match line {
        Line::Volume(setup) => Some(*setup),
        _ => None,
    }
}

/// The volume that a schedule's first line sets up, where the text is one.
pub fn first_volume(alloc: Global, text: &[u8]) -> Result<Option<Setup>, NoMemory>
    ensures { IfOk result (λ volume. IsVolumeOf text.now volume) }
{
    match read_line(alloc, text, None) {
        Ok(line) => Ok(set_up(&line)),
        Err(LineFault::Bad) => Ok(None),
        Err(LineFault::NoMemory) => Err(NoMemory),
    }
}

/// A note of a transcript printed again, or `bad`.
pub fn reread_note(alloc: Global, text: &[u8]) -> Result<Vec<u8>, NoMemory>
    ensures { IfOk result (λ answer. IsNoteAnswer text.now answer.items) }
{
    match read_note(alloc, text) {
        Ok(note) => printed_note(alloc, &note),
        Err(LineFault::Bad) => word(alloc, b"bad"),
        Err(LineFault::NoMemory) => Err(NoMemory),
    }
}
