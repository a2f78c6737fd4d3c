ghost use Rattle.std.specs.Prelude.{◌≡◌, ◌≢◌, ◌↔◌, All, IfOk, IsTrue};
ghost use Rattle.std.specs.Option.{option_copied};
ghost use Rattle.sl_types.specs.declared.fault.LineFault.TheVariants.{Bad};
ghost use Rattle.sl_defs.specs.declared.event.Event.{Event};
ghost use Rattle.sl_defs.specs.declared.event.Line.{Line};
ghost use Rattle.sl_defs.specs.Schedules.{FitsEvent, FitsLine, HasActor, IsAmong, IsEvent, IsLine, IsSetup, event_text, line_text};

use crate::parts::{call_of, moment_of, setup_of, three_of, two_of};
use crate::writing::write_line;
use sl_defs::{Event, Line};
use sl_text::{behind, number_u8, number_u32, number_u64};
use sl_types::{Bytes, LineFault, NoMemory, Setup};
use std::alloc::Global;

/// An event that the text may spell: if it spells any, it spells this one.
fn event_of(alloc: Global, text: &[u8]) -> Result<Event, NoMemory>
    ensures { (event : Event) → FitsEvent event → text.now ≡ event_text event → IfOk result (λ found. found ≡ event) }
{
    if let Some(rest) = behind(text, b"call ") {
        let (client, datagram) = call_of(alloc, rest)?;
        return Ok(Event::Call { client, datagram });
    }
    if let Some(rest) = behind(text, b"give ") {
        return Ok(Event::Give(number_u64(rest)));
    }
    if let Some(rest) = behind(text, b"copy ") {
        return Ok(Event::Copy(number_u64(rest)));
    }
    if let Some(rest) = behind(text, b"drop ") {
        return Ok(Event::Drop(number_u64(rest)));
    }
    if let Some(rest) = behind(text, b"stop ") {
        let (actor, image) = two_of(rest);
        return Ok(Event::Stop { actor, image });
    }
    if let Some(rest) = behind(text, b"start ") {
        return Ok(Event::Start(number_u8(rest)));
    }
    if let Some(rest) = behind(text, b"fuse ") {
        let (actor, after, image) = three_of(rest);
        return Ok(Event::Fuse {
            actor,
            after,
            image,
        });
    }
    if let Some(rest) = behind(text, b"fail ") {
        let (actor, after) = two_of(rest);
        return Ok(Event::Fail { actor, after });
    }
    Ok(Event::Tick)
}

/// A line that the text may spell: if it spells any, it spells this one.
fn line_of(alloc: Global, text: &[u8]) -> Result<Line, NoMemory>
    ensures { (line : Line) → FitsLine line → text.now ≡ line_text line → IfOk result (λ found. found ≡ line) }
{
    if let Some(rest) = behind(text, b"volume ") {
        return Ok(Line::Volume(setup_of(rest)));
    }
    if let Some(rest) = behind(text, b"at ") {
        return Ok(Line::At(moment_of(rest)));
    }
    if let Some(rest) = behind(text, b"flow ") {
        return Ok(Line::Flow(number_u32(rest)));
    }
    if let Some(rest) = behind(text, b"=") {
        return match Vec::from_slice(alloc, rest) {
            Ok(items) => Ok(Line::Remark(Bytes::new(items))),
            Err(_) => Err(NoMemory),
        };
    }
    let event = event_of(alloc, text)?;
    Ok(Line::Happens(event))
}

fn is_setup(s: &Setup) -> bool
    ensures { IsTrue result ↔ IsSetup s.now }
{
    1 <= s.dirs && s.dirs <= 8 && 1 <= s.small && s.small <= 4 && 1 <= s.nodes && s.nodes <= 8
}

fn is_among(number: u8, start: u8, count: u8) -> bool
    ensures { IsTrue result ↔ IsAmong number start count }
{
    start <= number && number - start < count
}

fn has_actor(setup: &Setup, actor: u8) -> bool
    ensures { IsTrue result ↔ HasActor setup.now actor }
{
    is_among(actor, 0, 2)
        || is_among(actor, 16, setup.dirs)
        || is_among(actor, 32, setup.small)
        || is_among(actor, 48, setup.nodes)
}

fn is_event(setup: &Setup, event: &Event) -> bool
    ensures { IsTrue result ↔ IsEvent setup.now event.now }
{
    match event {
        Event::Call {
            client: _,
            datagram,
        } => datagram.as_slice().len() <= 65536,
        Event::Give(_) | Event::Copy(_) | Event::Drop(_) | Event::Tick => true,
        Event::Stop { actor, image: _ } => has_actor(setup, *actor),
        Event::Start(actor) => has_actor(setup, *actor),
        Event::Fuse {
            actor,
            after,
            image: _,
        } => has_actor(setup, *actor) && 1 <= *after,
        Event::Fail { actor, after } => has_actor(setup, *actor) && 1 <= *after,
    }
}

fn has_no_end(bytes: &[u8]) -> bool
    ensures { IsTrue result ↔ All (λ b. b ≢ 10) bytes.now }
{
    bytes.iter().all(|b| *b != b'\n')
}

/// Whether a line that isn't the first may stand in a schedule of that volume.
fn is_later_line(setup: &Setup, line: &Line) -> bool
    ensures { IsTrue result ↔ IsLine (Some setup.now) line.now }
{
    match line {
        Line::Volume(_) => false,
        Line::At(moment) => moment.nsec < 1000000000,
        Line::Happens(event) => is_event(setup, event),
        Line::Flow(most) => 1 <= *most && *most <= 1000000,
        Line::Remark(bytes) => has_no_end(bytes.as_slice()),
    }
}

fn is_line(setup: Option<&Setup>, line: &Line) -> bool
    ensures { IsTrue result ↔ IsLine (option_copied setup.entry) line.now }
{
    match setup {
        Some(setup) => is_later_line(setup, line),
        None => match line {
            Line::Volume(setup) => is_setup(setup),
            _ => false,
        },
    }
}

/// The line that the text spells: the volume line where no volume is known yet, any other of that volume's schedules
/// where it is.
pub fn read_line(alloc: Global, text: &[u8], setup: Option<&Setup>) -> Result<Line, LineFault>
    // What is read is a line of the grammar, and the text is its spelling.
    ensures found { IfOk result (λ line. IsLine (option_copied setup.entry) line × (text.now ≡ line_text line)) }
    // It is bad only where it spells no line.
    ensures bad { result ≡ Err Bad → (line : Line) → FitsLine line → IsLine (option_copied setup.entry) line → text.now ≡ line_text line → ⊥ }
{
    let Ok(line) = line_of(alloc, text) else {
        return Err(LineFault::NoMemory);
    };
    if !is_line(setup, &line) {
        return Err(LineFault::Bad);
    }
    let mut printed = Vec::new(alloc);
    if write_line(&line, &mut printed).is_err() {
        return Err(LineFault::NoMemory);
    }
    if printed.as_slice() == text {
        Ok(line)
    } else {
        Err(LineFault::Bad)
    }
}
