//! Performing the lines of a schedule.
ghost use Rattle.std.specs.Prelude.{◌≡◌, ◌≤◌, length, map};
ghost use Rattle.sl_defs.specs.Schedules.{line_text};
ghost use Rattle.sl_defs.specs.declared.event.Event.TheVariants as event;
ghost use Rattle.sl_defs.specs.declared.event.Line.TheVariants as line;
ghost use Rattle.sl_history.specs.Turns.{History};
ghost use Rattle.sl_past.specs.Words.{remark_of};
ghost use Rattle.slice.specs.declared.status.Status.{Status};
ghost use Rattle.slice.specs.Outside.{Rose};
ghost use Rattle.slice.specs.Replays.{FirstDone, LineDone, OpeningDone, Performs, Stood, StopCounts, TextDone, Wrote, WroteTurn, status_at, stop_by};

use crate::lines::{cut_line, without_end};
use crate::printing::{give_text, have_texts, turn_text};
use crate::sink::{Sink, SinkError};
use crate::status::{Status, Stop};
use sl_getattr::{
    getattr_histories_are_fenced, getattr_histories_are_legal, getattr_histories_are_licensed,
    getattr_histories_are_wired, getattr_histories_remember,
};
use sl_past::Remark;
use sl_sched::{Event, Line, read_line};
use sl_types::{LineFault, Setup};
use sl_world::{World, WorldFault};
use std::alloc::Global;

fn write_all<K: Sink>(bytes: &[u8], sink: &mut K) -> Result<(), Stop>
    ensures wrote { Wrote result bytes.now (K.holds sink.old) (K.holds sink.new) }
    ensures cause { StopCounts (K.faults sink.old) (K.faults sink.new) result }
{
    match sink.write(bytes) {
        Ok(()) => Ok(()),
        Err(SinkError::Failed) => Err(Stop::WriteFault),
        Err(SinkError::NoMemory) => Err(Stop::NoMemory),
    }
}

/// Writes a line with the notes behind it, by one write, where each has a text.
fn write_turn<K: Sink>(
    alloc: Global,
    line: &[u8],
    notes: &[Remark],
    sink: &mut K,
) -> Result<(), Stop>
    ensures wrote { WroteTurn result line.now (map remark_of notes.now) (K.holds sink.old) (K.holds sink.new) }
    ensures cause { StopCounts (K.faults sink.old) (K.faults sink.new) result }
{
    if !have_texts(notes) {
        return Err(Stop::Unbuilt);
    }
    match turn_text(alloc, line, notes) {
        Ok(text) => write_all(&text, sink),
        Err(_) => Err(Stop::NoMemory),
    }
}

/// Why a line isn't performed, where the world doesn't perform its event.
fn stop_of(fault: WorldFault) -> Stop
    ensures { result ≡ stop_by fault }
{
    match fault {
        WorldFault::UnknownFrame(_) => Stop::Bad,
        WorldFault::NotBuilt => Stop::Unbuilt,
        WorldFault::Spent => Stop::Spent,
        WorldFault::NoMemory => Stop::NoMemory,
    }
}

/// Performs an event, whose line is this text.
fn perform_event<K: Sink>(
    alloc: Global,
    world: &mut World,
    text: &[u8],
    event: &Event,
    sink: &mut K,
) -> Result<(), Stop>
    requires { text.now ≡ line_text (line.Happens event.now) }
    ensures done { (past : History) → Stood world.old past
        → LineDone result (line.Happens event.now) past world.new (K.holds sink.old) (K.holds sink.new) }
    ensures cause { StopCounts (K.faults sink.old) (K.faults sink.new) result }
{
    match world.event(alloc, event) {
        Ok(notes) => write_turn(alloc, text, notes.as_slice(), sink),
        Err(fault) => Err(stop_of(fault)),
    }
}

/// Gives the frame of this number.
fn give<K: Sink>(alloc: Global, world: &mut World, number: u64, sink: &mut K) -> Result<(), Stop>
    ensures done { (past : History) → Stood world.old past
        → LineDone result (line.Happens (event.Give number)) past world.new (K.holds sink.old) (K.holds sink.new) }
    ensures cause { StopCounts (K.faults sink.old) (K.faults sink.new) result }
{
    match give_text(alloc, number) {
        Ok(text) => perform_event(alloc, world, &text, &Event::Give(number), sink),
        Err(_) => Err(Stop::NoMemory),
    }
}

/// Gives the oldest frame in flight, up to so many times.
fn flow<K: Sink>(alloc: Global, world: &mut World, most: u32, sink: &mut K) -> Result<(), Stop>
    ensures done { (past : History) → Stood world.old past
        → LineDone result (line.Flow most) past world.new (K.holds sink.old) (K.holds sink.new) }
    ensures cause { StopCounts (K.faults sink.old) (K.faults sink.new) result }
{
    for _i in 0..most {
        let Some(number) = world.oldest() else {
            return Ok(());
        };
        match give(alloc, world, number, sink) {
            Ok(()) => {}
            Err(stop) => return Err(stop),
        }
    }
    Ok(())
}

/// Performs a line behind the first.
fn perform_line<K: Sink>(
    alloc: Global,
    world: &mut World,
    text: &[u8],
    sink: &mut K,
) -> Result<(), Stop>
    ensures done { (past : History) → Stood world.old past → TextDone result text.now past world.new (K.holds sink.old) (K.holds sink.new) }
    ensures cause { StopCounts (K.faults sink.old) (K.faults sink.new) result }
{
    match read_line(alloc, text, Some(&world.proxy.setup)) {
        Ok(Line::Happens(event)) => perform_event(alloc, world, text, &event, sink),
        Ok(Line::Flow(most)) => flow(alloc, world, most, sink),
        Ok(Line::Remark(_)) => Ok(()),
        Ok(Line::At(_)) => Err(Stop::Unbuilt),
        Ok(Line::Volume(_)) => Err(Stop::Bad),
        Err(LineFault::Bad) => Err(Stop::Bad),
        Err(LineFault::NoMemory) => Err(Stop::NoMemory),
    }
}

/// Opens a volume, whose line is this text.
fn open<K: Sink>(alloc: Global, text: &[u8], setup: &Setup, sink: &mut K) -> Result<World, Stop>
    requires { text.now ≡ line_text (line.Volume setup.now) }
    ensures done { OpeningDone result setup.now (K.holds sink.old) (K.holds sink.new) }
    ensures cause { StopCounts (K.faults sink.old) (K.faults sink.new) result }
{
    match World::open(alloc, setup) {
        Ok((world, notes)) => match write_turn(alloc, text, notes.as_slice(), sink) {
            Ok(()) => Ok(world),
            Err(stop) => Err(stop),
        },
        Err(fault) => Err(stop_of(fault)),
    }
}

/// Performs the first line, which is the volume's.
fn perform_first<K: Sink>(alloc: Global, text: &[u8], sink: &mut K) -> Result<World, Stop>
    ensures done { FirstDone result text.now (K.holds sink.old) (K.holds sink.new) }
    ensures cause { StopCounts (K.faults sink.old) (K.faults sink.new) result }
{
    match read_line(alloc, text, None) {
        Ok(Line::Volume(setup)) => open(alloc, text, &setup, sink),
        Ok(_) => Err(Stop::Bad),
        Err(LineFault::Bad) => Err(Stop::Bad),
        Err(LineFault::NoMemory) => Err(Stop::NoMemory),
    }
}

/// The status with which a run ends that stops at line k.
fn status_of(stop: Stop, k: u64) -> Status
    ensures { result ≡ status_at stop k }
{
    match stop {
        Stop::WriteFault => Status::WriteFault,
        Stop::Bad => Status::BadLine(k),
        Stop::Unbuilt => Status::Unbuilt(k),
        Stop::Spent => Status::Spent,
        Stop::NoMemory => Status::NoMemory,
    }
}

/// Performs the lines of a schedule, and writes the transcript.
pub fn perform<K: Sink>(alloc: Global, source: &[u8], sink: &mut K) -> Status
    requires { length source.now ≤ 67108864 }
    ensures performs { Performs result source.now (K.holds sink.old) (K.holds sink.new) }
    ensures later { K.faults sink.old ≤ K.faults sink.new }
    ensures fault { result ≡ Status.WriteFault → Rose (K.faults sink.old) (K.faults sink.new) }
{
    getattr_histories_are_legal();
    getattr_histories_are_licensed();
    getattr_histories_are_wired();
    getattr_histories_are_fenced();
    getattr_histories_remember();
    let (first, mut rest) = cut_line(without_end(source));
    let mut world = match perform_first(alloc, first, sink) {
        Ok(world) => world,
        Err(stop) => return status_of(stop, 1),
    };
    let mut line = 2u64;
    while let Some(text) = rest {
        let (this, after) = cut_line(text);
        match perform_line(alloc, &mut world, this, sink) {
            Ok(()) => {}
            Err(stop) => return status_of(stop, line),
        }
        line += 1;
        rest = after;
    }
    Status::Done
}
