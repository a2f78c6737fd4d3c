//! The ensemble: its actors, and the frames between them.
ghost use Rattle.std.specs.Prelude.{◌≡◌, [], ◌∷◌, IfOk, OnOk};
ghost use Rattle.std.specs.FinMap as map;
ghost use Rattle.sl_defs.specs.declared.event.Event.TheVariants as happens;
ghost use Rattle.sl_history.specs.Turns.{History, Sent};
ghost use Rattle.sl_machine.specs.Proxies as machine;
ghost use Rattle.sl_machine.specs.World.{numbered};
ghost use Rattle.sl_past.specs.Words.{remark_of};
ghost use Rattle.sl_world.specs.Flights.{IsOldest};
ghost use Rattle.sl_world.specs.Handling.{Begins, HasNumber, IsHanded, IsUnbuilt, silent};
ghost use Rattle.sl_world.specs.Worlds.{Follows, GivesEvent, GivesOpening, is_busy, opening, remarks, sending, turn};

use crate::actors::{COORDINATOR, DIRECTORY, PROXY};
use crate::coordinator::Coordinator;
use crate::directory::Directory;
use crate::flight::{Flight, Flying};
use crate::looks::Looks;
use crate::proxy::Proxy;
use crate::site::Site;
use crate::step::{Frames, Notes, Step, StepFault};
use sl_defs::Event;
use sl_frames::{Body, Frame};
use sl_past::Remark;
use sl_types::{NoMemory, Setup, Time};
use std::alloc::Global;
use std::collections::VecDeque;

/// An ensemble with one directory server, without disks: its actors, the frames in flight, the next frame's number, how many
/// events there were, and the moment.
#[derive(Drop)]
pub struct World {
    pub proxy: Proxy,
    pub coordinator: Coordinator,
    pub directory: Directory,
    pub flight: Flight,
    pub next_frame: u64,
    pub event: u64,
    pub moment: Time,
}

/// The fence of the proxy's first start.
const FIRST_FENCE: u64 = 1 << 32;

// The first message of the proxy under a fence.
fn hello(fence: u64) -> Frame
    ensures { result ≡ machine.hello fence }
{
    Frame {
        from: PROXY,
        to: COORDINATOR,
        fence,
        tag: 0,
        low: 0,
        op: 0,
        boot: 0,
        arrival: 0,
        body: Body::Hello,
    }
}

impl World {
    /// Opens a volume: its world, and what is noted. A volume with other than one directory server, more than 4 small-file
    /// servers or more than 8 storage nodes isn't built.
    pub fn open(alloc: Global, setup: &Setup) -> Result<(World, Notes), WorldFault>
        ensures gives { GivesOpening setup.now result }
        ensures follows { IfOk result (λ x. Follows x.0 (opening setup.now x.1 ∷ [])) }
    {
        if setup.dirs != 1 || setup.small > 4 || setup.nodes > 8 {
            return Err(WorldFault::NotBuilt);
        }
        let mut world = World::silent(alloc, *setup);
        let note = world.send(hello(FIRST_FENCE))?;
        let notes = Notes::one(alloc, note)?;
        Ok((world, notes))
    }

    // All actors are up, and nothing was sent yet.
    fn silent(alloc: Global, setup: Setup) -> World
        ensures { result ≡ silent setup }
    {
        let unseen = Site { fence: 0, low: 0 };
        World {
            proxy: Proxy {
                setup,
                fence: FIRST_FENCE,
                welcomed: false,
                pending: Looks::new(alloc),
                next_tag: 1,
            },
            coordinator: Coordinator {
                site: unseen,
                heard: false,
            },
            directory: Directory {
                actor: DIRECTORY,
                volume: setup.volume,
                site: unseen,
            },
            flight: Flight::new(alloc),
            next_frame: 1,
            event: 0,
            moment: Time { sec: 0, nsec: 0 },
        }
    }

    /// Performs an event, and gives what is noted of it: the frames that were sent, and then what else. Where it names a
    /// frame that isn't in flight, nothing has changed. After any other fault the world isn't to be used any more.
    pub fn event(&mut self, alloc: Global, event: &Event) -> Result<Notes, WorldFault>
        ensures gives { GivesEvent self.old self.new event.now result }
        ensures follows { IfOk result (λ notes. (h : History) → Follows self.old h → Follows self.new (turn self.old event.now notes ∷ h)) }
    {
        match event {
            Event::Call { client, datagram } => self.call(alloc, *client, datagram.as_slice()),
            Event::Give(number) => self.give(alloc, *number),
            Event::Copy(number) | Event::Drop(number) => Err(self.unbuilt(*number)),
            _ => Err(WorldFault::NotBuilt),
        }
    }

    // A client's datagram arrives.
    fn call(&mut self, alloc: Global, client: u32, bytes: &[u8]) -> Result<Notes, WorldFault>
        ensures gives { GivesEvent self.old self.new (happens.Call client bytes.now) result }
    {
        self.begin()?;
        let step = self.proxy.arrive(alloc, self.event, client, bytes)?;
        Ok(self.finish(alloc, step)?)
    }

    // The frame of this number is given to its receiver.
    fn give(&mut self, alloc: Global, number: u64) -> Result<Notes, WorldFault>
        ensures gives { GivesEvent self.old self.new (happens.Give number) result }
    {
        let Some(flying) = self.flight.take(number) else {
            return Err(WorldFault::UnknownFrame(number));
        };
        self.begin()?;
        let step = self.hand(alloc, &flying)?;
        Ok(self.finish(alloc, step)?)
    }

    // Why an event with the frame of this number isn't performed that isn't built.
    fn unbuilt(&self, number: u64) -> WorldFault
        ensures { IsUnbuilt self.now number result }
    {
        if self.flight.has(number) {
            WorldFault::NotBuilt
        } else {
            WorldFault::UnknownFrame(number)
        }
    }

    // The next event begins, if there are numbers for it and for a frame.
    fn begin(&mut self) -> Result<(), WorldFault>
        ensures { Begins self.old self.new result }
    {
        if self.event == u64::MAX || self.next_frame == u64::MAX {
            return Err(WorldFault::Spent);
        }
        self.event += 1;
        Ok(())
    }

    // The receiver of a frame does its step.
    fn hand(&mut self, alloc: Global, flying: &Flying) -> Result<Step, StepFault>
        ensures { IsHanded self.old self.new flying.now result }
    {
        let frame = &flying.frame;
        match frame.to {
            PROXY => self.proxy.take(alloc, frame, flying.event),
            COORDINATOR => self.coordinator.step(alloc, frame),
            to if to == self.directory.actor => self.directory.step(alloc, frame),
            _ => Err(StepFault::NotBuilt),
        }
    }

    // The frames of a step are sent, and its notes stand behind theirs.
    fn finish(&mut self, alloc: Global, step: Step) -> Result<Notes, NoMemory>
        requires { HasNumber self.old }
        ensures sent { OnOk result (self.new ≡ sending step.frames self.old) }
        ensures noted { IfOk result (λ told. told ≡ remarks self.old step.frames step.notes) }
    {
        let Step { frames, notes } = step;
        let mut told = self.send_all(alloc, frames)?;
        told.append(notes)?;
        Ok(told)
    }

    // Frames are sent, one after the other.
    fn send_all(&mut self, alloc: Global, frames: Frames) -> Result<Notes, NoMemory>
        requires { HasNumber self.old }
        ensures sent { OnOk result (self.new ≡ sending frames self.old) }
        ensures noted { IfOk result (λ notes. notes ≡ numbered self.old.next_frame frames) }
    {
        let mut rest = VecDeque::from(frames.into_vec());
        let mut notes = Notes::none(alloc);
        while let Some(frame) = rest.pop_front() {
            let note = self.send(frame)?;
            notes.push(note)?;
        }
        Ok(notes)
    }

    // A frame is put in flight under the next number, and noted.
    fn send(&mut self, frame: Frame) -> Result<Remark, NoMemory>
        requires { HasNumber self.old }
        ensures sent { OnOk result (self.new ≡ sending (frame ∷ []) self.old) }
        ensures noted { IfOk result (λ note. remark_of note ≡ Sent self.old.next_frame frame) }
    {
        let number = self.next_frame;
        let copy = frame.copy()?;
        let flying = Flying {
            frame,
            event: self.event,
        };
        self.flight.put(number, flying)?;
        self.next_frame = number + 1;
        Ok(Remark::Sent {
            number,
            frame: copy,
        })
    }

    /// How many frames are in flight.
    pub fn in_flight(&self) -> usize
        ensures { result ≡ map.len self.now.flight }
    {
        self.flight.len()
    }

    /// The number of the oldest frame in flight.
    pub fn oldest(&self) -> Option<u64>
        ensures { IsOldest self.now.flight result }
    {
        self.flight.oldest()
    }

    /// Whether a call waits, or the proxy isn't welcomed.
    pub fn busy(&self) -> bool
        ensures { result ≡ is_busy self.now }
    {
        self.proxy.pending.len() != 0 || !self.proxy.welcomed
    }
}

/// Why an event, or an opening, isn't performed.
#[derive(Clone, Copy, Debug, PartialEq, Eq)]
pub enum WorldFault {
    /// The event names the frame of this number, which isn't in flight.
    UnknownFrame(u64),
    /// What the event or the volume asks for isn't built.
    NotBuilt,
    /// A number would pass its type's end.
    Spent,
    NoMemory,
}

impl From<NoMemory> for WorldFault {
    ghost use Rattle.std.specs.Prelude.{◌≡◌};
    ghost use Rattle.sl_world.specs.declared.world.WorldFault.TheVariants.{NoMemory};

    ghost from_gives = { λ _ fault. fault ≡ NoMemory };

    fn from(_: NoMemory) -> WorldFault {
        WorldFault::NoMemory
    }
}

impl From<StepFault> for WorldFault {
    ghost use Rattle.std.specs.Prelude.{◌≡◌};
    ghost use Rattle.sl_world.specs.Handling.{fault_of};

    ghost from_gives = { λ step fault. fault ≡ fault_of step };

    fn from(fault: StepFault) -> WorldFault {
        match fault {
            StepFault::NotBuilt => WorldFault::NotBuilt,
            StepFault::Spent => WorldFault::Spent,
            StepFault::NoMemory => WorldFault::NoMemory,
        }
    }
}
