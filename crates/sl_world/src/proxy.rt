//! The proxy of GETATTR calls.
ghost use Rattle.std.specs.Prelude.{◌≡◌, ℕ, ◌↔◌, ◌+◌, ◌^◌, ◌<◌, ◌++◌, Err, None, Some, false, true, option_map, IfOk};
ghost use Rattle.std.specs.FinMap as map;
ghost use Rattle.sl_datagram.specs.Datagrams as datagrams;
ghost use Rattle.sl_defs.specs.Items.{AreBytes};
ghost use Rattle.sl_defs.specs.Rpc.{accepted_text};
ghost use Rattle.sl_frames.specs.Actors.{is_directory};
ghost use Rattle.sl_frames.specs.declared.body.Body.TheVariants as body;
ghost use Rattle.sl_history.specs.Arrivals.{IsAsked, datagram};
ghost use Rattle.sl_history.specs.Turns as note;
ghost use Rattle.sl_past.specs.Words.{remark_of};
ghost use Rattle.sl_replies.specs.Texts.{FitsReply, reply_text};
ghost use Rattle.sl_types.specs.Handles.{handle_of, handle_text};
ghost use Rattle.sl_types.specs.Numbers.{is_ok_status};
ghost use Rattle.sl_types.specs.declared.call.Call.TheVariants as call;
ghost use Rattle.sl_world.specs.Admitting as admitting;
ghost use Rattle.sl_world.specs.Admitting.{Noting, Sending};
ghost use Rattle.sl_world.specs.Proxying.{GivesArrival, GivesUse, IsAdmitted, IsPassing, asked_of, frame_of, reply_note, with_look, without};
ghost use Rattle.sl_world.specs.declared.look.Look.{Look};

use crate::actors::{COORDINATOR, PROXY, is_data_server};
use crate::forwarding::forwarded;
use crate::look::Look;
use crate::looks::Looks;
use crate::replying::{reply_in, reply_packet};
use crate::step::{Step, StepFault};
use crate::targets::{object_server, target};
use sl_datagram::{Asked, Datagram, read_datagram};
use sl_frames::{Body, Frame};
use sl_past::Remark;
use sl_types::{Bytes, Call, Cred, Handle, Kind, NoMemory, Reply, Setup, Status};
use std::alloc::Global;

/// So many calls wait at most.
const MOST_WAITING: usize = 256;

/// The number of GETATTR (RFC 1813, section 3.3.1).
const GETATTR: u32 = 1;

/// A proxy: the volume, its fence, whether it was welcomed, the calls that wait, and the next request's tag. It remembers
/// no attributes.
#[derive(Drop)]
pub struct Proxy {
    pub setup: Setup,
    pub fence: u64,
    pub welcomed: bool,
    pub pending: Looks,
    pub next_tag: u64,
}

/// Who makes a call: the client, the number that the call has there, and the credential.
#[derive(Drop)]
struct Caller {
    client: u32,
    xid: u32,
    cred: Cred,
}

/// Whether it answers a GETATTR without attributes that a proxy remembers, which are those of regular files.
fn is_passing(reply: &Reply) -> bool
    ensures { (result ≡ true) ↔ IsPassing (Some reply.now) }
{
    match reply {
        Reply::Getattr(Ok(attributes)) => attributes.kind != Kind::Reg,
        Reply::Getattr(Err(_)) => true,
        _ => false,
    }
}

/// The bytes, in memory of their own.
fn copied(alloc: Global, bytes: &[u8]) -> Result<Bytes, NoMemory>
    ensures { IfOk result (λ copy. copy ≡ bytes.now) }
{
    match bytes.to_vec(alloc) {
        Ok(bytes) => Ok(Bytes::new(bytes)),
        Err(_) => Err(NoMemory),
    }
}

/// One thing is noted.
fn noting(alloc: Global, note: Remark) -> Result<Step, StepFault>
    ensures { Noting (remark_of note) result }
{
    match Step::noting(alloc, note) {
        Ok(step) => Ok(step),
        Err(_) => Err(StepFault::NoMemory),
    }
}

/// The call that arrived in this event is replied to so, and the answer is that of another event.
fn replied(
    alloc: Global,
    arrival: u64,
    event: u64,
    xid: u32,
    reply: &Reply,
) -> Result<Step, StepFault>
    requires { FitsReply reply.now }
    ensures { Noting (note.Replied arrival event (accepted_text xid 0 ++ reply_text reply.now)) result }
{
    match reply_packet(alloc, xid, reply) {
        Ok(bytes) => noting(
            alloc,
            Remark::Replied {
                arrival,
                event,
                bytes,
            },
        ),
        Err(_) => Err(StepFault::NoMemory),
    }
}

impl Proxy {
    /// What it does for a datagram that arrives in an event. Of calls only GETATTR is built.
    pub fn arrive(
        &mut self,
        alloc: Global,
        event: u64,
        client: u32,
        bytes: &[u8],
    ) -> Result<Step, StepFault>
        ensures gives { GivesArrival self.old self.new event client bytes.now result }
    {
        match read_datagram(alloc, bytes) {
            Ok(Datagram::Junk) => noting(alloc, Remark::Junk(event)),
            Ok(Datagram::Answered(bytes)) => noting(
                alloc,
                Remark::Replied {
                    arrival: event,
                    event,
                    bytes,
                },
            ),
            Ok(Datagram::Asked(asked)) => self.take_call(alloc, event, client, bytes, asked),
            Err(_) => Err(StepFault::NoMemory),
        }
    }

    /// The note that a call is dropped by, if it has to be: before the Welcome, and while too many wait.
    fn turned_away(&self, event: u64) -> Option<Remark>
        ensures { option_map remark_of result ≡ admitting.turned_away self.now event }
    {
        if !self.welcomed {
            return Some(Remark::Early(event));
        }
        if self.pending.len() >= MOST_WAITING {
            return Some(Remark::Full(event));
        }
        None
    }

    /// What it does for a call.
    fn take_call(
        &mut self,
        alloc: Global,
        event: u64,
        client: u32,
        bytes: &[u8],
        asked: Asked,
    ) -> Result<Step, StepFault>
        requires { datagram bytes.now ≡ IsAsked (datagrams.asked_of asked) }
        ensures gives { GivesArrival self.old self.new event client bytes.now result }
    {
        if let Some(note) = self.turned_away(event) {
            return noting(alloc, note);
        }
        let caller = Caller {
            client,
            xid: asked.xid,
            cred: asked.cred,
        };
        match asked.call {
            Call::Getattr { object } => self.getattr(
                alloc,
                event,
                bytes,
                caller,
                object.as_slice(),
            ),
            _ => Err(StepFault::NotBuilt),
        }
    }

    /// A GETATTR that isn't turned away.
    fn getattr(
        &mut self,
        alloc: Global,
        event: u64,
        bytes: &[u8],
        caller: Caller,
        object: &[u8],
    ) -> Result<Step, StepFault>
        requires taken { admitting.turned_away self.old event ≡ None }
        requires asked { datagram bytes.now ≡ IsAsked (record { xid = caller.xid; procedure = 1; call = call.Getattr object.now; cred = caller.cred }) }
        ensures gives { GivesArrival self.old self.new event caller.client bytes.now result }
    {
        match target(&self.setup, object) {
            Ok(handle) => self.pass_on(alloc, event, bytes, caller, handle),
            Err(status) => self.refuse(alloc, event, caller.xid, status),
        }
    }

    /// A call whose handle can't be one of this volume is answered at once.
    fn refuse(
        &mut self,
        alloc: Global,
        event: u64,
        xid: u32,
        status: Status,
    ) -> Result<Step, StepFault>
        requires { is_ok_status status ≡ false }
        ensures notes { Noting (reply_note event event xid (Err status)) result }
        ensures held { self.new ≡ without self.old event }
    {
        self.pending.take(event);
        replied(alloc, event, event, xid, &Reply::Getattr(Err(status)))
    }

    /// A call about this object is passed on to the object's server, with the next tag.
    fn pass_on(
        &mut self,
        alloc: Global,
        event: u64,
        bytes: &[u8],
        caller: Caller,
        handle: Handle,
    ) -> Result<Step, StepFault>
        requires { IsAdmitted self.old bytes.now caller.xid caller.cred handle }
        ensures gives { GivesArrival self.old self.new event caller.client bytes.now result }
    {
        let Some(to) = object_server(&self.setup, handle.fileid) else {
            return Err(StepFault::NotBuilt);
        };
        if self.next_tag == u64::MAX {
            return Err(StepFault::Spent);
        }
        let look = Look {
            client: caller.client,
            packet: copied(alloc, bytes)?,
            xid: caller.xid,
            cred: caller.cred,
            handle,
            tag: self.next_tag,
            to,
        };
        self.ask(alloc, event, look)
    }

    /// The call waits, and its request is sent.
    fn ask(&mut self, alloc: Global, event: u64, look: Look) -> Result<Step, StepFault>
        requires bytes { AreBytes look.packet }
        requires asked { datagram look.packet ≡ IsAsked (asked_of look) }
        requires spelled { handle_of (handle_text look.handle) ≡ Some look.handle }
        requires id { look.handle.fileid < 2 ^ 46 }
        requires directory { is_directory look.to ≡ true }
        requires more { self.old.next_tag + 1 < 2 ^ 64 }
        ensures sends { Sending (frame_of (with_look self.old event look) event look) result }
        ensures held { IfOk result (λ step. self.new ≡ with_look self.old event look) }
    {
        let packet = forwarded(alloc, &look)?;
        let (to, tag) = (look.to, look.tag);
        self.pending.put(event, look)?;
        self.next_tag += 1;
        let frame = self.request(to, tag, event, packet);
        Ok(Step::sending(alloc, frame)?)
    }

    /// The frame that asks a directory server under this tag, for the call that arrived in that event.
    fn request(&self, to: u8, tag: u64, arrival: u64, packet: Bytes) -> Frame
        ensures { result ≡ admitting.request self.now to tag arrival packet }
    {
        Frame {
            from: PROXY,
            to,
            fence: self.fence,
            tag,
            low: self.pending.low(self.next_tag),
            op: 0,
            boot: 0,
            arrival,
            body: Body::Forward { chosen: 0, packet },
        }
    }

    /// What it does for a frame, which that event sent. A Welcome is built, and a directory server's answer to GETATTR
    /// without a regular file's attributes.
    pub fn take(&mut self, alloc: Global, frame: &Frame, sent_in: u64) -> Result<Step, StepFault>
        ensures gives { GivesUse self.old self.new frame.now sent_in result }
    {
        match &frame.body {
            Body::Welcome => self.greet(alloc, frame),
            Body::Packet(packet) => self.take_packet(alloc, frame, packet.as_slice(), sent_in),
            _ => Err(StepFault::NotBuilt),
        }
    }

    /// The first Welcome of its fence brings the write verifier. Any other is passed over.
    fn greet(&mut self, alloc: Global, frame: &Frame) -> Result<Step, StepFault>
        requires { frame.now.«body» ≡ body.Welcome }
        ensures gives { (e : ℕ) → GivesUse self.old self.new frame.now e result }
    {
        if frame.fence != self.fence || frame.from != COORDINATOR || self.welcomed {
            return Ok(Step::silent(alloc));
        }
        self.welcomed = true;
        noting(alloc, Remark::Verf(self.fence))
    }

    /// A packet that answers no request of its fence that is out is passed over. So is one that is no reply to GETATTR.
    fn take_packet(
        &mut self,
        alloc: Global,
        frame: &Frame,
        packet: &[u8],
        sent_in: u64,
    ) -> Result<Step, StepFault>
        requires { frame.now.«body» ≡ body.Packet packet.now }
        ensures gives { GivesUse self.old self.new frame.now sent_in result }
    {
        if frame.fence != self.fence {
            return Ok(Step::silent(alloc));
        }
        let Some(arrival) = self.pending.sent_to(frame.from, frame.tag) else {
            return Ok(Step::silent(alloc));
        };
        let Some(reply) = reply_in(alloc, GETATTR, packet)? else {
            return Ok(Step::silent(alloc));
        };
        if is_data_server(frame.from) || !is_passing(&reply) {
            return Err(StepFault::NotBuilt);
        }
        self.answer(alloc, arrival, sent_in, &reply)
    }

    /// The call that arrived in that event has its answer, and waits no longer.
    fn answer(
        &mut self,
        alloc: Global,
        arrival: u64,
        sent_in: u64,
        reply: &Reply,
    ) -> Result<Step, StepFault>
        requires { FitsReply reply.now }
        ensures notes { (look : Look) → map.get self.old.pending arrival ≡ Some look → Noting (note.Replied arrival sent_in (accepted_text look.xid 0 ++ reply_text reply.now)) result }
        ensures held { self.new ≡ without self.old arrival }
    {
        match self.pending.take(arrival) {
            Some(look) => replied(alloc, arrival, sent_in, look.xid, reply),
            None => Ok(Step::silent(alloc)),
        }
    }
}
