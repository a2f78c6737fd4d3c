//! A directory server that has the root alone.
ghost use Rattle.std.specs.Prelude.{◌≡◌, [], ◌++◌, IfOk};
ghost use Rattle.sl_defs.specs.Rpc.{accepted_text};
ghost use Rattle.sl_replies.specs.Texts.{FitsReply, reply_text};
ghost use Rattle.sl_types.specs.Handles.{FitsHandle};
ghost use Rattle.sl_types.specs.declared.reply.Reply.TheVariants as reply;
ghost use Rattle.sl_model.specs.Looking.{attributes};
ghost use Rattle.sl_model.specs.Perform.{new_root};
ghost use Rattle.sl_machine.specs.Verdicts as verdicts;
ghost use Rattle.sl_world.specs.Serving.{GivesAnswer, Serves, answer_to_getattr, is_passed, served};
ghost use Rattle.sl_world.specs.Serving as serving;
ghost use Rattle.sl_world.specs.Reading.{Reads};

use crate::site::Site;
use crate::step::{Step, StepFault};
use sl_datagram::{Asked, Datagram, read_datagram};
use sl_frames::{Body, Frame};
use sl_packing::{PacketFault, reply_packet};
use sl_types::{
    Bytes, Call, Fattr, Fh, Handle, InternalHandle, Kind, NoMemory, Reply, Status, Time,
};
use std::alloc::Global;

/// The root's fileid.
const ROOT: u64 = 1;

/// A directory server that has the root of its volume alone.
#[derive(Clone, Copy, Debug, PartialEq, Eq)]
pub struct Directory {
    /// Its number among the actors.
    pub actor: u8,
    /// The volume's number.
    pub volume: u64,
    pub site: Site,
}

/// A GETATTR call, as far as its answer depends on it.
#[derive(Drop)]
struct Getattr {
    xid: u32,
    object: Fh,
}

/// The GETATTR that was forwarded, if the packet is a call.
fn getattr_in(alloc: Global, body: &Body) -> Result<Option<Getattr>, StepFault>
    ensures { Reads (serving.forwarded body.now) result }
{
    let Body::Forward { packet, .. } = body else {
        return Err(StepFault::NotBuilt);
    };
    let Datagram::Asked(Asked { xid, call, .. }) = read_datagram(alloc, packet.as_slice())? else {
        return Ok(None);
    };
    match call {
        Call::Getattr { object } => Ok(Some(Getattr { xid, object })),
        _ => Err(StepFault::NotBuilt),
    }
}

/// The attributes of a new volume's root.
fn root_attributes(volume: u64) -> Fattr
    ensures { result ≡ attributes (new_root volume) }
{
    let epoch = Time { sec: 0, nsec: 0 };
    Fattr {
        kind: Kind::Dir,
        mode: 0o755,
        nlink: 2,
        uid: 0,
        gid: 0,
        size: 0,
        used: 0,
        major: 0,
        minor: 0,
        fsid: volume,
        fileid: ROOT,
        atime: epoch,
        mtime: epoch,
        ctime: epoch,
    }
}

/// The packet of the reply to a GETATTR.
fn packet_of(alloc: Global, xid: u32, outcome: Result<Fattr, Status>) -> Result<Bytes, NoMemory>
    requires { FitsReply (reply.Getattr outcome) }
    ensures { IfOk result (λ packet. packet ≡ accepted_text xid 0 ++ reply_text (reply.Getattr outcome)) }
{
    match reply_packet(alloc, xid, &Reply::Getattr(outcome)) {
        Ok(packet) => Ok(packet),
        Err(PacketFault::NoMemory) => Err(NoMemory),
        // A failure of GETATTR isn't OK, and its reply has no part that could be too long.
        Err(PacketFault::TooLong) => unreachable!(),
    }
}

impl Directory {
    fn is_root(&self, handle: Handle) -> bool
        ensures fits { FitsHandle handle }
        ensures is { result ≡ serving.is_root self.now.volume handle }
    {
        handle.fileid == ROOT && handle.volume == self.volume && handle.kind == Kind::Dir
    }

    /// The attributes of what this handle among the servers names (RFC 1813, section 3.3.1).
    fn look(&self, object: &[u8]) -> Result<Fattr, Status>
        ensures { result ≡ serving.look self.now.volume object.now }
    {
        match InternalHandle::read(object) {
            None => Err(Status::BadHandle),
            Some(internal) if self.is_root(internal.handle) => Ok(root_attributes(self.volume)),
            Some(_) => Err(Status::Stale),
        }
    }

    /// The answer to a frame.
    fn answering(&self, frame: &Frame, body: Body) -> Frame
        ensures { result ≡ verdicts.answering self.now.actor 0 frame.now body }
    {
        Frame {
            from: self.actor,
            to: frame.from,
            fence: frame.fence,
            tag: frame.tag,
            low: 0,
            op: frame.op,
            boot: 0,
            arrival: 0,
            body,
        }
    }

    /// The answer to a frame with this GETATTR.
    fn answer(&self, alloc: Global, frame: &Frame, getattr: &Getattr) -> Result<Step, NoMemory>
        ensures sent { IfOk result (λ step. step.frames ≡ answer_to_getattr self.now frame.now getattr.now.xid getattr.now.object) }
        ensures noted { IfOk result (λ step. step.notes ≡ []) }
    {
        let packet = packet_of(alloc, getattr.xid, self.look(getattr.object.as_slice()))?;
        Step::sending(alloc, self.answering(frame, Body::Packet(packet)))
    }

    /// A frame of an older fence is passed over, and one of a tag that the proxy no longer waits for.
    fn passes_over(&mut self, frame: &Frame) -> bool
        ensures passed { result ≡ is_passed self.old frame.now }
        ensures served { self.new ≡ served self.old frame.now }
    {
        let is_older = frame.fence < self.site.fence;
        self.site.see(frame);
        is_older || frame.tag < self.site.low
    }

    /// What it does for a frame, as its clause says it.
    fn serve(&mut self, alloc: Global, frame: &Frame) -> Result<Step, StepFault>
        ensures { Serves self.old self.new frame.now (serving.forwarded frame.now.«body») result }
    {
        let getattr = getattr_in(alloc, &frame.body)?;
        if self.passes_over(frame) {
            return Ok(Step::silent(alloc));
        }
        match getattr {
            Some(getattr) => Ok(self.answer(alloc, frame, &getattr)?),
            None => Ok(Step::silent(alloc)),
        }
    }

    /// What it does for a frame. Only what is done for a forwarded GETATTR, and for a packet that is no call, is built.
    pub fn step(&mut self, alloc: Global, frame: &Frame) -> Result<Step, StepFault>
        ensures gives { GivesAnswer self.old self.new frame.now result }
    {
        self.serve(alloc, frame)
    }
}
