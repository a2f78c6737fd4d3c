//! Frames, read and written.
ghost use Rattle.std.specs.Prelude.{◌≡◌, ◌++◌, ℕ, List, length, take, Err, IfOk, OnOk, OnErr};
ghost use Rattle.sl_items.specs.Reading.{GivesArgs};
ghost use Rattle.sl_frames.specs.declared.frame.Frame.{Frame};
ghost use Rattle.sl_frames.specs.Frames.{FitsFrame, IsFrame, ShortBody, frame_behind, frame_of, frame_text, head_text};

use crate::bodies::{put_body, read_body};
use crate::frame::Frame;
use crate::parts::garbage;
use sl_types::ArgsFault;
use sl_xdr::{Cursor, NoMemory, put_u64};
use std::alloc::Global;

/// Why a frame could not be read.
#[derive(Clone, Copy, Debug, PartialEq, Eq)]
pub enum FrameFault {
    /// The bytes aren't in the grammar.
    BadFrame,
    NoMemory,
}

#[tactic(auto, unfolding(crate::specs::Frames::numbers_at))]
fn read_behind(alloc: Global, from: u8, to: u8, kind: u8, bytes: &[u8]) -> Result<Frame, ArgsFault>
    ensures { GivesArgs (λ f. f) result (frame_behind from to kind bytes.now) }
{
    let mut cursor = Cursor::new(bytes);
    let fence = cursor.take_u64().map_err(garbage)?;
    let tag = cursor.take_u64().map_err(garbage)?;
    let low = cursor.take_u64().map_err(garbage)?;
    let op = cursor.take_u64().map_err(garbage)?;
    let boot = cursor.take_u64().map_err(garbage)?;
    let arrival = cursor.take_u64().map_err(garbage)?;
    let body = read_body(alloc, kind, cursor.rest())?;
    let frame = Frame {
        from,
        to,
        fence,
        tag,
        low,
        op,
        boot,
        arrival,
        body,
    };
    if frame.is_well_formed() {
        Ok(frame)
    } else {
        Err(ArgsFault::Garbage)
    }
}

#[tactic(auto, unfolding(crate::specs::Frames::frame_of))]
fn read_frame(alloc: Global, bytes: &[u8]) -> Result<Frame, ArgsFault>
    ensures { GivesArgs (λ f. f) result (frame_of bytes.now) }
{
    match bytes {
        [from, to, kind, padding, behind @ ..] => {
            if *padding == 0 {
                read_behind(alloc, *from, *to, *kind, behind)
            } else {
                Err(ArgsFault::Garbage)
            }
        }
        _ => Err(ArgsFault::Garbage),
    }
}

#[tactic(auto, using(sl_items::proofs::Appended::appended), unfolding(crate::specs::Frames::head_text))]
fn put_head(out: &mut Vec<u8>, frame: &Frame) -> Result<(), NoMemory>
    ensures ok { OnOk result (out.new.items ≡ out.old.items ++ head_text frame.now) }
    ensures kept { take (length out.old.items) out.new.items ≡ out.old.items }
{
    let first = [frame.from, frame.to, frame.body.kind(), 0];
    out.extend_from_slice(&first).map_err(|_| NoMemory)?;
    put_u64(out, frame.fence)?;
    put_u64(out, frame.tag)?;
    put_u64(out, frame.low)?;
    put_u64(out, frame.op)?;
    put_u64(out, frame.boot)?;
    put_u64(out, frame.arrival)?;
    Ok(())
}

#[tactic(auto, using(sl_items::proofs::Appended::appended))]
fn put_frame(out: &mut Vec<u8>, frame: &Frame) -> Result<(), NoMemory>
    requires { ShortBody frame.now.«body» }
    ensures ok { OnOk result (out.new.items ≡ out.old.items ++ frame_text frame.now) }
    ensures kept { take (length out.old.items) out.new.items ≡ out.old.items }
{
    put_head(out, frame)?;
    put_body(out, &frame.body)?;
    Ok(())
}

impl Frame {
    /// The frame that the whole bytes spell. A packet in it is copied once.
    pub fn read(alloc: Global, bytes: &[u8]) -> Result<Frame, FrameFault>
        // The bytes are this frame's text, and no other frame's.
        ensures found { IfOk result (λ f. IsFrame f bytes.now) }
        ensures only { IfOk result (λ f. (other : Frame) → IsFrame other bytes.now → other ≡ f) }
        // It can be written.
        ensures short { IfOk result (λ f. ShortBody f.«body») }
        // They are no frame's.
        ensures bad { result ≡ Err FrameFault.BadFrame → (f : Frame) → IsFrame f bytes.now → ⊥ }
    {
        match read_frame(alloc, bytes) {
            Ok(frame) => Ok(frame),
            Err(ArgsFault::Garbage) => Err(FrameFault::BadFrame),
            Err(ArgsFault::NoMemory) => Err(FrameFault::NoMemory),
        }
    }

    /// Appends the frame's text, where the lists and the opaques in it are short enough to have one. Without memory
    /// nothing is appended.
    #[tactic(auto, using(sl_items::proofs::Appended::appended))]
    pub fn write(&self, out: &mut Vec<u8>) -> Result<(), NoMemory>
        requires { ShortBody self.now.«body» }
        ensures ok { OnOk result (out.new.items ≡ out.old.items ++ frame_text self.now) }
        // What is appended is in the grammar.
        ensures spelled { FitsFrame self.now → OnOk result ((text : List ℕ) × IsFrame self.now text × (out.new.items ≡ out.old.items ++ text)) }
        ensures err { OnErr result (out.new.items ≡ out.old.items) }
    {
        let before = out.len();
        match put_frame(out, self) {
            Ok(()) => Ok(()),
            Err(e) => {
                out.truncate(before);
                Err(e)
            }
        }
    }
}
