//! The requests for a flush that were sent.
ghost use Rattle.std.specs.Prelude.{◌≡◌, ◌∷◌, [], IfOk, OnOk};
ghost use Rattle.sl_history.specs.Turns.{History, Turn, noted};
ghost use Rattle.sl_history.specs.Licensed.{flush_in};
ghost use Rattle.sl_past.specs.Words.{remark_of};
ghost use Rattle.sl_licence.specs.Asking.{AreRequestsOf, new_request, request_if, request_in};

use crate::words::flush_in;
use sl_defs::NoMemory;
use sl_frames::Frame;
use sl_past::Remark;
use std::alloc::Global;
use std::collections::BTreeSet;

/// A request for a file's flush, for the call that came in this event.
#[derive(Clone, Copy, Debug, PartialEq, Eq, PartialOrd, Ord)]
pub struct FlushRequest {
    pub file: u64,
    pub fence: u64,
    pub tag: u64,
    pub arrival: u64,
}

/// The requests for a flush that were sent.
#[derive(Drop)]
pub struct Requests {
    sent: BTreeSet<FlushRequest>,
}

/// The request that a note sends, where it does.
fn request_in(remark: &Remark) -> Option<FlushRequest>
    ensures { result ≡ request_in (remark_of remark.now) }
{
    match remark {
        Remark::Sent { frame, .. } => request_of(frame),
        _ => None,
    }
}

/// The request that a frame is, where it is one.
fn request_of(frame: &Frame) -> Option<FlushRequest>
    ensures { result ≡ request_if frame.now (flush_in frame.now.body) }
{
    match flush_in(&frame.body) {
        Some(file) => Some(FlushRequest {
            file,
            fence: frame.fence,
            tag: frame.tag,
            arrival: frame.arrival,
        }),
        None => None,
    }
}

impl Requests {
    /// None was sent yet.
    pub fn new(alloc: Global) -> Requests
        ensures { AreRequestsOf [] result }
    {
        Requests {
            sent: BTreeSet::new(alloc),
        }
    }

    /// Takes a note: the request that it sends, where it wasn't sent before.
    pub fn note(&mut self, remark: &Remark) -> Result<Option<FlushRequest>, NoMemory>
        ensures new { IfOk result (λ new. (h : History) → AreRequestsOf h self.old → new ≡ new_request h (remark_of remark.now)) }
        ensures noted { OnOk result ((t : Turn) (past : History) → AreRequestsOf (t ∷ past) self.old → AreRequestsOf (noted (t ∷ past) (remark_of remark.now)) self.new) }
    {
        let Some(request) = request_in(remark) else {
            return Ok(None);
        };
        match self.sent.insert(request) {
            Ok(true) => Ok(Some(request)),
            Ok(false) => Ok(None),
            Err(_) => Err(NoMemory),
        }
    }
}
