//! Whether a frame may be sent.
ghost use Rattle.std.specs.Prelude.{◌≡◌, ◌↔◌, ◌+◌, ◌∷◌, List, true, IfOk};
ghost use Rattle.sl_defs.specs.Histories.{Happens};
ghost use Rattle.sl_defs.specs.declared.setup.Setup.{Setup};
ghost use Rattle.sl_model.specs.Volume as volumes;
ghost use Rattle.sl_history.specs.Turns as turns;
ghost use Rattle.sl_history.specs.Turns.{so_far};
ghost use Rattle.sl_history.specs.Deciding.{Says};
ghost use Rattle.sl_history.specs.Bodies.{is_hello};
ghost use Rattle.sl_history.specs.Wired.{IsSent, acts, is_quiet, looked_at, may_send};
ghost use Rattle.sl_past.specs.Words.{happening_of};
ghost use Rattle.sl_wiring.specs.Dockets.{IsDocketOf};

use crate::docket::Docket;
use crate::packets::looked_at;
use sl_defs::{Event, NoMemory};
use sl_frames::{Body, Frame};
use sl_past::Happening;
use sl_plain::Volume;
use std::alloc::Global;

fn is_hello(body: &Body) -> bool
    ensures { result ≡ is_hello body.now }
{
    matches!(body, Body::Hello)
}

/// Whether no attributes of a file with unstable writes are asked of a server by this frame.
fn is_quiet(alloc: Global, volume: &Volume, body: &Body) -> Result<bool, NoMemory>
    ensures { IfOk result (λ quiet. quiet ≡ is_quiet volume.now (looked_at body.now)) }
{
    match looked_at(alloc, body)? {
        Some(file) => Ok(!volume.is_unstable(file)),
        None => Ok(true),
    }
}

/// Whether the number follows those of the frames that were sent.
fn is_next(frames: u64, number: u64) -> bool
    ensures { (result ≡ true) ↔ (number ≡ frames + 1) }
{
    number > 0 && number - 1 == frames
}

impl Docket {
    /// Whether the newest turn is an event of this actor.
    fn is_actor(&self, actor: u8) -> bool
        ensures { (setup : Setup) (start : volumes.Volume) (t : turns.Turn) (past : turns.History) → IsDocketOf setup start (t ∷ past) self.now → result ≡ acts past t.happening actor }
    {
        match self.actor {
            Some(acting) => acting == actor,
            None => false,
        }
    }

    /// Whether the frame may be sent in the newest turn, which is this event, by who sends it.
    fn may_send_at(&self, event: &Event, frame: &Frame) -> bool
        ensures { (setup : Setup) (start : volumes.Volume) (t : turns.Turn) (past : turns.History) → t.happening ≡ Happens event.now → IsDocketOf setup start (t ∷ past) self.now → result ≡ may_send past t.happening frame.now }
    {
        match event {
            Event::Call { .. } => frame.from == 0 && self.ledger.was_up(frame.from),
            Event::Tick => frame.from <= 1 && self.ledger.was_up(frame.from),
            _ => self.is_actor(frame.from),
        }
    }

    /// Whether the frame may be sent in the newest turn, by who sends it.
    fn may_send(&self, happening: &Happening, frame: &Frame) -> bool
        ensures { (setup : Setup) (start : volumes.Volume) (t : turns.Turn) (past : turns.History) → t.happening ≡ happening_of happening.now → IsDocketOf setup start (t ∷ past) self.now → result ≡ may_send past t.happening frame.now }
    {
        match happening {
            Happening::Opens(_) => frame.from == 0 && is_hello(&frame.body),
            Happening::Reaches(_) => self.is_actor(frame.from),
            Happening::Happens(event) => self.may_send_at(event, frame),
        }
    }

    /// Whether the frame may be sent next.
    pub fn is_sent(
        &self,
        alloc: Global,
        happening: &Happening,
        number: u64,
        frame: &Frame,
    ) -> Result<bool, NoMemory>
        ensures { (setup : Setup) (start : volumes.Volume) (t : turns.Turn) (past : turns.History) (before : List turns.Remark) → t.happening ≡ happening_of happening.now → IsDocketOf setup start (so_far t before ∷ past) self.now → Says result (IsSent start past t (so_far t before ∷ past) number frame.now) }
    {
        if !is_next(self.ledger.frames(), number) {
            return Ok(false);
        }
        if !self.may_send(happening, frame) {
            return Ok(false);
        }
        if !self.given.may_follow(frame) {
            return Ok(false);
        }
        is_quiet(alloc, &self.volume, &frame.body)
    }
}
