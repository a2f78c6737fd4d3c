//! The coordinator, as far as it welcomes proxies.
ghost use Rattle.std.specs.Prelude.{◌≡◌, [], IfOk};
ghost use Rattle.sl_machine.specs.Coordinators as machine;
ghost use Rattle.sl_world.specs.Coordinating.{GivesStep, greeted, greeting};

use crate::actors::{COORDINATOR, PROXY};
use crate::site::Site;
use crate::step::{Step, StepFault};
use sl_frames::{Body, Frame};
use sl_types::NoMemory;
use std::alloc::Global;

/// A coordinator without intents: what it has seen, and whether the proxy was heard since its opening.
#[derive(Clone, Copy, Debug, PartialEq, Eq)]
pub struct Coordinator {
    pub site: Site,
    pub heard: bool,
}

// The Welcome of a fence.
fn welcome(fence: u64) -> Frame
    ensures { result ≡ machine.welcome fence }
{
    Frame {
        from: COORDINATOR,
        to: PROXY,
        fence,
        tag: 0,
        low: 0,
        op: 0,
        boot: 0,
        arrival: 0,
        body: Body::Welcome,
    }
}

impl Coordinator {
    /// A Hello of an older fence is passed over. Any other is answered by a Welcome, since no operation is unfinished.
    fn greet(&mut self, alloc: Global, frame: &Frame) -> Result<Step, NoMemory>
        ensures sent { IfOk result (λ step. step.frames ≡ greeting self.old frame.now) }
        ensures noted { IfOk result (λ step. step.notes ≡ []) }
        ensures held { IfOk result (λ step. self.new ≡ greeted self.old frame.now) }
    {
        if frame.fence < self.site.fence {
            return Ok(Step::silent(alloc));
        }
        self.site.see(frame);
        if frame.from == PROXY {
            self.heard = true;
        }
        Step::sending(alloc, welcome(frame.fence))
    }

    /// What it does for a frame. Of a Hello's kind alone something is built.
    pub fn step(&mut self, alloc: Global, frame: &Frame) -> Result<Step, StepFault>
        ensures gives { GivesStep self.old self.new frame.now result }
    {
        match frame.body {
            Body::Hello => Ok(self.greet(alloc, frame)?),
            _ => Err(StepFault::NotBuilt),
        }
    }
}
