//! The frames that were given to actors that were up, as far as it counts later.
ghost use Rattle.std.specs.Prelude.{◌≡◌, ◌↔◌, [], true, OnOk};
ghost use Rattle.std.specs.List.{Contains};
ghost use Rattle.sl_history.specs.Turns.{History};
ghost use Rattle.sl_history.specs.Wired.{IsAnswer, is_answer};
ghost use Rattle.sl_wiring.specs.Given.{AreGivenIn, HasMore, HasOneMore, behind, grant_by, put_by};

use crate::grants::Grants;
use crate::question::Question;
use sl_defs::NoMemory;
use sl_frames::{Body, Frame};
use std::alloc::Global;
use std::collections::BTreeSet;

// The kinds of frames that are answered, by their numbers.
const HELLO: u8 = 1;

const FORWARD: u8 = 3;

const ASK: u8 = 5;

const LIST: u8 = 7;

const MINT: u8 = 9;

const INTENT: u8 = 11;

const LOCK: u8 = 13;

const APPLY: u8 = 16;

const RELEASE: u8 = 17;

/// What the given frames ask, and which operations they grant.
#[derive(Drop)]
pub struct Given {
    questions: BTreeSet<Question>,
    grants: Grants,
}

impl Given {
    /// Nothing was given.
    pub fn new(alloc: Global) -> Given
        ensures { AreGivenIn [] result }
    {
        Given {
            questions: BTreeSet::new(alloc),
            grants: Grants::new(alloc),
        }
    }

    /// One frame more was given.
    pub fn take(&mut self, frame: &Frame) -> Result<(), NoMemory>
        ensures questions { OnOk result (HasOneMore self.old.questions.keys self.new.questions.keys (put_by frame.now)) }
        ensures grants { OnOk result (HasMore self.old.grants.items.keys self.new.grants.items.keys (grant_by frame.now)) }
    {
        let Ok(_) = self.questions.insert(Question::put_by(frame)) else {
            return Err(NoMemory);
        };
        self.grants.take(frame)
    }

    /// Whether the question of this kind was given that a frame answers.
    fn asks(&self, answer: &Frame, kind: u8) -> bool
        ensures { (result ≡ true) ↔ Contains self.now.questions.keys (behind answer.now kind) }
    {
        self.questions.contains(&Question::behind(answer, kind))
    }

    /// Whether the frame is no answer, or answers one that was given.
    pub fn may_follow(&self, frame: &Frame) -> bool
        ensures { (h : History) → AreGivenIn h self.now → (result ≡ true) ↔ (is_answer frame.now.body ≡ true → IsAnswer h frame.now) }
    {
        match &frame.body {
            Body::Welcome => self.asks(frame, HELLO),
            Body::Packet(_) => self.asks(frame, FORWARD),
            Body::Found(_) => self.asks(frame, ASK),
            Body::Listed { .. } => self.asks(frame, LIST),
            Body::Minted { .. } => self.asks(frame, MINT),
            Body::Decided { .. } => self.asks(frame, INTENT),
            Body::Grant => self.asks(frame, LOCK),
            Body::Refuse => self.asks(frame, FORWARD) || self.asks(frame, LOCK),
            Body::Ack => self.asks(frame, APPLY) || self.asks(frame, RELEASE),
            _ => true,
        }
    }

    /// The operations that servers granted.
    pub fn grants(&self) -> &Grants
        ensures { result.now ≡ self.now.grants }
    {
        &self.grants
    }
}
