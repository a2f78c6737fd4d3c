//! What an actor's step sends and notes.
ghost use Rattle.std.specs.Prelude.{◌≡◌, ◌≤◌, [], ◌∷◌, ◌++◌, length, map, IfOk, OnOk};
ghost use Rattle.sl_past.specs.Words.{remark_of};

use sl_frames::Frame;
use sl_past::Remark;
use sl_types::NoMemory;
use std::alloc::Global;
use std::marker::Model;

/// Frames in the order in which they are sent, which contracts see as that list. So far there is one at most.
#[derive(Drop, Debug)]
pub struct Frames {
    items: Vec<Frame>,
}

impl Model for Frames {
    ghost use Rattle.std.specs.Prelude.{List, ◌≤◌, length};
    ghost use Rattle.sl_frames.specs.declared.frame.Frame.{Frame};

    ghost Value = { List Frame };

    ghost view = { λ f. f.items.items };

    ghost invariant = { λ f. length f.items.items ≤ 1 };
}

impl Frames {
    /// No frame.
    pub fn none(alloc: Global) -> Frames
        ensures { result ≡ [] }
    {
        Frames {
            items: Vec::new(alloc),
        }
    }

    /// One frame.
    pub fn one(alloc: Global, frame: Frame) -> Result<Frames, NoMemory>
        ensures { IfOk result (λ frames. frames ≡ frame ∷ []) }
    {
        let mut items = Vec::new(alloc);
        match items.push(frame) {
            Ok(()) => Ok(Frames { items }),
            Err(_) => Err(NoMemory),
        }
    }

    /// The frames, in order.
    pub fn as_slice(&self) -> &[Frame]
        ensures { result.now ≡ self.now }
    {
        self.items.as_slice()
    }

    /// The frames, in order, which are not copied. No step sends more than one, so far.
    pub fn into_vec(self) -> Vec<Frame>
        ensures frames { result.items ≡ self }
        ensures few { length result.items ≤ 1 }
    {
        let Frames { items } = self;
        items
    }
}

/// What is noted, in order, which contracts see as the remarks of a history.
#[derive(Drop, Debug)]
pub struct Notes {
    items: Vec<Remark>,
}

impl Model for Notes {
    ghost use Rattle.std.specs.Prelude.{List, map};
    ghost use Rattle.sl_history.specs.Turns as turns;
    ghost use Rattle.sl_past.specs.Words.{remark_of};

    ghost Value = { List turns.Remark };

    ghost view = { λ n. map remark_of n.items.items };
}

impl Notes {
    /// No note.
    pub fn none(alloc: Global) -> Notes
        ensures { result ≡ [] }
    {
        Notes {
            items: Vec::new(alloc),
        }
    }

    /// One note.
    pub fn one(alloc: Global, note: Remark) -> Result<Notes, NoMemory>
        ensures { IfOk result (λ notes. notes ≡ remark_of note ∷ []) }
    {
        let mut items = Vec::new(alloc);
        match items.push(note) {
            Ok(()) => Ok(Notes { items }),
            Err(_) => Err(NoMemory),
        }
    }

    /// Puts one more behind the others.
    pub fn push(&mut self, note: Remark) -> Result<(), NoMemory>
        ensures { OnOk result (self.new ≡ self.old ++ remark_of note ∷ []) }
    {
        match self.items.push(note) {
            Ok(()) => Ok(()),
            Err(_) => Err(NoMemory),
        }
    }

    /// Puts these behind the others.
    pub fn append(&mut self, notes: Notes) -> Result<(), NoMemory>
        ensures { OnOk result (self.new ≡ self.old ++ notes) }
    {
        let Notes { mut items } = notes;
        match self.items.append(&mut items) {
            Ok(()) => Ok(()),
            Err(_) => Err(NoMemory),
        }
    }

    /// The notes, in order.
    pub fn as_slice(&self) -> &[Remark]
        ensures { map remark_of result.now ≡ self.now }
    {
        self.items.as_slice()
    }
}

/// What an actor's step sends and notes.
#[derive(Drop, Debug)]
pub struct Step {
    pub frames: Frames,
    pub notes: Notes,
}

impl Step {
    /// Nothing is sent or noted.
    pub fn silent(alloc: Global) -> Step
        ensures frames { result.frames ≡ [] }
        ensures notes { result.notes ≡ [] }
    {
        Step {
            frames: Frames::none(alloc),
            notes: Notes::none(alloc),
        }
    }

    /// One frame is sent.
    pub fn sending(alloc: Global, frame: Frame) -> Result<Step, NoMemory>
        ensures frames { IfOk result (λ step. step.frames ≡ frame ∷ []) }
        ensures notes { IfOk result (λ step. step.notes ≡ []) }
    {
        let notes = Notes::none(alloc);
        let frames = Frames::one(alloc, frame)?;
        Ok(Step { frames, notes })
    }

    /// One thing is noted.
    pub fn noting(alloc: Global, note: Remark) -> Result<Step, NoMemory>
        ensures frames { IfOk result (λ step. step.frames ≡ []) }
        ensures notes { IfOk result (λ step. step.notes ≡ remark_of note ∷ []) }
    {
        let frames = Frames::none(alloc);
        let notes = Notes::one(alloc, note)?;
        Ok(Step { frames, notes })
    }
}

/// Why a step isn't made.
#[derive(Clone, Copy, Debug, PartialEq, Eq)]
pub enum StepFault {
    /// What the frame or the datagram asks for isn't built.
    NotBuilt,
    /// A count would pass its type's end.
    Spent,
    NoMemory,
}

impl From<NoMemory> for StepFault {
    ghost use Rattle.std.specs.Prelude.{◌≡◌};
    ghost use Rattle.sl_world.specs.declared.step.StepFault.TheVariants.{NoMemory};

    ghost from_gives = { λ _ fault. fault ≡ NoMemory };

    fn from(_: NoMemory) -> StepFault {
        StepFault::NoMemory
    }
}
