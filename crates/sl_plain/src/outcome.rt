ghost use Rattle.std.specs.Prelude.{◌≡◌, ◌++◌, ◌∷◌, [], map, OnOk};
ghost use Rattle.sl_model.specs.Looking as looking;
ghost use Rattle.sl_plain.specs.Outcomes.{change_of};

use crate::change::Change;
use sl_defs::NoMemory;
use sl_types::Reply;
use std::alloc::Global;
use std::marker::Model;

/// The changes of a call in their order, which contracts see as that list.
#[derive(Drop)]
pub(crate) struct Changes {
    items: Vec<Change>,
}

impl Model for Changes {
    ghost use Rattle.std.specs.Prelude.{List, map};
    ghost use Rattle.sl_model.specs.Volume as volume;
    ghost use Rattle.sl_plain.specs.Outcomes.{change_of};

    ghost Value = { List volume.Change };

    ghost view = { λ c. map change_of c.items.items };
}

impl Changes {
    /// No change.
    pub(crate) fn new(alloc: Global) -> Changes
        ensures { result ≡ [] }
    {
        Changes {
            items: Vec::new(alloc),
        }
    }

    /// One change more.
    pub(crate) fn push(&mut self, change: Change) -> Result<(), NoMemory>
        ensures { OnOk result (self.new ≡ self.old ++ change_of change ∷ []) }
    {
        let Ok(_) = self.items.push(change) else {
            return Err(NoMemory);
        };
        Ok(())
    }

    /// The changes in their order.
    pub(crate) fn into_vec(self) -> Vec<Change>
        ensures { map change_of result.items ≡ self }
    {
        let Changes { items } = self;
        items
    }
}

/// What a call changes, and its reply.
#[derive(Drop)]
pub(crate) struct Outcome {
    changes: Changes,
    answer: Reply,
}

impl Model for Outcome {
    ghost use Rattle.sl_model.specs.Looking as looking;

    ghost Value = { looking.Outcome };

    ghost view = { λ o. record { changes = o.changes; answer = o.answer } };
}

impl Outcome {
    /// These changes and this reply.
    pub(crate) fn new(changes: Changes, answer: Reply) -> Outcome
        ensures { result ≡ record { changes = changes; answer = answer } }
    {
        Outcome { changes, answer }
    }

    /// A reply of a call that changes nothing.
    pub(crate) fn answering(alloc: Global, answer: Reply) -> Outcome
        ensures { result ≡ looking.answering answer }
    {
        Outcome {
            changes: Changes::new(alloc),
            answer,
        }
    }

    /// The changes and the reply.
    pub(crate) fn into_parts(self) -> (Changes, Reply)
        ensures { result ≡ (self.changes, self.answer) }
    {
        let Outcome { changes, answer } = self;
        (changes, answer)
    }
}
