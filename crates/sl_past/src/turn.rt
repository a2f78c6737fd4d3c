ghost use Rattle.std.specs.Prelude.{◌≡◌, map};
ghost use Rattle.sl_past.specs.Words.{happening_of, remark_of};

use crate::happening::Happening;
use crate::remark::Remark;
use sl_defs::Time;
use std::marker::Model;

/// What happened, at which moment, and what was remarked of it, in order. Contracts see it as the turn of a history.
#[derive(Drop, Debug)]
pub struct Turn {
    happening: Happening,
    moment: Time,
    remarks: Vec<Remark>,
}

impl Model for Turn {
    ghost use Rattle.std.specs.Prelude.{map};
    ghost use Rattle.sl_history.specs.Turns as turns;
    ghost use Rattle.sl_past.specs.Words.{happening_of, remark_of};

    ghost Value = { turns.Turn };

    ghost view = { λ t. record { happening = happening_of t.happening; moment = t.moment; remarks = map remark_of t.remarks.items } };
}

impl Turn {
    /// The turn of these parts, which are not copied.
    pub fn new(happening: Happening, moment: Time, remarks: Vec<Remark>) -> Turn
        ensures { result ≡ record { happening = happening_of happening; moment = moment; remarks = map remark_of remarks.items } }
    {
        Turn {
            happening,
            moment,
            remarks,
        }
    }

    /// What happened.
    pub fn happening(&self) -> &Happening
        ensures { happening_of result.now ≡ self.now.happening }
    {
        &self.happening
    }

    /// The moment of what happened.
    pub fn moment(&self) -> Time
        ensures { result ≡ self.now.moment }
    {
        self.moment
    }

    /// What was remarked of it, in order.
    pub fn remarks(&self) -> &[Remark]
        ensures { map remark_of result.now ≡ self.now.remarks }
    {
        self.remarks.as_slice()
    }
}
