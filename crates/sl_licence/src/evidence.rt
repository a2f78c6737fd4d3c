//! What the turns and notes so far show, beside the one server's volume.
ghost use Rattle.std.specs.Prelude.{◌≡◌, ◌↔◌, ◌∷◌, [], true, IfOk, OnOk};
ghost use Rattle.sl_defs.specs.declared.setup.Time.{Time};
ghost use Rattle.sl_model.specs.Volume as volumes;
ghost use Rattle.sl_history.specs.Turns.{History, Turn, begun, noted};
ghost use Rattle.sl_past.specs.Words.{happening_of, remark_of};
ghost use Rattle.sl_ledger.specs.Replies.{IsReplyOf};
ghost use Rattle.sl_licence.specs.Asking.{new_request};
ghost use Rattle.sl_licence.specs.Evidence.{HasSpace, HasSpaceIf, IsEvidenceOf, MayUse};

use crate::asking::{FlushRequest, Requests};
use crate::dirty::Flushing;
use crate::flushes::Flushes;
use crate::losses::{lost_as_begins, lost_by};
use crate::mints::Mints;
use crate::words::is_no_space;
use sl_defs::NoMemory;
use sl_ledger::Ledger;
use sl_past::{Happening, Remark};
use sl_types::Reply;
use std::alloc::Global;

/// What the turns and notes so far show, beside the one server's volume.
#[derive(Drop)]
pub struct Evidence {
    pub ledger: Ledger,
    /// Whether unstable writes may be lost.
    pub may_be_lost: bool,
    pub flushes: Flushes,
    pub requests: Requests,
    pub flushing: Flushing,
    pub mints: Mints,
}

impl Evidence {
    /// Nothing has happened yet.
    pub fn new(alloc: Global) -> Result<Evidence, NoMemory>
        ensures { IfOk result (IsEvidenceOf []) }
    {
        let ledger = Ledger::new(alloc)?;
        Ok(Evidence {
            ledger,
            may_be_lost: true,
            flushes: Flushes::new(alloc),
            requests: Requests::new(alloc),
            flushing: Flushing::new(alloc),
            mints: Mints::new(alloc),
        })
    }

    /// A turn begins: nothing is noted of it yet.
    pub fn begin(&mut self, alloc: Global, happening: &Happening) -> Result<(), NoMemory>
        ensures { OnOk result ((past : History) (moment : Time) → IsEvidenceOf past self.old → IsEvidenceOf (begun past (happening_of happening.now) moment) self.new) }
    {
        self.ledger.begin(alloc, happening)?;
        self.may_be_lost = lost_as_begins(&self.ledger, happening, self.may_be_lost);
        self.flushing.begin(&self.ledger);
        self.flushes.begin(&self.ledger)?;
        self.mints.begin(&self.ledger)?;
        Ok(())
    }

    /// Takes a note into account: the request for a flush that it sends, where that wasn't sent before.
    pub fn take(&mut self, alloc: Global, remark: &Remark) -> Result<Option<FlushRequest>, NoMemory>
        ensures new { IfOk result (λ new. (h : History) → IsEvidenceOf h self.old → new ≡ new_request h (remark_of remark.now)) }
        ensures taken { OnOk result ((t : Turn) (past : History) → IsEvidenceOf (t ∷ past) self.old → MayUse (t ∷ past) (remark_of remark.now)
            → IsEvidenceOf (noted (t ∷ past) (remark_of remark.now)) self.new) }
    {
        self.ledger.note(alloc, remark)?;
        self.may_be_lost = lost_by(remark, self.may_be_lost);
        self.flushes.note(remark)?;
        self.flushing.note(remark)?;
        self.mints.note(alloc, remark)?;
        let new = self.requests.note(remark)?;
        Ok(new)
    }

    /// Whether the effect of this call, where the one server answers it so, may be answered so.
    fn is_answer_right(&self, arrival: u64, reply: &Option<Reply>) -> bool
        ensures { (h : History) → IsEvidenceOf h self.now → (result ≡ true) ↔ HasSpaceIf h arrival reply.now }
    {
        match reply {
            Some(reply) => !is_no_space(reply) || self.mints.is_told(&self.ledger, arrival),
            None => true,
        }
    }

    /// Whether the note is no effect that the one server, which answers so, has no space for though the proxy wasn't told
    /// that no fileid is left.
    pub fn has_space(&self, remark: &Remark, reply: &Option<Reply>) -> bool
        ensures { (h : History) (v : volumes.Volume) → IsEvidenceOf h self.now → IsReplyOf reply.now h (remark_of remark.now) v → (result ≡ true) ↔ HasSpace v h (remark_of remark.now) }
    {
        match remark {
            Remark::Did { arrival, .. } => self.is_answer_right(*arrival, reply),
            _ => true,
        }
    }
}
