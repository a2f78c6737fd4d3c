//! What is known of the turns and notes so far.
ghost use Rattle.std.specs.Prelude.{◌≡◌, ◌↔◌, ◌∷◌, [], true, IfErr, IfOk, OnOk};
ghost use Rattle.sl_defs.specs.declared.setup.Time.{Time};
ghost use Rattle.sl_model.specs.Volume as volumes;
ghost use Rattle.sl_history.specs.Turns.{History, Turn, begun};
ghost use Rattle.sl_history.specs.Arrivals.{asked};
ghost use Rattle.sl_history.specs.Licensed.{IsFlush, IsRenewal, MayBeKept};
ghost use Rattle.sl_past.specs.Words.{happening_of, remark_of};
ghost use Rattle.sl_licence.specs.Crowds.{AreCrowdsOf};
ghost use Rattle.sl_licence.specs.Dockets.{IsDocketOf, IsDue, IsKeptRightly, Judges, MayCome, Notes, with_new};

use crate::alone::is_flushed_for;
use crate::asking::FlushRequest;
use crate::crowds::Crowds;
use crate::evidence::Evidence;
use crate::words::written_unstable;
use sl_datagram::Asked;
use sl_defs::{Choice, NoMemory};
use sl_ledger::{AuditFault, Ledger, serve};
use sl_past::{Happening, Remark};
use sl_plain::Volume;
use std::alloc::Global;

/// What the turns and notes so far show, and the one server's volume behind them.
#[derive(Drop)]
pub struct Docket {
    evidence: Evidence,
    volume: Volume,
}

/// One request more, where there is one.
fn push_new(requests: &mut Vec<FlushRequest>, new: Option<FlushRequest>) -> Result<(), AuditFault>
    ensures pushed { OnOk result (requests.new.items ≡ with_new requests.old.items new) }
    ensures stopped { IfErr result (λ fault. fault ≡ AuditFault.NoMemory) }
{
    match new {
        Some(request) => match requests.push(request) {
            Ok(()) => Ok(()),
            Err(_) => Err(AuditFault::NoMemory),
        },
        None => Ok(()),
    }
}

impl Docket {
    /// Nothing has happened yet, and this is the server's volume.
    pub fn new(alloc: Global, volume: Volume) -> Result<Docket, NoMemory>
        ensures { IfOk result (λ d. IsDocketOf volume [] d) }
    {
        let evidence = Evidence::new(alloc)?;
        Ok(Docket { evidence, volume })
    }

    /// What the history shows of its events, frames and calls.
    pub fn ledger(&self) -> &Ledger
        ensures { result.now ≡ self.now.evidence.ledger }
    {
        &self.evidence.ledger
    }

    /// A turn begins: nothing is noted of it yet.
    pub fn begin(&mut self, alloc: Global, happening: &Happening) -> Result<(), NoMemory>
        ensures { OnOk result ((start : volumes.Volume) (past : History) (moment : Time) → IsDocketOf start past self.old → IsDocketOf start (begun past (happening_of happening.now) moment) self.new) }
    {
        self.evidence.begin(alloc, happening)
    }

    /// A turn has ended. If many files have unstable writes then, the crowds know it.
    pub fn end(&self, alloc: Global, crowds: &mut Crowds) -> Result<(), NoMemory>
        ensures { OnOk result ((start : volumes.Volume) (t : Turn) (past : History) → IsDocketOf start (t ∷ past) self.now → AreCrowdsOf start past crowds.old → AreCrowdsOf start (t ∷ past) crowds.new) }
    {
        let newest = self.evidence.ledger.events();
        crowds.end(alloc, &self.evidence.flushing, &self.volume, newest)
    }

    /// Whether this is a new write verifier, greater than each before, and unstable writes may be lost.
    fn is_renewal(&self, verifier: u64) -> bool
        ensures { (start : volumes.Volume) (h : History) → IsDocketOf start h self.now → (result ≡ true) ↔ IsRenewal start h verifier }
    {
        self.volume.verifier() < verifier && self.evidence.may_be_lost
    }

    /// Whether the file has unstable writes, and a request for its flush is left.
    fn is_flush(&self, file: u64) -> bool
        ensures { (start : volumes.Volume) (h : History) → IsDocketOf start h self.now → (result ≡ true) ↔ IsFlush start h file }
    {
        self.volume.is_unstable(file) && self.evidence.flushes.has_one(file)
    }

    /// Whether the call of this event, which takes effect, may be kept if it is.
    fn may_be_kept(
        &self,
        alloc: Global,
        crowds: &Crowds,
        arrival: u64,
        choice: Choice,
    ) -> Result<bool, NoMemory>
        ensures { IfOk result (λ may. (start : volumes.Volume) (t : Turn) (past : History) → IsDocketOf start (t ∷ past) self.now → AreCrowdsOf start past crowds.now
            → (may ≡ true) ↔ IsKeptRightly start (t ∷ past) arrival choice (asked (t ∷ past) arrival)) }
    {
        match self.evidence.ledger.asked(arrival) {
            Some(asked) => self.is_keepable(alloc, crowds, arrival, choice, asked),
            None => Ok(false),
        }
    }

    /// Whether this call, which came in that event and takes effect, may be kept if it is.
    fn is_keepable(
        &self,
        alloc: Global,
        crowds: &Crowds,
        arrival: u64,
        choice: Choice,
        asked: &Asked,
    ) -> Result<bool, NoMemory>
        ensures { IfOk result (λ may. (start : volumes.Volume) (t : Turn) (past : History) → IsDocketOf start (t ∷ past) self.now → AreCrowdsOf start past crowds.now
            → (may ≡ true) ↔ MayBeKept start (t ∷ past) arrival choice asked.now.call) }
    {
        if !choice.kept {
            return Ok(true);
        }
        match written_unstable(&asked.call) {
            Some(file) => {
                let newest = self.evidence.ledger.events();
                let flushing = &self.evidence.flushing;
                crowds.had_many(alloc, flushing, &self.volume, newest, arrival, file)
            }
            None => Ok(true),
        }
    }

    /// Whether the note may stand here, as far as that follows without performing anything.
    fn may_come(&self, alloc: Global, crowds: &Crowds, remark: &Remark) -> Result<bool, NoMemory>
        ensures { IfOk result (λ may. (start : volumes.Volume) (t : Turn) (past : History) → IsDocketOf start (t ∷ past) self.now → AreCrowdsOf start past crowds.now
            → (may ≡ true) ↔ MayCome start (t ∷ past) (remark_of remark.now)) }
    {
        match remark {
            Remark::Verf(verifier) => Ok(self.is_renewal(*verifier)),
            Remark::Flush(file) => Ok(self.is_flush(*file)),
            Remark::Did {
                arrival,
                choice,
                ..
            } => self.may_be_kept(alloc, crowds, *arrival, *choice),
            _ => Ok(true),
        }
    }

    /// Whether the note may stand behind those before. The one server takes it.
    fn judge(&mut self, alloc: Global, crowds: &Crowds, remark: &Remark) -> Result<bool, AuditFault>
        ensures judges { Judges crowds.now self.old self.new (remark_of remark.now) result }
    {
        let Ok(may) = self.may_come(alloc, crowds, remark) else {
            return Err(AuditFault::NoMemory);
        };
        if !may {
            return Ok(false);
        }
        let reply = serve(alloc, &self.evidence.ledger, &mut self.volume, remark)?;
        Ok(self.evidence.has_space(remark, &reply))
    }

    /// Takes a note, where it may stand behind those before. Whether a flush may be asked for is judged as the turn ends:
    /// a new request is put with those that the turn has sent.
    pub fn note(
        &mut self,
        alloc: Global,
        crowds: &Crowds,
        remark: &Remark,
        wanted: &mut Vec<FlushRequest>,
    ) -> Result<bool, AuditFault>
        ensures notes { Notes crowds.now self.old self.new wanted.old.items wanted.new.items (remark_of remark.now) result }
    {
        let may = self.judge(alloc, crowds, remark)?;
        if !may {
            return Ok(false);
        }
        let Ok(new) = self.evidence.take(alloc, remark) else {
            return Err(AuditFault::NoMemory);
        };
        push_new(wanted, new)?;
        Ok(true)
    }

    /// Whether the flush may be asked for: the file has unstable writes, and it is flushed for that call.
    pub fn is_due(&self, alloc: Global, request: FlushRequest) -> Result<bool, NoMemory>
        ensures { IfOk result (λ due. (start : volumes.Volume) (h : History) → IsDocketOf start h self.now → (due ≡ true) ↔ IsDue start h request) }
    {
        if !self.volume.is_unstable(request.file) {
            return Ok(false);
        }
        let asked = self.evidence.ledger.asked(request.arrival);
        is_flushed_for(alloc, &self.volume, request.file, asked)
    }
}
