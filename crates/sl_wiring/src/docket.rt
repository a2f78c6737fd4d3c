//! What is known of the turns and notes so far.
ghost use Rattle.std.specs.Prelude.{◌≡◌, ◌↔◌, [], ◌∷◌, true, IfErr, IfOk, OnOk, option_map};
ghost use Rattle.std.specs.Option.{option_copied};
ghost use Rattle.sl_defs.specs.Histories as histories;
ghost use Rattle.sl_defs.specs.declared.setup.Setup.{Setup};
ghost use Rattle.sl_defs.specs.declared.setup.Time.{Time};
ghost use Rattle.sl_model.specs.Volume as volumes;
ghost use Rattle.sl_history.specs.Turns as turns;
ghost use Rattle.sl_history.specs.Turns.{begun, noted};
ghost use Rattle.sl_history.specs.Frames.{named_number};
ghost use Rattle.sl_history.specs.Volumes.{after_note, volume_after};
ghost use Rattle.sl_history.specs.Licensed.{reaches};
ghost use Rattle.sl_history.specs.Wired.{IsFlying, granted_by};
ghost use Rattle.sl_past.specs.Words.{happening_of, remark_of};
ghost use Rattle.sl_ledger.specs.Ledgers.{IsLedgerOf};
ghost use Rattle.sl_ledger.specs.Stops.{StopsAtNote};
ghost use Rattle.sl_wiring.specs.Given.{AreGivenIn};
ghost use Rattle.sl_wiring.specs.Dockets.{IsActorOf, IsDocketOf, answered_by, arrival_of};

use crate::given::Given;
use sl_defs::{Event, NoMemory, Setup};
use sl_frames::{Body, Frame};
use sl_ledger::{AuditFault, Ledger, serve};
use sl_past::{Happening, Remark};
use sl_plain::Volume;
use std::alloc::Global;

/// A history so far: what it shows, the one server's volume, and what was given.
#[derive(Drop)]
pub struct Docket {
    pub setup: Setup,
    pub ledger: Ledger,
    /// The volume after the notes so far.
    pub volume: Volume,
    pub given: Given,
    /// Whose event the newest turn is: a frame is given to this actor, which was up, or it starts, which wasn't.
    pub actor: Option<u8>,
    /// The event in which the call arrived whose request is answered by the frame that the newest turn gives.
    pub answered: Option<u64>,
    /// The operation that the frame grants which the newest turn gives.
    pub granted: Option<u64>,
}

/// Whose event the newest turn is.
fn actor_of(ledger: &Ledger, happening: &Happening) -> Option<u8>
    ensures { (t : turns.Turn) (past : turns.History) → t.happening ≡ happening_of happening.now → IsLedgerOf (t ∷ past) ledger.now → IsActorOf past t result }
{
    if let Happening::Happens(Event::Start(started)) = happening {
        let actor = *started;
        return if ledger.was_up(actor) {
            None
        } else {
            Some(actor)
        };
    }
    match ledger.reached() {
        Some(frame) => Some(frame.to),
        None => None,
    }
}

/// The event in which the call of a request arrived.
fn arrival_of(request: Option<&Frame>) -> Option<u64>
    ensures { result ≡ option_map arrival_of (option_copied request.entry) }
{
    match request {
        Some(request) => Some(request.arrival),
        None => None,
    }
}

/// The event in which the call arrived whose request is answered by the frame that the newest turn gives.
fn answered_by(ledger: &Ledger) -> Option<u64>
    ensures { (past : turns.History) (happening : histories.Happening) (moment : Time) → IsLedgerOf (begun past happening moment) ledger.now → result ≡ answered_by past (reaches past (record { happening = happening; moment = moment; remarks = [] })) }
{
    let frame = ledger.reached()?;
    arrival_of(ledger.request(frame.fence, frame.tag))
}

/// The operation that the frame grants which the newest turn gives to an actor that was up.
fn granted_by(ledger: &Ledger) -> Option<u64>
    ensures { (t : turns.Turn) (past : turns.History) → IsLedgerOf (t ∷ past) ledger.now → result ≡ granted_by (reaches past t) }
{
    let frame = ledger.reached()?;
    match &frame.body {
        Body::Grant => Some(frame.op),
        _ => None,
    }
}

/// Takes the frame that the newest turn gives to an actor that was up.
fn take_given(ledger: &Ledger, given: &mut Given) -> Result<(), NoMemory>
    ensures { OnOk result ((t : turns.Turn) (past : turns.History) → IsLedgerOf (t ∷ past) ledger.now → AreGivenIn past given.old → AreGivenIn (t ∷ past) given.new) }
{
    match ledger.reached() {
        Some(frame) => given.take(frame),
        None => Ok(()),
    }
}

/// Lets the one server take a note behind those that the ledger knows.
fn follow(
    alloc: Global,
    ledger: &Ledger,
    volume: &mut Volume,
    remark: &Remark,
) -> Result<(), AuditFault>
    ensures follows { OnOk result ((start : volumes.Volume) (t : turns.Turn) (past : turns.History) → IsLedgerOf (t ∷ past) ledger.now → volume.old ≡ volume_after start (t ∷ past)
        → volume.new ≡ volume_after start (noted (t ∷ past) (remark_of remark.now))) }
    ensures serves { OnOk result ((h : turns.History) → IsLedgerOf h ledger.now → volume.new ≡ after_note h (remark_of remark.now) volume.old) }
    ensures stopped { IfErr result (λ fault. (h : turns.History) → IsLedgerOf h ledger.now → StopsAtNote fault volume.old h (remark_of remark.now)) }
{
    match serve(alloc, ledger, volume, remark) {
        Ok(_) => Ok(()),
        Err(fault) => Err(fault),
    }
}

impl Docket {
    /// Nothing has happened yet, and this is the server's volume.
    pub fn new(alloc: Global, setup: Setup, volume: Volume) -> Result<Docket, NoMemory>
        ensures { IfOk result (λ d. IsDocketOf setup volume [] d) }
    {
        let ledger = Ledger::new(alloc)?;
        Ok(Docket {
            setup,
            ledger,
            volume,
            given: Given::new(alloc),
            actor: None,
            answered: None,
            granted: None,
        })
    }

    /// Whether no frame is given, copied or lost by what happens next that isn't in flight.
    pub fn is_flying(&self, happening: &Happening) -> bool
        ensures { (h : turns.History) → IsLedgerOf h self.now.ledger → (result ≡ true) ↔ IsFlying h (named_number (happening_of happening.now)) }
    {
        match happening {
            Happening::Happens(Event::Give(number)) => self.ledger.is_flying(*number),
            Happening::Happens(Event::Copy(number)) => self.ledger.is_flying(*number),
            Happening::Happens(Event::Drop(number)) => self.ledger.is_flying(*number),
            _ => true,
        }
    }

    /// A turn begins: nothing is noted of it yet.
    pub fn begin(&mut self, alloc: Global, happening: &Happening) -> Result<(), NoMemory>
        ensures { OnOk result ((setup : Setup) (start : volumes.Volume) (past : turns.History) (moment : Time) → IsDocketOf setup start past self.old → IsDocketOf setup start (begun past (happening_of happening.now) moment) self.new) }
    {
        self.ledger.begin(alloc, happening)?;
        self.actor = actor_of(&self.ledger, happening);
        self.answered = answered_by(&self.ledger);
        self.granted = granted_by(&self.ledger);
        take_given(&self.ledger, &mut self.given)
    }

    /// Takes a note of the newest turn.
    pub fn take(&mut self, alloc: Global, remark: &Remark) -> Result<(), AuditFault>
        ensures taken { OnOk result ((setup : Setup) (start : volumes.Volume) (t : turns.Turn) (past : turns.History) → IsDocketOf setup start (t ∷ past) self.old → IsDocketOf setup start (noted (t ∷ past) (remark_of remark.now)) self.new) }
        ensures stopped { IfErr result (λ fault. (setup : Setup) (start : volumes.Volume) (h : turns.History) → IsDocketOf setup start h self.old → StopsAtNote fault (volume_after start h) h (remark_of remark.now)) }
    {
        follow(alloc, &self.ledger, &mut self.volume, remark)?;
        match self.ledger.note(alloc, remark) {
            Ok(()) => Ok(()),
            Err(_) => Err(AuditFault::NoMemory),
        }
    }

    /// The volume after a note that may be taken next.
    pub fn volume_after(&self, alloc: Global, remark: &Remark) -> Result<Volume, AuditFault>
        ensures after { IfOk result (λ after. (setup : Setup) (start : volumes.Volume) (h : turns.History) → IsDocketOf setup start h self.now → after ≡ after_note h (remark_of remark.now) (volume_after start h)) }
        ensures stopped { IfErr result (λ fault. (setup : Setup) (start : volumes.Volume) (h : turns.History) → IsDocketOf setup start h self.now → StopsAtNote fault (volume_after start h) h (remark_of remark.now)) }
    {
        let Ok(mut after) = self.volume.copy() else {
            return Err(AuditFault::NoMemory);
        };
        follow(alloc, &self.ledger, &mut after, remark)?;
        Ok(after)
    }
}
