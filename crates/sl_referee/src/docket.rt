//! What is known of the notes so far.
ghost use Rattle.std.specs.Prelude.{◌≡◌, ◌↔◌, ◌-◌, ◌&&◌, ◌++◌, ◌∷◌, [], not, true, false, Ok, Err, None, IfErr, IfOk, MatchOption, OnOk, Some, length, option_and_then, option_map, unwrap_or};
ghost use Rattle.std.specs.List.{slice_get};
ghost use Rattle.std.specs.Option.{option_copied};
ghost use Rattle.sl_defs.specs.Histories.{Happens};
ghost use Rattle.sl_defs.specs.declared.setup.Time.{Time};
ghost use Rattle.sl_model.specs.Volume as volumes;
ghost use Rattle.sl_history.specs.Turns as turns;
ghost use Rattle.sl_history.specs.Turns.{Did, Down, Replied};
ghost use Rattle.sl_history.specs.Frames.{is_down};
ghost use Rattle.sl_history.specs.Arrivals as arrivals;
ghost use Rattle.sl_history.specs.Legal.{IsDrop, IsReplyIf, MayNote, datagram_in};
ghost use Rattle.sl_past.specs.Words.{happening_of, remark_of};
ghost use Rattle.sl_datagram.specs.Datagrams.{asked_of, datagram_of};
ghost use Rattle.sl_referee.specs.Cases.{IsIdle};
ghost use Rattle.sl_history.specs.Deciding.{Says};
ghost use Rattle.sl_referee.specs.Dockets.{IsDocketOf, IsSetAt, with_drop, with_effect, with_reply};
ghost use Rattle.sl_history.specs.Turns.{begun, noted};
ghost use Rattle.sl_referee.specs.Notes.{IsEventBegun, IsNewCase, Notes, NotesDrop};
ghost use Rattle.sl_referee.specs.Stops.{StopsBy};

use crate::case::{Answer, Case};
use crate::effects::take_effect;
use crate::fault::RefereeFault;
use crate::replies::{is_at_once, is_look, is_of_effect};
use crate::turns::is_proxy_up;
use sl_datagram::{Asked, Datagram, is_changing, read_datagram};
use sl_defs::{Choice, Event, Time};
use sl_past::{Happening, Remark};
use sl_plain::Volume;
use std::alloc::Global;

/// The cases of all events so far, and the one server's volume.
#[derive(Drop)]
pub struct Docket {
    /// By the numbers of the events. The first is of none: events are numbered from 1.
    cases: Vec<Case>,
    /// The volume after the notes so far.
    volume: Volume,
    /// The volumes at the ends of all events but the newest, by their numbers.
    ends: Vec<Volume>,
    is_proxy_up: bool,
    /// Whether the newest turn is an event.
    is_event: bool,
}

/// The case of no event.
fn no_case() -> Case
    ensures datagram { result.datagram ≡ None }
    ensures effect { result.effect ≡ None }
    ensures replied { result.replied ≡ false }
{
    Case {
        moment: Time { sec: 0, nsec: 0 },
        datagram: None,
        dropped: false,
        effect: None,
        replied: false,
    }
}

/// Whether the proxy, which was up or wasn't, is up when this actor went down.
fn stays_up(was: bool, actor: u8) -> bool
    ensures { result ≡ (was && not (is_down 0 (Down actor))) }
{
    was && actor != 0
}

/// The case of an event of this number.
fn case_at(cases: &[Case], event: u64) -> Option<&Case>
    ensures { option_copied result ≡ slice_get cases.now event }
{
    cases.get(event as usize)
}

/// The volume at the end of an event, of which the newest may still be running.
fn volume_at<'a>(ends: &'a [Volume], volume: &'a Volume, event: u64) -> &'a Volume
    ensures { result.now ≡ unwrap_or (slice_get ends.now event) volume.now }
{
    match ends.get(event as usize) {
        Some(end) => end,
        None => volume,
    }
}

/// Notes what the call's effect answers.
fn set_effect(cases: &mut [Case], arrival: u64, answer: Answer)
    ensures { IsSetAt cases.old cases.new arrival (with_effect answer) }
{
    let place = arrival as usize;
    if place < cases.len() {
        cases[place].effect = Some(answer);
    }
}

/// Notes that the call has its reply.
fn set_replied(cases: &mut [Case], arrival: u64)
    ensures { IsSetAt cases.old cases.new arrival with_reply }
{
    let place = arrival as usize;
    if place < cases.len() {
        cases[place].replied = true;
    }
}

/// Notes that the datagram is dropped.
fn set_dropped(cases: &mut [Case], arrival: u64)
    ensures { IsSetAt cases.old cases.new arrival with_drop }
{
    let place = arrival as usize;
    if place < cases.len() {
        cases[place].dropped = true;
    }
}

/// Whether the datagram of the case may be dropped: it has neither an effect nor a reply.
fn is_idle(case: Option<&Case>) -> bool
    ensures { (result ≡ true) ↔ IsIdle (option_copied case.entry) }
{
    match case {
        Some(case) => case.effect.is_none() && !case.replied,
        None => true,
    }
}

/// What the call of the case asks, where a call arrived that asks something of the server.
fn asked_by(case: &Case) -> Option<&Asked>
    ensures { MatchOption (option_copied result) (option_and_then arrivals.asked_in (option_map datagram_of case.now.datagram) ≡ None)
        (λ a. option_map datagram_of case.now.datagram ≡ Some (arrivals.IsAsked (asked_of a))) }
{
    match &case.datagram {
        Some(Datagram::Asked(asked)) => Some(asked),
        Some(Datagram::Junk | Datagram::Answered(_)) | None => None,
    }
}

/// What the event's datagram is, where it brings one.
fn arrived(alloc: Global, event: &Event) -> Result<Option<Datagram>, RefereeFault>
    ensures arrived { IfOk result (λ d. option_map datagram_of d ≡ option_map arrivals.datagram (turns.datagram_of (Happens event.now))) }
    ensures stopped { IfErr result (λ fault. fault ≡ RefereeFault.NoMemory) }
{
    let Event::Call { datagram, .. } = event else {
        return Ok(None);
    };
    match read_datagram(alloc, datagram.as_slice()) {
        Ok(datagram) => Ok(Some(datagram)),
        Err(_) => Err(RefereeFault::NoMemory),
    }
}

/// The case of an event that begins.
fn new_case(alloc: Global, event: &Event, moment: Time) -> Result<Case, RefereeFault>
    ensures new { IfOk result (IsNewCase event.now moment) }
    ensures stopped { IfErr result (λ fault. fault ≡ RefereeFault.NoMemory) }
{
    let datagram = arrived(alloc, event)?;
    Ok(Case {
        moment,
        datagram,
        dropped: false,
        effect: None,
        replied: false,
    })
}

/// One case more.
fn push_case(cases: &mut Vec<Case>, case: Case) -> Result<(), RefereeFault>
    ensures pushed { OnOk result (cases.new.items ≡ cases.old.items ++ case ∷ []) }
    ensures stopped { IfErr result (λ fault. fault ≡ RefereeFault.NoMemory) }
{
    match cases.push(case) {
        Ok(()) => Ok(()),
        Err(_) => Err(RefereeFault::NoMemory),
    }
}

/// One volume more, a copy.
fn push_end(ends: &mut Vec<Volume>, volume: &Volume) -> Result<(), RefereeFault>
    ensures pushed { OnOk result (ends.new.items ≡ ends.old.items ++ volume.now ∷ []) }
    ensures stopped { IfErr result (λ fault. fault ≡ RefereeFault.NoMemory) }
{
    let Ok(end) = volume.copy() else {
        return Err(RefereeFault::NoMemory);
    };
    match ends.push(end) {
        Ok(()) => Ok(()),
        Err(_) => Err(RefereeFault::NoMemory),
    }
}

impl Docket {
    /// Nothing has happened yet, and this is the server's volume.
    pub fn new(alloc: Global, volume: Volume) -> Result<Docket, RefereeFault>
        ensures begins { IfOk result (λ d. IsDocketOf volume [] d) }
        ensures stopped { IfErr result (λ fault. fault ≡ RefereeFault.NoMemory) }
    {
        let mut cases = Vec::new(alloc);
        push_case(&mut cases, no_case())?;
        Ok(Docket {
            cases,
            volume,
            ends: Vec::new(alloc),
            is_proxy_up: false,
            is_event: false,
        })
    }

    /// Whether the proxy is up.
    pub fn is_proxy_up(&self) -> bool
        ensures { result ≡ self.now.is_proxy_up }
    {
        self.is_proxy_up
    }

    /// The number of the newest event, 0 where there is none.
    pub fn newest(&self) -> u64
        ensures { result ≡ length self.now.cases.items - 1 }
    {
        (self.cases.len() as u64).saturating_sub(1)
    }

    /// A turn begins: nothing is noted of it yet.
    pub fn begin(
        &mut self,
        alloc: Global,
        happening: &Happening,
        moment: Time,
    ) -> Result<(), RefereeFault>
        ensures begins { OnOk result ((start : volumes.Volume) (past : turns.History) → IsDocketOf start past self.old → IsDocketOf start (begun past (happening_of happening.now) moment) self.new) }
        ensures stopped { IfErr result (λ fault. fault ≡ RefereeFault.NoMemory) }
    {
        self.is_proxy_up = is_proxy_up(happening, self.is_proxy_up);
        self.is_event = false;
        if let Happening::Happens(event) = happening {
            self.is_event = true;
            return self.begin_event(alloc, event, moment);
        }
        Ok(())
    }

    /// An event begins, and the one before it has ended.
    fn begin_event(
        &mut self,
        alloc: Global,
        event: &Event,
        moment: Time,
    ) -> Result<(), RefereeFault>
        ensures begins { OnOk result (IsEventBegun event.now moment self.old self.new) }
        ensures stopped { IfErr result (λ fault. fault ≡ RefereeFault.NoMemory) }
    {
        push_end(&mut self.ends, &self.volume)?;
        let case = new_case(alloc, event, moment)?;
        push_case(&mut self.cases, case)
    }

    /// Takes a note, where it may stand behind those before.
    pub fn note(&mut self, alloc: Global, now: Time, remark: &Remark) -> Result<bool, RefereeFault>
        ensures notes { Notes self.old self.new now (remark_of remark.now) result }
    {
        match remark {
            Remark::Did {
                arrival,
                at,
                choice,
            } => self.note_effect(alloc, now, *arrival, *at, *choice),
            Remark::Replied {
                arrival,
                event,
                bytes,
            } => self.note_reply(alloc, now, *arrival, *event, bytes.as_slice()),
            Remark::Junk(arrival) => Ok(self.note_drop(*arrival)),
            Remark::Early(arrival) => Ok(self.note_drop(*arrival)),
            Remark::Full(arrival) => Ok(self.note_drop(*arrival)),
            Remark::Lost(arrival) => Ok(self.note_drop(*arrival)),
            Remark::Flush(file) => self.note_flush(*file),
            Remark::Verf(verifier) => {
                self.volume.restart(alloc, *verifier);
                Ok(true)
            }
            Remark::Down(actor) => {
                self.is_proxy_up = stays_up(self.is_proxy_up, *actor);
                Ok(true)
            }
            Remark::Sent { .. } => Ok(true),
        }
    }

    /// A call takes effect.
    fn note_effect(
        &mut self,
        alloc: Global,
        now: Time,
        arrival: u64,
        at: Time,
        choice: Choice,
    ) -> Result<bool, RefereeFault>
        ensures notes { Notes self.old self.new now (Did arrival at choice) result }
    {
        let Some(case) = case_at(self.cases.as_slice(), arrival) else {
            return Ok(false);
        };
        let call = asked_by(case);
        let Some(asked) = call else {
            return Ok(false);
        };
        let taken = take_effect(alloc, case, asked, &mut self.volume, now, at, choice)?;
        let Some(bytes) = taken else {
            return Ok(false);
        };
        let event = self.newest();
        set_effect(&mut self.cases, arrival, Answer { event, bytes });
        Ok(true)
    }

    /// Whether these bytes are the reply to the datagram of the case, which has none yet.
    fn is_reply(
        &self,
        alloc: Global,
        case: &Case,
        now: Time,
        arrival: u64,
        event: u64,
        bytes: &[u8],
    ) -> Result<bool, RefereeFault>
        ensures decides { (start : volumes.Volume) (h : turns.History) → IsDocketOf start h self.now → slice_get self.now.cases.items arrival ≡ Some case.now
            → Says result (IsReplyIf start h now arrival event bytes.now (datagram_in (turns.turn_of h arrival))) }
        ensures stopped { (start : volumes.Volume) (h : turns.History) → IsDocketOf start h self.now → slice_get self.now.cases.items arrival ≡ Some case.now
            → IfErr result (λ fault. StopsBy fault start h now (Replied arrival event bytes.now)) }
    {
        let Some(datagram) = &case.datagram else {
            return Ok(false);
        };
        match datagram {
            Datagram::Junk => Ok(false),
            Datagram::Answered(answer) => {
                let newest = self.newest();
                Ok(is_at_once(
                    self.is_proxy_up,
                    newest,
                    arrival,
                    event,
                    bytes,
                    answer.as_slice(),
                ))
            }
            Datagram::Asked(asked) => {
                self.is_answer(alloc, case, asked, now, arrival, event, bytes)
            }
        }
    }

    /// Whether these bytes are the reply to the call of the case.
    fn is_answer(
        &self,
        alloc: Global,
        case: &Case,
        asked: &Asked,
        now: Time,
        arrival: u64,
        event: u64,
        bytes: &[u8],
    ) -> Result<bool, RefereeFault>
        ensures decides { option_map datagram_of case.now.datagram ≡ Some (arrivals.IsAsked (asked_of asked.now)) → (start : volumes.Volume) (h : turns.History)
            → IsDocketOf start h self.now → slice_get self.now.cases.items arrival ≡ Some case.now
            → Says result (IsReplyIf start h now arrival event bytes.now (datagram_in (turns.turn_of h arrival))) }
        ensures stopped { option_map datagram_of case.now.datagram ≡ Some (arrivals.IsAsked (asked_of asked.now)) → (start : volumes.Volume) (h : turns.History)
            → IsDocketOf start h self.now → slice_get self.now.cases.items arrival ≡ Some case.now
            → IfErr result (λ fault. StopsBy fault start h now (Replied arrival event bytes.now)) }
    {
        if is_changing(&asked.call) {
            return Ok(is_of_effect(event, bytes, case.effect.as_ref()));
        }
        let end = volume_at(self.ends.as_slice(), &self.volume, event);
        let newest = self.newest();
        is_look(alloc, case, asked, end, now, arrival, event, newest, bytes)
    }

    /// A datagram is replied to.
    fn note_reply(
        &mut self,
        alloc: Global,
        now: Time,
        arrival: u64,
        event: u64,
        bytes: &[u8],
    ) -> Result<bool, RefereeFault>
        ensures notes { Notes self.old self.new now (Replied arrival event bytes.now) result }
    {
        let Some(case) = case_at(self.cases.as_slice(), arrival) else {
            return Ok(false);
        };
        if case.replied {
            return Ok(false);
        }
        let right = self.is_reply(alloc, case, now, arrival, event, bytes)?;
        if !right {
            return Ok(false);
        }
        set_replied(&mut self.cases, arrival);
        Ok(true)
    }

    /// A datagram is dropped. Only a note of its own event counts later.
    fn note_drop(&mut self, arrival: u64) -> bool
        ensures notes { NotesDrop self.old self.new arrival result }
    {
        if !is_idle(case_at(self.cases.as_slice(), arrival)) {
            return false;
        }
        if self.is_event && arrival == self.newest() {
            set_dropped(&mut self.cases, arrival);
        }
        true
    }

    /// A file's unstable writes become stable.
    fn note_flush(&mut self, file: u64) -> Result<bool, RefereeFault>
        ensures flushed { IfOk result (λ b. (b ≡ true) × (self.new ≡ record self.old { volume = volumes.flush file self.old.volume })) }
        ensures stopped { IfErr result (λ fault. fault ≡ RefereeFault.NoMemory) }
    {
        match self.volume.flush(file) {
            Ok(()) => Ok(true),
            Err(_) => Err(RefereeFault::NoMemory),
        }
    }
}
