//! What is known of the turns and notes so far.
ghost use Rattle.std.specs.Prelude.{◌≡◌, ◌↔◌, ◌∷◌, [], true, IfOk, OnOk, option_map};
ghost use Rattle.std.specs.Option.{option_copied};
ghost use Rattle.sl_defs.specs.declared.setup.Time.{Time};
ghost use Rattle.sl_history.specs.Turns.{History, Sent, Turn, begun, events, noted};
ghost use Rattle.sl_history.specs.Turns as turns;
ghost use Rattle.sl_history.specs.Frames.{frame, hello_in, in_flight, is_up, last_hello, last_verf, or_else};
ghost use Rattle.sl_history.specs.Arrivals.{asked, waiting};
ghost use Rattle.sl_history.specs.Arrivals as arrivals;
ghost use Rattle.sl_history.specs.Licensed.{reaches, request};
ghost use Rattle.sl_history.specs.Wired.{frames, given_event};
ghost use Rattle.sl_history.specs.Completing.{NothingFlies};
ghost use Rattle.sl_past.specs.Words.{happening_of, remark_of};
ghost use Rattle.sl_datagram.specs.Datagrams.{asked_of, datagram_of};
ghost use Rattle.sl_ledger.specs.Ledgers.{IsLedgerOf};

use crate::actors::Actors;
use crate::arrivals::Arrivals;
use crate::sent::SentFrames;
use sl_datagram::{Asked, Datagram};
use sl_defs::NoMemory;
use sl_frames::{Body, Frame};
use sl_past::{Happening, Remark};
use std::alloc::Global;

/// What a history shows so far. It is of the history that it was given, turn by turn and note by note.
#[derive(Drop)]
pub struct Ledger {
    arrivals: Arrivals,
    sent: SentFrames,
    up: Actors,
    /// Who was up as the newest turn began.
    was_up: Actors,
    last_hello: Option<u64>,
    last_verf: Option<u64>,
}

/// The fence under which a frame says hello, if it does, else this one.
fn hello_or(frame: &Frame, last: Option<u64>) -> Option<u64>
    ensures { result ≡ or_else (hello_in frame.now frame.now.body) last }
{
    match frame.body {
        Body::Hello => Some(frame.fence),
        _ => last,
    }
}

impl Ledger {
    /// Nothing has happened yet.
    pub fn new(alloc: Global) -> Result<Ledger, NoMemory>
        ensures { IfOk result (λ l. IsLedgerOf [] l) }
    {
        Ok(Ledger {
            arrivals: Arrivals::new(alloc)?,
            sent: SentFrames::new(alloc),
            up: Actors::new(),
            was_up: Actors::new(),
            last_hello: None,
            last_verf: None,
        })
    }

    /// A turn begins: nothing is noted of it yet.
    pub fn begin(&mut self, alloc: Global, happening: &Happening) -> Result<(), NoMemory>
        ensures { OnOk result ((past : History) (moment : Time) → IsLedgerOf past self.old → IsLedgerOf (begun past (happening_of happening.now) moment) self.new) }
    {
        self.arrivals.begin(alloc, happening)?;
        self.sent.begin(happening);
        self.was_up = self.up;
        self.up.begin(happening);
        Ok(())
    }

    /// Takes a note of the newest turn.
    pub fn note(&mut self, alloc: Global, remark: &Remark) -> Result<(), NoMemory>
        ensures { OnOk result ((t : Turn) (past : History) → IsLedgerOf (t ∷ past) self.old → IsLedgerOf (noted (t ∷ past) (remark_of remark.now)) self.new) }
    {
        match remark {
            Remark::Sent { number, frame } => self.note_frame(*number, frame),
            Remark::Verf(verifier) => {
                self.last_verf = Some(*verifier);
                self.arrivals.forget();
                Ok(())
            }
            Remark::Replied { arrival, .. } => {
                self.arrivals.answer(*arrival);
                Ok(())
            }
            Remark::Junk(arrival) => {
                self.arrivals.turn_away(*arrival);
                Ok(())
            }
            Remark::Early(arrival) => {
                self.arrivals.turn_away(*arrival);
                Ok(())
            }
            Remark::Full(arrival) => {
                self.arrivals.turn_away(*arrival);
                Ok(())
            }
            Remark::Lost(arrival) => {
                self.arrivals.turn_away(*arrival);
                Ok(())
            }
            Remark::Down(actor) => {
                self.up.put(*actor, false);
                Ok(())
            }
            Remark::Did { .. } => Ok(()),
            Remark::Flush(_) => Ok(()),
        }
    }

    /// A frame is sent.
    fn note_frame(&mut self, number: u64, frame: &Frame) -> Result<(), NoMemory>
        ensures { OnOk result ((t : Turn) (past : History) → IsLedgerOf (t ∷ past) self.old → IsLedgerOf (noted (t ∷ past) (Sent number frame.now)) self.new) }
    {
        let Ok(copy) = frame.copy() else {
            return Err(NoMemory);
        };
        self.last_hello = hello_or(frame, self.last_hello);
        self.sent.send(number, copy, self.arrivals.events())
    }

    /// How many events there were: the number of the newest one.
    pub fn events(&self) -> u64
        ensures { (h : History) → IsLedgerOf h self.now → result ≡ events h }
    {
        self.arrivals.events()
    }

    /// Whether this actor is up.
    pub fn is_up(&self, actor: u8) -> bool
        ensures { (h : History) → IsLedgerOf h self.now → result ≡ is_up h actor }
    {
        self.up.has(actor)
    }

    /// Whether this actor was up as the newest turn began.
    pub fn was_up(&self, actor: u8) -> bool
        ensures { (t : Turn) (past : History) → IsLedgerOf (t ∷ past) self.now → result ≡ is_up past actor }
    {
        self.was_up.has(actor)
    }

    /// How many frames were sent.
    pub fn frames(&self) -> u64
        ensures { (h : History) → IsLedgerOf h self.now → result ≡ frames h }
    {
        self.sent.count() as u64
    }

    /// The frame of this number, where it was sent.
    pub fn frame(&self, number: u64) -> Option<&Frame>
        ensures { (h : History) → IsLedgerOf h self.now → option_copied result ≡ frame h number }
    {
        self.sent.frame(number)
    }

    /// Whether the frame of this number is in flight.
    pub fn is_flying(&self, number: u64) -> bool
        ensures { (h : History) → IsLedgerOf h self.now → result ≡ in_flight h number }
    {
        self.sent.is_flying(number)
    }

    /// Whether no frame is in flight.
    pub fn is_still(&self) -> bool
        ensures { (h : History) → IsLedgerOf h self.now → (result ≡ true) ↔ NothingFlies h }
    {
        self.sent.is_still()
    }

    /// The frame that the newest turn gives to an actor that was up then.
    pub fn reached(&self) -> Option<&Frame>
        ensures { (t : Turn) (past : History) → IsLedgerOf (t ∷ past) self.now → option_copied result ≡ reaches past t }
    {
        match self.sent.given() {
            Some(frame) => {
                if self.was_up(frame.to) {
                    Some(frame)
                } else {
                    None
                }
            }
            None => None,
        }
    }

    /// The event in which the frame was sent that the newest turn gives, whether its receiver was up or not.
    pub fn sent_in(&self) -> Option<u64>
        ensures { (t : Turn) (past : History) → IsLedgerOf (t ∷ past) self.now → result ≡ given_event past t.happening }
    {
        self.sent.given_event()
    }

    /// The first request that was sent under this fence and tag.
    pub fn request(&self, fence: u64, tag: u64) -> Option<&Frame>
        ensures { (h : History) → IsLedgerOf h self.now → option_copied result ≡ request h fence tag }
    {
        self.sent.request(fence, tag)
    }

    /// The fence of the last Hello that was sent.
    pub fn last_hello(&self) -> Option<u64>
        ensures { (h : History) → IsLedgerOf h self.now → result ≡ last_hello h }
    {
        self.last_hello
    }

    /// The last write verifier.
    pub fn last_verf(&self) -> Option<u64>
        ensures { (h : History) → IsLedgerOf h self.now → result ≡ last_verf h }
    {
        self.last_verf
    }

    /// The call that arrived in this event, where one did that asks something of the server.
    pub fn asked(&self, event: u64) -> Option<&Asked>
        ensures { (h : History) → IsLedgerOf h self.now → option_map asked_of (option_copied result) ≡ asked h event }
    {
        self.arrivals.asked(event)
    }

    /// What the datagram of the newest turn is, where one arrived.
    pub fn arrived(&self) -> Option<&Datagram>
        ensures { (t : Turn) (past : History) → IsLedgerOf (t ∷ past) self.now → option_map datagram_of (option_copied result) ≡ option_map arrivals.datagram (turns.datagram_of t.happening) }
    {
        self.arrivals.newest()
    }

    /// The calls that wait for their reply, by their events.
    pub fn waiting(&self) -> &[u64]
        ensures { (h : History) → IsLedgerOf h self.now → result.now ≡ waiting h }
    {
        self.arrivals.waiting()
    }
}
