//! The frames that were sent.
ghost use Rattle.std.specs.Prelude.{◌≡◌, ◌==◌, ◌↔◌, ◌∷◌, ◌&&◌, ◌||◌, ℕ, [], true, false, not, length, OnOk, option_and_then, option_map};
ghost use Rattle.std.specs.Option.{option_copied};
ghost use Rattle.std.specs.Ordering.{nat_cmp};
ghost use Rattle.std.specs.BTreeSet.{contains};
ghost use Rattle.sl_defs.specs.declared.setup.Time.{Time};
ghost use Rattle.sl_history.specs.Turns.{History, Sent, Turn, begun, events, noted};
ghost use Rattle.sl_history.specs.Frames as frames;
ghost use Rattle.sl_history.specs.Frames.{lands};
ghost use Rattle.sl_history.specs.Licensed as licensed;
ghost use Rattle.sl_past.specs.Words.{happening_of};
ghost use Rattle.sl_ledger.specs.Sending.{AreSentIn, event_at, event_in, frame_at, frame_in, is_from, is_number, place, request_place, sent_at, with_first, with_place};

use crate::lists::push;
use sl_defs::{Event, NoMemory};
use sl_frames::{Body, Frame};
use sl_past::Happening;
use std::alloc::Global;
use std::collections::{BTreeMap, BTreeSet};

/// A frame, and the event in which it was sent.
#[derive(Drop)]
pub(crate) struct SentFrame {
    pub(crate) frame: Frame,
    pub(crate) event: u64,
}

/// The frames that were sent, and which of them are in flight. A number may name several frames: of those that one turn
/// sends under it the first counts, and of several turns the newest.
#[derive(Drop)]
pub(crate) struct SentFrames {
    /// In the order in which they were sent.
    frames: Vec<SentFrame>,
    /// How many there were as the newest turn began.
    older: usize,
    /// Where the frame of a number stands.
    by_number: BTreeMap<u64, usize>,
    /// Where the first request under a fence and a tag stands.
    requests: BTreeMap<(u64, u64), usize>,
    /// The numbers of those that are in flight.
    flying: BTreeSet<u64>,
    /// Where the frame stands that the newest turn gives.
    given: Option<usize>,
}

/// The number of the frame that is given, where one is.
fn given_number(happening: &Happening) -> Option<u64>
    ensures { result ≡ frames.given_number (happening_of happening.now) }
{
    match happening {
        Happening::Happens(Event::Give(number)) => Some(*number),
        Happening::Happens(Event::Copy(number)) => Some(*number),
        _ => None,
    }
}

/// The number of the frame whose flight ends, where one does.
fn landed_number(happening: &Happening) -> Option<u64>
    ensures { (n : ℕ) → lands (happening_of happening.now) n ≡ is_number result n }
{
    match happening {
        Happening::Happens(Event::Give(number)) => Some(*number),
        Happening::Happens(Event::Drop(number)) => Some(*number),
        _ => None,
    }
}

/// Whether this asks for something that is told under its fence and tag.
fn is_request(body: &Body) -> bool
    ensures { result ≡ licensed.is_request body.now }
{
    matches!(
        body,
        Body::Forward { .. }
            | Body::Ask(_)
            | Body::List { .. }
            | Body::Mint { .. }
            | Body::Intent(_)
    )
}

/// What stands at this place, where it is one.
fn sent_at(frames: &[SentFrame], place: Option<usize>) -> Option<&SentFrame>
    ensures { option_copied result ≡ sent_at frames.now place }
{
    match place {
        Some(place) => frames.get(place),
        None => None,
    }
}

/// The frame alone.
fn frame_of(sent: Option<&SentFrame>) -> Option<&Frame>
    ensures { option_copied result ≡ option_map frame_in (option_copied sent.entry) }
{
    match sent {
        Some(sent) => Some(&sent.frame),
        None => None,
    }
}

/// The event alone.
fn event_of(sent: Option<&SentFrame>) -> Option<u64>
    ensures { result ≡ option_map event_in (option_copied sent.entry) }
{
    match sent {
        Some(sent) => Some(sent.event),
        None => None,
    }
}

/// Whether this is a place from the given one on.
fn is_from(older: usize, place: Option<usize>) -> bool
    ensures { result ≡ is_from older place }
{
    match place {
        Some(place) => older <= place,
        None => false,
    }
}

/// The frame of this number stands here, if the newest turn hasn't sent one under it before: its frames stand from `older` on.
fn note_number(
    by_number: &mut BTreeMap<u64, usize>,
    older: usize,
    number: u64,
    spot: usize,
) -> Result<(), NoMemory>
    ensures { OnOk result ((n : ℕ) → place by_number.new n ≡ with_place (number == n) older spot (place by_number.old n)) }
{
    if is_from(older, by_number.get(&number).copied()) {
        return Ok(());
    }
    match by_number.insert(number, spot) {
        Ok(_) => Ok(()),
        Err(_) => Err(NoMemory),
    }
}

/// A request under this fence and tag stands here, if it is the first one.
fn note_first(
    requests: &mut BTreeMap<(u64, u64), usize>,
    fence: u64,
    tag: u64,
    spot: usize,
) -> Result<(), NoMemory>
    ensures { OnOk result ((f g : ℕ) → request_place requests.new f g ≡ with_first (fence == f && tag == g) spot (request_place requests.old f g)) }
{
    if requests.contains_key(&(fence, tag)) {
        return Ok(());
    }
    match requests.insert((fence, tag), spot) {
        Ok(_) => Ok(()),
        Err(_) => Err(NoMemory),
    }
}

/// The frame stands here. Where it is a request, that may be the first one under its fence and tag.
fn note_request(
    requests: &mut BTreeMap<(u64, u64), usize>,
    frame: &Frame,
    spot: usize,
) -> Result<(), NoMemory>
    ensures { OnOk result ((f g : ℕ) → request_place requests.new f g ≡ with_first (licensed.is_request frame.now.body && (frame.now.fence == f && frame.now.tag == g)) spot (request_place requests.old f g)) }
{
    if !is_request(&frame.body) {
        return Ok(());
    }
    note_first(requests, frame.fence, frame.tag, spot)
}

/// A frame of this number is in flight.
fn fly(flying: &mut BTreeSet<u64>, number: u64) -> Result<(), NoMemory>
    ensures { OnOk result ((n : ℕ) → contains nat_cmp flying.new n ≡ (number == n || contains nat_cmp flying.old n)) }
{
    match flying.insert(number) {
        Ok(_) => Ok(()),
        Err(_) => Err(NoMemory),
    }
}

/// What happens may end a flight.
fn land(flying: &mut BTreeSet<u64>, happening: &Happening)
    ensures { (n : ℕ) → contains nat_cmp flying.new n ≡ (contains nat_cmp flying.old n && not (lands (happening_of happening.now) n)) }
{
    if let Some(number) = landed_number(happening) {
        flying.remove(&number);
    }
}

impl SentFrames {
    /// No frame was sent yet.
    pub(crate) fn new(alloc: Global) -> SentFrames
        ensures { AreSentIn [] result }
    {
        SentFrames {
            frames: Vec::new(alloc),
            older: 0,
            by_number: BTreeMap::new(alloc),
            requests: BTreeMap::new(alloc),
            flying: BTreeSet::new(alloc),
            given: None,
        }
    }

    /// How many were sent.
    pub(crate) fn count(&self) -> usize
        ensures { result ≡ length self.now.frames.items }
    {
        self.frames.len()
    }

    /// Where the frame of this number stands.
    fn place(&self, number: u64) -> Option<usize>
        ensures { result ≡ place self.now.by_number number }
    {
        self.by_number.get(&number).copied()
    }

    /// Where the first request under this fence and tag stands.
    fn place_of_request(&self, fence: u64, tag: u64) -> Option<usize>
        ensures { result ≡ request_place self.now.requests fence tag }
    {
        self.requests.get(&(fence, tag)).copied()
    }

    /// The frame of this number, where it was sent.
    pub(crate) fn frame(&self, number: u64) -> Option<&Frame>
        ensures { option_copied result ≡ frame_at self.now.frames.items (place self.now.by_number number) }
    {
        frame_of(sent_at(self.frames.as_slice(), self.place(number)))
    }

    /// The first request under this fence and tag.
    pub(crate) fn request(&self, fence: u64, tag: u64) -> Option<&Frame>
        ensures { option_copied result ≡ frame_at self.now.frames.items (request_place self.now.requests fence tag) }
    {
        frame_of(sent_at(self.frames.as_slice(), self.place_of_request(fence, tag)))
    }

    /// The frame that the newest turn gives.
    pub(crate) fn given(&self) -> Option<&Frame>
        ensures { option_copied result ≡ frame_at self.now.frames.items self.now.given }
    {
        frame_of(sent_at(self.frames.as_slice(), self.given))
    }

    /// The event in which that frame was sent.
    pub(crate) fn given_event(&self) -> Option<u64>
        ensures { result ≡ event_at self.now.frames.items self.now.given }
    {
        event_of(sent_at(self.frames.as_slice(), self.given))
    }

    /// Whether the frame of this number is in flight.
    pub(crate) fn is_flying(&self, number: u64) -> bool
        ensures { result ≡ contains nat_cmp self.now.flying number }
    {
        self.flying.contains(&number)
    }

    /// Whether no frame is in flight.
    pub(crate) fn is_still(&self) -> bool
        ensures { (result ≡ true) ↔ ((n : ℕ) → contains nat_cmp self.now.flying n ≡ false) }
    {
        self.flying.is_empty()
    }

    /// Where the frame stands that is given, if one is.
    fn place_given(&self, happening: &Happening) -> Option<usize>
        ensures { result ≡ option_and_then (place self.now.by_number) (frames.given_number (happening_of happening.now)) }
    {
        match given_number(happening) {
            Some(number) => self.place(number),
            None => None,
        }
    }

    /// A turn begins: a frame may be given or lost.
    pub(crate) fn begin(&mut self, happening: &Happening)
        ensures { (past : History) (moment : Time) → AreSentIn past self.old → AreSentIn (begun past (happening_of happening.now) moment) self.new }
    {
        self.older = self.count();
        self.given = self.place_given(happening);
        land(&mut self.flying, happening);
    }

    /// A frame is sent under this number, in this event.
    pub(crate) fn send(&mut self, number: u64, frame: Frame, event: u64) -> Result<(), NoMemory>
        ensures { OnOk result ((t : Turn) (past : History) → AreSentIn (t ∷ past) self.old → event ≡ events (t ∷ past) → AreSentIn (noted (t ∷ past) (Sent number frame)) self.new) }
    {
        let place = self.count();
        note_request(&mut self.requests, &frame, place)?;
        note_number(&mut self.by_number, self.older, number, place)?;
        fly(&mut self.flying, number)?;
        push(&mut self.frames, SentFrame { frame, event })
    }
}
