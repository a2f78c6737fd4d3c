//! Where the fields of a reply stand.
ghost use Rattle.std.specs.Prelude.{◌≡◌, ◌+◌, ◌≤◌, IfOk, IfSome};
ghost use Rattle.sl_defs.specs.Items.{Gives};
ghost use Rattle.sl_edit.specs.Edits.{IsOrdered, IsWithin};
ghost use Rattle.sl_edit.specs.Spans as spans;

use crate::layout::{Layout, layout_of};
use crate::span::{Span, fh_span, span_of};
use sl_items::{take_optional_fattr, take_time};
use sl_xdr::{Cursor, Short};

/// Passes this number.
#[tactic(auto, unfolding(crate::specs::Spans::word_at))]
fn pass(word: u32, cursor: &mut Cursor<'_>) -> Result<(), Short>
    ensures { Gives (λ u. cursor.new.rest) result (spans.word_at word cursor.old.rest) }
{
    if cursor.take_u32()? == word {
        Ok(())
    } else {
        Err(Short)
    }
}

/// A packet from its results on, if it is an accepted reply that was a success.
#[tactic(auto, unfolding(crate::specs::Spans::results_in))]
pub(crate) fn results_in(packet: &[u8]) -> Result<&[u8], Short>
    ensures { Gives (λ r. r.now) result (spans.results_in packet.now) }
{
    let mut cursor = Cursor::new(packet);
    cursor.take_u32()?;
    pass(1, &mut cursor)?;
    pass(0, &mut cursor)?;
    pass(0, &mut cursor)?;
    pass(0, &mut cursor)?;
    pass(0, &mut cursor)?;
    Ok(cursor.rest())
}

/// The results from behind the status on, if that is OK.
fn ok_in(results: &[u8]) -> Result<&[u8], Short>
    ensures { Gives (λ r. r.now) result (spans.word_at 0 results.now) }
{
    let mut cursor = Cursor::new(results);
    pass(0, &mut cursor)?;
    Ok(cursor.rest())
}

/// Passes attributes from before the call, which may be absent.
#[tactic(auto, unfolding(crate::specs::Spans::behind_pre_op, sl_replies::specs::Reading::wcc_attr_at, sl_defs::specs::Parts::optional_at, sl_defs::specs::Parts::part_at))]
fn pass_pre_op(cursor: &mut Cursor<'_>) -> Result<(), Short>
    ensures { Gives (λ u. cursor.new.rest) result (spans.behind_pre_op cursor.old.rest) }
{
    match cursor.take_u32()? {
        0 => Ok(()),
        1 => {
            cursor.take_u64()?;
            take_time(cursor)?;
            take_time(cursor)?;
            Ok(())
        }
        _ => Err(Short),
    }
}

/// Passes a handle, which may be absent.
#[tactic(auto, unfolding(crate::specs::Spans::behind_optional_handle, sl_items::specs::Reading::fh_at, sl_defs::specs::Parts::optional_at, sl_defs::specs::Parts::part_at))]
fn pass_optional_handle(cursor: &mut Cursor<'_>) -> Result<(), Short>
    ensures { Gives (λ u. cursor.new.rest) result (spans.behind_optional_handle cursor.old.rest) }
{
    match cursor.take_u32()? {
        0 => Ok(()),
        1 => {
            cursor.opaque(64)?;
            Ok(())
        }
        _ => Err(Short),
    }
}

/// Passes what stands before the object's attributes, and the flag that says that they are there.
#[tactic(auto, unfolding(crate::specs::Spans::attributes_from, crate::specs::Spans::behind_handle, sl_items::specs::Reading::fh_at))]
fn attributes_from(layout: Layout, ok: &[u8]) -> Result<&[u8], Short>
    ensures { Gives (λ r. r.now) result (spans.attributes_from layout ok.now) }
{
    let mut cursor = Cursor::new(ok);
    match layout {
        Layout::Bare => return Ok(ok),
        Layout::Flagged => {}
        Layout::Wcc => pass_pre_op(&mut cursor)?,
        Layout::Handle => {
            cursor.opaque(64)?;
        }
        Layout::OptionalHandle => pass_optional_handle(&mut cursor)?,
    }
    pass(1, &mut cursor)?;
    Ok(cursor.rest())
}

/// The layout of the results of a procedure that is about one object.
fn layout(procedure: u32) -> Result<Layout, Short>
    ensures { Gives (λ l. l) result (spans.layout_of procedure) }
{
    match layout_of(procedure) {
        Some(layout) => Ok(layout),
        None => Err(Short),
    }
}

/// The results of a procedure from the attributes of the object on.
#[tactic(auto, unfolding(crate::specs::Spans::attributes_in))]
fn attributes_in(procedure: u32, results: &[u8]) -> Result<&[u8], Short>
    ensures { Gives (λ r. r.now) result (spans.attributes_in procedure results.now) }
{
    let layout = layout(procedure)?;
    let ok = ok_in(results)?;
    attributes_from(layout, ok)
}

#[tactic(auto, unfolding(crate::specs::Spans::attributes_span))]
fn seek_attributes(procedure: u32, packet: &[u8]) -> Result<Span, Short>
    ensures exact { Gives (λ s. s) result (spans.attributes_span procedure packet.now) }
    ensures inside { IfOk result (IsWithin packet.now 84) }
{
    let results = results_in(packet)?;
    let attributes = attributes_in(procedure, results)?;
    span_of(packet, attributes, 84)
}

/// The attributes of the object that a reply is about.
pub(crate) fn attributes_span(procedure: u32, packet: &[u8]) -> Option<Span>
    ensures exact { result ≡ spans.attributes_span procedure packet.now }
    ensures inside { IfSome result (IsWithin packet.now 84) }
{
    seek_attributes(procedure, packet).ok()
}

/// Passes attributes that may be absent.
#[tactic(auto, unfolding(crate::specs::Spans::behind_post_op))]
fn pass_post_op(cursor: &mut Cursor<'_>) -> Result<(), Short>
    ensures { Gives (λ u. cursor.new.rest) result (spans.behind_post_op cursor.old.rest) }
{
    take_optional_fattr(cursor)?;
    Ok(())
}

/// Passes a number.
#[tactic(auto, unfolding(crate::specs::Spans::behind_u32))]
fn pass_u32(cursor: &mut Cursor<'_>) -> Result<(), Short>
    ensures { Gives (λ u. cursor.new.rest) result (spans.behind_u32 cursor.old.rest) }
{
    cursor.take_u32()?;
    Ok(())
}

/// Passes `wcc_data`.
#[tactic(auto, unfolding(crate::specs::Spans::behind_wcc))]
fn pass_wcc(cursor: &mut Cursor<'_>) -> Result<(), Short>
    ensures { Gives (λ u. cursor.new.rest) result (spans.behind_wcc cursor.old.rest) }
{
    pass_pre_op(cursor)?;
    pass_post_op(cursor)
}

/// The results of WRITE and COMMIT from the verifier on.
#[tactic(auto, unfolding(crate::specs::Spans::verifier_from))]
fn verifier_from(procedure: u32, ok: &[u8]) -> Result<&[u8], Short>
    ensures { Gives (λ r. r.now) result (spans.verifier_from procedure ok.now) }
{
    let mut cursor = Cursor::new(ok);
    match procedure {
        7 => {
            pass_wcc(&mut cursor)?;
            pass_u32(&mut cursor)?;
            pass_u32(&mut cursor)?;
            Ok(cursor.rest())
        }
        21 => {
            pass_wcc(&mut cursor)?;
            Ok(cursor.rest())
        }
        _ => Err(Short),
    }
}

#[tactic(auto, unfolding(crate::specs::Spans::verifier_in))]
fn verifier_in(procedure: u32, results: &[u8]) -> Result<&[u8], Short>
    ensures { Gives (λ r. r.now) result (spans.verifier_in procedure results.now) }
{
    let ok = ok_in(results)?;
    verifier_from(procedure, ok)
}

#[tactic(auto, unfolding(crate::specs::Spans::verifier_span))]
fn seek_verifier(procedure: u32, packet: &[u8]) -> Result<Span, Short>
    ensures exact { Gives (λ s. s) result (spans.verifier_span procedure packet.now) }
    ensures inside { IfOk result (IsWithin packet.now 8) }
{
    let results = results_in(packet)?;
    let verifier = verifier_in(procedure, results)?;
    span_of(packet, verifier, 8)
}

/// The write verifier of WRITE and COMMIT.
pub(crate) fn verifier_span(procedure: u32, packet: &[u8]) -> Option<Span>
    ensures exact { result ≡ spans.verifier_span procedure packet.now }
    ensures inside { IfSome result (IsWithin packet.now 8) }
{
    seek_verifier(procedure, packet).ok()
}

/// The last four bytes, where a listing has its end mark.
#[tactic(auto, unfolding(crate::specs::Spans::last_from))]
fn last_from(ok: &[u8]) -> Result<&[u8], Short>
    ensures { Gives (λ r. r.now) result (spans.last_from ok.now) }
{
    if ok.len() < 4 {
        return Err(Short);
    }
    let (_, last) = ok.split_at(ok.len() - 4);
    Ok(last)
}

/// The results of READ and of the listings from the end mark on.
#[tactic(auto, unfolding(crate::specs::Spans::eof_from))]
fn eof_from(procedure: u32, ok: &[u8]) -> Result<&[u8], Short>
    ensures { Gives (λ r. r.now) result (spans.eof_from procedure ok.now) }
{
    match procedure {
        6 => {
            let mut cursor = Cursor::new(ok);
            pass_post_op(&mut cursor)?;
            pass_u32(&mut cursor)?;
            Ok(cursor.rest())
        }
        16 => last_from(ok),
        17 => last_from(ok),
        _ => Err(Short),
    }
}

#[tactic(auto, unfolding(crate::specs::Spans::eof_in))]
fn eof_in(procedure: u32, results: &[u8]) -> Result<&[u8], Short>
    ensures { Gives (λ r. r.now) result (spans.eof_in procedure results.now) }
{
    let ok = ok_in(results)?;
    eof_from(procedure, ok)
}

#[tactic(auto, unfolding(crate::specs::Spans::eof_span))]
fn seek_eof(procedure: u32, packet: &[u8]) -> Result<Span, Short>
    ensures exact { Gives (λ s. s) result (spans.eof_span procedure packet.now) }
    ensures inside { IfOk result (IsWithin packet.now 4) }
{
    let results = results_in(packet)?;
    let eof = eof_in(procedure, results)?;
    span_of(packet, eof, 4)
}

/// The end mark of READ and of the listings.
pub(crate) fn eof_span(procedure: u32, packet: &[u8]) -> Option<Span>
    ensures exact { result ≡ spans.eof_span procedure packet.now }
    ensures inside { IfSome result (IsWithin packet.now 4) }
{
    seek_eof(procedure, packet).ok()
}

/// The results from the handle on that the call found or made.
#[tactic(auto, unfolding(crate::specs::Spans::object_from))]
fn object_from(layout: Layout, ok: &[u8]) -> Result<&[u8], Short>
    ensures { Gives (λ r. r.now) result (spans.object_from layout ok.now) }
{
    match layout {
        Layout::Handle => Ok(ok),
        Layout::OptionalHandle => {
            let mut cursor = Cursor::new(ok);
            pass(1, &mut cursor)?;
            Ok(cursor.rest())
        }
        _ => Err(Short),
    }
}

/// The last four bytes of a handle of 32.
fn keepers_within(handle: Span) -> Result<Span, Short>
    requires { handle.from ≤ handle.to }
    ensures exact { Gives (λ s. s) result (spans.keepers_within handle) }
    ensures inside { IfOk result (λ s. (s.to ≡ s.from + 4) × (s.to ≡ handle.to)) }
{
    if handle.to - handle.from != 32 {
        return Err(Short);
    }
    let from = handle.to - 4;
    let to = handle.to;
    Ok(Span { from, to })
}

/// The results of a procedure from the handle on that it found or made.
#[tactic(auto, unfolding(crate::specs::Spans::object_in))]
fn object_in(procedure: u32, results: &[u8]) -> Result<&[u8], Short>
    ensures { Gives (λ r. r.now) result (spans.object_in procedure results.now) }
{
    let layout = layout(procedure)?;
    let ok = ok_in(results)?;
    object_from(layout, ok)
}

#[tactic(auto, unfolding(crate::specs::Spans::keepers_span))]
fn seek_keepers(procedure: u32, packet: &[u8]) -> Result<Span, Short>
    ensures exact { Gives (λ s. s) result (spans.keepers_span procedure packet.now) }
    ensures inside { IfOk result (IsWithin packet.now 4) }
{
    let results = results_in(packet)?;
    let item = object_in(procedure, results)?;
    let handle = fh_span(packet, item)?;
    keepers_within(handle)
}

/// The last four bytes of the handle of 32 that the call found or made.
pub(crate) fn keepers_span(procedure: u32, packet: &[u8]) -> Option<Span>
    ensures exact { result ≡ spans.keepers_span procedure packet.now }
    ensures inside { IfSome result (IsWithin packet.now 4) }
{
    seek_keepers(procedure, packet).ok()
}
