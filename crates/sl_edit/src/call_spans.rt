//! Where the fields of a call stand.
ghost use Rattle.std.specs.Prelude.{◌≡◌, ◌≤◌, length, IfOk, IfSome};
ghost use Rattle.sl_defs.specs.Items.{Gives};
ghost use Rattle.sl_edit.specs.Cuts.{HasRoom};
ghost use Rattle.sl_edit.specs.Edits.{IsWithin, IsOrdered};
ghost use Rattle.sl_edit.specs.Spans as spans;

use crate::cuts::Content;
use crate::span::{Span, fh_span, span_of};
use sl_rpc::{Head, read_call};
use sl_xdr::{Cursor, Short};

const READ: u32 = 6;

const WRITE: u32 = 7;

/// A call's procedure, and the packet from its arguments on.
pub(crate) fn args_in(packet: &[u8]) -> Result<(u32, &[u8]), Short>
    ensures { Gives (λ a. (a.0, a.1.now)) result (spans.args_in packet.now) }
{
    match read_call(packet) {
        Head::Call {
            procedure,
            args,
            ..
        } => match packet.split_at_checked(args) {
            Some((_, rest)) => Ok((procedure, rest)),
            None => Err(Short),
        },
        _ => Err(Short),
    }
}

/// The arguments of RENAME from its second handle on.
#[tactic(auto, unfolding(sl_items::specs::Reading::fh_at, sl_items::specs::Reading::bytes_at))]
fn behind_entry(args: &[u8]) -> Result<&[u8], Short>
    ensures { Gives (λ r. r.now) result (spans.behind_entry args.now) }
{
    let mut cursor = Cursor::new(args);
    cursor.opaque(64)?;
    cursor.opaque(u32::MAX)?;
    Ok(cursor.rest())
}

/// The arguments from behind their first handle on.
#[tactic(auto, unfolding(sl_items::specs::Reading::fh_at))]
fn behind_handle(args: &[u8]) -> Result<&[u8], Short>
    ensures { Gives (λ r. r.now) result (spans.behind_handle args.now) }
{
    let mut cursor = Cursor::new(args);
    cursor.opaque(64)?;
    Ok(cursor.rest())
}

/// The arguments from the item of the i-th handle on, from 0.
#[tactic(auto, unfolding(crate::specs::Spans::handle_from, crate::specs::Spans::second_from))]
fn handle_from(i: u8, procedure: u32, args: &[u8]) -> Result<&[u8], Short>
    ensures { Gives (λ r. r.now) result (spans.handle_from i procedure args.now) }
{
    match i {
        0 => { if procedure == 0 { Err(Short) } else { Ok(args) } }
        1 => match procedure {
            14 => behind_entry(args),
            15 => behind_handle(args),
            _ => Err(Short),
        },
        _ => Err(Short),
    }
}

#[tactic(auto, unfolding(crate::specs::Spans::handle_span))]
fn seek_handle(i: u8, packet: &[u8]) -> Result<Span, Short>
    ensures exact { Gives (λ s. s) result (spans.handle_span i packet.now) }
    ensures inside { IfOk result (IsOrdered packet.now) }
{
    let (procedure, args) = args_in(packet)?;
    let item = handle_from(i, procedure, args)?;
    fh_span(packet, item)
}

/// The bytes of the i-th handle, from 0.
pub(crate) fn handle_span(i: u8, packet: &[u8]) -> Option<Span>
    ensures exact { result ≡ spans.handle_span i packet.now }
    ensures inside { IfSome result (IsOrdered packet.now) }
{
    seek_handle(i, packet).ok()
}

/// The arguments from the count on, which READ and WRITE have behind a handle and an offset.
#[tactic(auto, unfolding(crate::specs::Spans::behind_u64, sl_items::specs::Reading::fh_at))]
fn count_from(args: &[u8]) -> Result<&[u8], Short>
    ensures { Gives (λ r. r.now) result (spans.count_from args.now) }
{
    let mut cursor = Cursor::new(args);
    cursor.opaque(64)?;
    cursor.take_u64()?;
    Ok(cursor.rest())
}

#[tactic(auto, unfolding(crate::specs::Spans::count_span))]
fn seek_count(packet: &[u8]) -> Result<Span, Short>
    ensures exact { Gives (λ s. s) result (spans.count_span packet.now) }
    ensures inside { IfOk result (IsWithin packet.now 4) }
{
    let (procedure, args) = args_in(packet)?;
    if procedure != READ {
        return Err(Short);
    }
    let count = count_from(args)?;
    span_of(packet, count, 4)
}

/// The count of a READ.
pub(crate) fn count_span(packet: &[u8]) -> Option<Span>
    ensures exact { result ≡ spans.count_span packet.now }
    ensures inside { IfSome result (IsWithin packet.now 4) }
{
    seek_count(packet).ok()
}

/// What stands behind the count of a WRITE and `stable`.
#[tactic(auto, unfolding(crate::specs::Spans::behind_u32))]
fn behind_two(count: &[u8]) -> Result<&[u8], Short>
    ensures { Gives (λ r. r.now) result (spans.behind_two count.now) }
{
    let mut cursor = Cursor::new(count);
    cursor.take_u32()?;
    cursor.take_u32()?;
    Ok(cursor.rest())
}

/// Where a WRITE has its bytes, by the packet from its count on.
#[tactic(auto, unfolding(crate::specs::Spans::content_at, sl_items::specs::Reading::bytes_at))]
fn content_at(packet: &[u8], count: &[u8]) -> Result<Content, Short>
    ensures exact { Gives (λ c. c) result (spans.content_at packet.now count.now) }
    ensures inside { IfOk result (HasRoom packet.now) }
{
    let item = behind_two(count)?;
    let mut number = Cursor::new(item);
    number.take_u32()?;
    let len = Cursor::new(item).opaque(u32::MAX)?.len();
    let first = span_of(packet, count, 4)?;
    let second = span_of(packet, item, 4)?;
    let room = span_of(packet, number.rest(), len + (4 - len % 4) % 4)?;
    Ok(Content {
        count: first.from,
        number: second.from,
        bytes: room.from,
        len,
    })
}

#[tactic(auto, unfolding(crate::specs::Spans::content_in))]
fn seek_content(packet: &[u8]) -> Result<Content, Short>
    ensures exact { Gives (λ c. c) result (spans.content_in packet.now) }
    ensures inside { IfOk result (HasRoom packet.now) }
{
    let (procedure, args) = args_in(packet)?;
    if procedure != WRITE {
        return Err(Short);
    }
    let count = count_from(args)?;
    content_at(packet, count)
}

/// Where a WRITE has its bytes.
pub(crate) fn content_in(packet: &[u8]) -> Option<Content>
    ensures exact { result ≡ spans.content_in packet.now }
    ensures inside { IfSome result (HasRoom packet.now) }
{
    seek_content(packet).ok()
}
