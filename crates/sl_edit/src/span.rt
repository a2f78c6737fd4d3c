//! Intervals of packets, and what is written into them.
ghost use Rattle.std.specs.Prelude.{◌≡◌, ◌≤◌, ℕ, List, is_some, length, IfOk, IfSome};
ghost use Rattle.sl_defs.specs.Items.{Gives, u32_text, u64_text};
ghost use Rattle.sl_edit.specs.Edits.{Edited, IsOrdered, IsWithin, bytes_if, spliced};
ghost use Rattle.sl_edit.specs.Spans as spans;

use sl_xdr::{Cursor, Short};

/// An interval of a packet: from a place up to another, in bytes from the packet's front.
#[derive(Clone, Copy, Debug, PartialEq, Eq)]
pub struct Span {
    pub from: usize,
    pub to: usize,
}

/// The interval of so many bytes where this rest of the packet begins, if they are all there.
#[tactic(auto, unfolding(crate::specs::Spans::span_of))]
pub(crate) fn span_of(packet: &[u8], rest: &[u8], size: usize) -> Result<Span, Short>
    ensures exact { Gives (λ s. s) result (spans.span_of packet.now rest.now size) }
    ensures inside { IfOk result (IsWithin packet.now size) }
{
    let from = packet.len().saturating_sub(rest.len());
    if packet.len() - from < size {
        return Err(Short);
    }
    let to = from + size;
    Ok(Span { from, to })
}

/// The bytes of the handle whose item begins here.
#[tactic(auto, unfolding(crate::specs::Spans::fh_span, sl_items::specs::Reading::fh_at))]
pub(crate) fn fh_span(packet: &[u8], item: &[u8]) -> Result<Span, Short>
    ensures exact { Gives (λ s. s) result (spans.fh_span packet.now item.now) }
    ensures inside { IfOk result (IsOrdered packet.now) }
{
    let mut number = Cursor::new(item);
    number.take_u32()?;
    let fh = Cursor::new(item).opaque(64)?;
    span_of(packet, number.rest(), fh.len())
}

/// Writes the text into the interval.
pub(crate) fn put_at(packet: &mut [u8], span: Span, text: &[u8])
    requires fits { IsWithin packet.old (length text.now) span }
    ensures { packet.new ≡ spliced packet.old span text.now }
{
    packet[span.from..span.to].copy_from_slice(text);
}

/// Writes the text into the interval, if there is one, and says whether there is.
pub(crate) fn put(packet: &mut [u8], span: Option<Span>, text: &[u8]) -> bool
    requires fits { IfSome span (λ s. IsWithin packet.old (length text.now) s) }
    ensures edited { Edited span text.now packet.old packet.new }
    ensures done { result ≡ is_some span }
{
    match span {
        Some(span) => {
            put_at(packet, span, text);
            true
        }
        None => false,
    }
}

/// Writes a number of four bytes into the interval, if there is one.
#[tactic(auto, unfolding(sl_defs::specs::Items::u32_text))]
pub(crate) fn put_u32(packet: &mut [u8], span: Option<Span>, n: u32) -> bool
    requires fits { IfSome span (IsWithin packet.old 4) }
    ensures edited { Edited span (u32_text n) packet.old packet.new }
    ensures done { result ≡ is_some span }
{
    put(packet, span, &n.to_be_bytes())
}

/// The same of eight bytes.
#[tactic(auto, unfolding(sl_defs::specs::Items::u64_text))]
pub(crate) fn put_u64(packet: &mut [u8], span: Option<Span>, n: u64) -> bool
    requires fits { IfSome span (IsWithin packet.old 8) }
    ensures edited { Edited span (u64_text n) packet.old packet.new }
    ensures done { result ≡ is_some span }
{
    put(packet, span, &n.to_be_bytes())
}

fn seek_xid(packet: &[u8]) -> Result<Span, Short>
    ensures exact { Gives (λ s. s) result (spans.xid_span packet.now) }
    ensures inside { IfOk result (IsWithin packet.now 4) }
{
    span_of(packet, packet, 4)
}

/// The xid.
pub(crate) fn xid_span(packet: &[u8]) -> Option<Span>
    ensures exact { result ≡ spans.xid_span packet.now }
    ensures inside { IfSome result (IsWithin packet.now 4) }
{
    seek_xid(packet).ok()
}

/// The interval, if it is so many bytes long.
pub(crate) fn sized(size: usize, span: Option<Span>) -> Option<Span>
    requires { IfSome span (λ s. s.from ≤ s.to) }
    ensures exact { result ≡ spans.sized size span }
    ensures inside { (packet : List ℕ) → IfSome span (IsOrdered packet) → IfSome result (IsWithin packet size) }
{
    match span {
        Some(span) if span.to - span.from == size => Some(span),
        _ => None,
    }
}

/// The bytes of the interval, if there is one.
pub(crate) fn show(packet: &[u8], span: Option<Span>) -> Option<&[u8]>
    requires { IfSome span (IsOrdered packet.now) }
    ensures variant { is_some result ≡ is_some span }
    ensures value { IfSome result (λ bytes. bytes.now ≡ bytes_if packet.now span) }
{
    match span {
        Some(span) => Some(&packet[span.from..span.to]),
        None => None,
    }
}
