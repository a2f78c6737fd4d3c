//! Calls and replies edited in place, on the bytes of their packets.
//!
//! What `CallView` and `ReplyView` do to the packet that they borrow, each function here does to a packet by itself. So a
//! caller who keeps the packet, and no view of it, knows what it is afterwards. None of them takes memory.
ghost use Rattle.std.specs.Prelude.{◌≡◌, ◌↔◌, [], ◌∷◌, is_some, length, true, IfSome};
ghost use Rattle.sl_defs.specs.Items.{u32_text, u64_text};
ghost use Rattle.sl_items.specs.Spelling.{fattr_text};
ghost use Rattle.sl_xdr.specs.Reading.{number_of_flag};
ghost use Rattle.sl_edit.specs.Cuts.{IsCut};
ghost use Rattle.sl_edit.specs.Edits.{Edited, bytes_if};
ghost use Rattle.sl_edit.specs.Packets.{IsCall, IsReply};
ghost use Rattle.sl_edit.specs.Spans as spans;

use crate::call_spans::{args_in, content_in, count_span, handle_span};
use crate::cuts::cut;
use crate::reply_spans::{attributes_span, eof_span, keepers_span, results_in, verifier_span};
use crate::span::{put, put_u32, put_u64, show, sized, xid_span};
use crate::words::fattr_bytes;
use sl_calls::has_args;
use sl_types::Fattr;
use sl_xdr::Short;

/// Whether the packet is a call that its header doesn't refuse, with readable arguments.
pub fn is_call(packet: &[u8]) -> bool
    ensures { (result ≡ true) ↔ IsCall packet.now }
{
    match args_in(packet) {
        Ok((procedure, args)) => has_args(procedure, args),
        Err(Short) => false,
    }
}

/// Whether the packet is an accepted reply that was a success, with results of this procedure.
pub fn is_reply(packet: &[u8], procedure: u32) -> bool
    ensures { (result ≡ true) ↔ IsReply procedure packet.now }
{
    match results_in(packet) {
        Ok(results) => sl_replies::is_reply(procedure, results),
        Err(Short) => false,
    }
}

/// Writes the xid. False exactly where the packet has no four bytes.
pub fn set_xid(packet: &mut [u8], xid: u32) -> bool
    ensures edited { Edited (spans.xid_span packet.old) (u32_text xid) packet.old packet.new }
    ensures done { result ≡ is_some (spans.xid_span packet.old) }
{
    let span = xid_span(packet);
    put_u32(packet, span, xid)
}

/// The bytes of a call's i-th handle, in the order of the arguments, from 0. None exactly where there is none.
pub fn handle(packet: &[u8], i: u8) -> Option<&[u8]>
    ensures variant { is_some result ≡ is_some (spans.handle_span i packet.now) }
    ensures value { IfSome result (λ bytes. bytes.now ≡ bytes_if packet.now (spans.handle_span i packet.now)) }
{
    show(packet, handle_span(i, packet))
}

/// Writes a call's i-th handle, from 0. False exactly where there is none of this length.
pub fn set_handle(packet: &mut [u8], i: u8, handle: &[u8]) -> bool
    ensures edited { Edited (spans.sized (length handle.now) (spans.handle_span i packet.old)) handle.now packet.old packet.new }
    ensures done { result ≡ is_some (spans.sized (length handle.now) (spans.handle_span i packet.old)) }
{
    let span = sized(handle.len(), handle_span(i, packet));
    put(packet, span, handle)
}

/// Writes the count of a READ. False exactly where the packet is none.
pub fn set_count(packet: &mut [u8], count: u32) -> bool
    ensures edited { Edited (spans.count_span packet.old) (u32_text count) packet.old packet.new }
    ensures done { result ≡ is_some (spans.count_span packet.old) }
{
    let span = count_span(packet);
    put_u32(packet, span, count)
}

/// Cuts a WRITE to the first n of its bytes, with zero padding, and gives the packet's new length. None exactly where the
/// packet isn't a WRITE or has fewer than n bytes.
pub fn cut_write(packet: &mut [u8], n: u32) -> Option<usize>
    ensures { IsCut (spans.content_in packet.old) n packet.old packet.new result }
{
    let content = content_in(packet);
    cut(packet, content, n)
}

/// Writes the attributes of the object that a reply to this procedure is about. False exactly where it has none.
pub fn set_attributes(packet: &mut [u8], procedure: u32, attributes: &Fattr) -> bool
    ensures edited { Edited (spans.attributes_span procedure packet.old) (fattr_text attributes.now) packet.old packet.new }
    ensures done { result ≡ is_some (spans.attributes_span procedure packet.old) }
{
    let span = attributes_span(procedure, packet);
    put(packet, span, &fattr_bytes(attributes))
}

/// Writes the write verifier of a reply to WRITE or COMMIT. False exactly where it has none.
pub fn set_verifier(packet: &mut [u8], procedure: u32, verifier: u64) -> bool
    ensures edited { Edited (spans.verifier_span procedure packet.old) (u64_text verifier) packet.old packet.new }
    ensures done { result ≡ is_some (spans.verifier_span procedure packet.old) }
{
    let span = verifier_span(procedure, packet);
    put_u64(packet, span, verifier)
}

/// A flag as the number that packets have.
fn flag_number(flag: bool) -> u32
    ensures { result ≡ number_of_flag flag }
{
    if flag { 1 } else { 0 }
}

/// Writes the end mark of a reply to READ or of a listing. False exactly where it has none.
pub fn set_eof(packet: &mut [u8], procedure: u32, eof: bool) -> bool
    ensures edited { Edited (spans.eof_span procedure packet.old) (u32_text (number_of_flag eof)) packet.old packet.new }
    ensures done { result ≡ is_some (spans.eof_span procedure packet.old) }
{
    let span = eof_span(procedure, packet);
    put_u32(packet, span, flag_number(eof))
}

/// Makes the handle that a reply returns a client's, whose last four bytes are zero. False exactly where it returns none
/// of 32 bytes.
pub fn restore_handle(packet: &mut [u8], procedure: u32) -> bool
    ensures edited { Edited (spans.keepers_span procedure packet.old) (0 ∷ 0 ∷ 0 ∷ 0 ∷ []) packet.old packet.new }
    ensures done { result ≡ is_some (spans.keepers_span procedure packet.old) }
{
    let span = keepers_span(procedure, packet);
    put(packet, span, &[0, 0, 0, 0])
}
