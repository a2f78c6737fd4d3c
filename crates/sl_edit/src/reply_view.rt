ghost use Rattle.std.specs.Prelude.{◌≡◌, ◌↔◌, ◌+◌, ◌≤◌, [], ◌∷◌, drop, is_some, length, take, true, IfSome, IsSome};
ghost use Rattle.std.specs.Borrow.{sem};
ghost use Rattle.sl_defs.specs.Items.{u32_text, u64_text};
ghost use Rattle.sl_items.specs.Spelling.{fattr_text};
ghost use Rattle.sl_xdr.specs.Reading.{number_of_flag};
ghost use Rattle.sl_edit.specs.Edits.{Edited, IsWithin, bytes_if};
ghost use Rattle.sl_edit.specs.Lending.{LendsReply, ReplyLends, ReplyLendsBytes, ReplyLendsSlot, run_of};
ghost use Rattle.sl_edit.specs.Packets.{IsReply};
ghost use Rattle.sl_edit.specs.Spans as spans;

use crate::lending::array_at;
use crate::packet;
use crate::reply_spans::attributes_span;
use crate::span::Span;
use crate::words::FATTR;
use sl_types::Fattr;
use std::marker::Model;

/// A reply in a packet, whose fields are edited in place. Contracts see its procedure and the reference to its packet.
#[derive(Drop)]
pub struct ReplyView<'a> {
    procedure: u32,
    packet: &'a mut [u8],
}

impl<'a> Model for ReplyView<'a> {
    ghost use Rattle.sl_edit.specs.Views.{ReplyPacket, reply_code};

    ghost Value = { ReplyPacket };

    ghost coded = { reply_code };

    ghost view = { λ v. record { procedure = v.procedure; packet = v.packet } };
}

impl<'a> ReplyView<'a> {
    /// Whether the packet is a reply, and the packet again, so that `new` lends it to the view alone.
    fn seek(procedure: u32, packet: &'a mut [u8]) -> (bool, &'a mut [u8])
        ensures same { result.1.ghost_name ≡ packet.entry.ghost_name }
        ensures kept { result.1.now ≡ packet.old }
        ensures found { (result.0 ≡ true) ↔ IsReply procedure packet.old }
    {
        (packet::is_reply(packet, procedure), packet)
    }

    /// The reply in the packet. None exactly where the packet is no accepted reply of this procedure's grammar. Once the
    /// view is gone, the packet is what was left of it; where there is none, the packet is as it was.
    ///
    /// The proof of a caller doesn't follow the packet. A caller that has to know what it is then takes the functions of
    /// `packet`.
    pub fn new(procedure: u32, packet: &'a mut [u8]) -> Option<ReplyView<'a>>
        ensures* lent { sem 𝓛 (LendsReply packet.entry result) }
        ensures same_packet { IfSome result (λ view. (view.procedure ≡ procedure) × (view.packet.ghost_name ≡ packet.entry.ghost_name)) }
        ensures kept { IfSome result (λ view. view.packet.now ≡ packet.old) }
        ensures variant { IsSome result ↔ IsReply procedure packet.old }
    {
        let (found, packet) = ReplyView::seek(procedure, packet);
        if found {
            Some(ReplyView { procedure, packet })
        } else {
            None
        }
    }

    /// Writes the xid.
    pub fn set_xid(&mut self, xid: u32)
        ensures same_packet { (self.new.procedure ≡ self.old.procedure) × (self.new.packet.ghost_name ≡ self.old.packet.ghost_name) }
        ensures edited { Edited (spans.xid_span self.old.packet.now) (u32_text xid) self.old.packet.now self.new.packet.now }
    {
        packet::set_xid(self.packet, xid);
    }

    /// The packet, for writing.
    fn packet_mut(&mut self) -> &mut [u8]
        ensures* writes_back { sem 𝓛 (ReplyLends self.entry result) }
        ensures value { result.now ≡ self.old.packet.now }
    {
        self.packet
    }

    /// N of its bytes from a place on, for writing.
    fn array_at<const N: usize>(&mut self, from: usize) -> &mut [u8; N]
        requires { from + N ≤ length self.old.packet.now }
        ensures* writes_back { sem 𝓛 (ReplyLendsBytes self.entry (run_of from N) result) }
        ensures value { result.now ≡ take N (drop from self.old.packet.now) }
    {
        array_at(self.packet_mut(), from)
    }

    fn lend(&mut self, span: Option<Span>) -> Option<&mut [u8; FATTR]>
        requires { IfSome span (IsWithin self.old.packet.now 84) }
        ensures* writes_back { sem 𝓛 (ReplyLendsSlot self.entry span result) }
        ensures variant { is_some result ≡ is_some span }
        ensures value { IfSome result (λ bytes. bytes.now ≡ bytes_if self.old.packet.now span) }
    {
        match span {
            Some(span) => Some(self.array_at(span.from)),
            None => None,
        }
    }

    /// The attributes of the object that the call was about.
    fn slot_span(&self) -> Option<Span>
        ensures exact { result ≡ spans.attributes_span self.now.procedure self.now.packet.now }
        ensures inside { IfSome result (IsWithin self.now.packet.now 84) }
    {
        attributes_span(self.procedure, self.packet)
    }

    /// The 84 bytes of the attributes of the object that the call was about, for writing. None exactly where the reply has
    /// none. Once the borrow ends, the packet has there what was left in the slot, and every other byte is as it was.
    pub fn attr_slot(&mut self) -> Option<&mut [u8; FATTR]>
        ensures* edited { sem 𝓛 (ReplyLendsSlot self.entry (spans.attributes_span self.old.procedure self.old.packet.now) result) }
        ensures variant { is_some result ≡ is_some (spans.attributes_span self.old.procedure self.old.packet.now) }
        ensures value { IfSome result (λ bytes. bytes.now ≡ bytes_if self.old.packet.now (spans.attributes_span self.old.procedure self.old.packet.now)) }
    {
        let span = self.slot_span();
        self.lend(span)
    }

    /// Writes the attributes of the object that the call was about. False exactly where the reply has none.
    pub fn patch_attr(&mut self, attr: &Fattr) -> bool
        ensures same_packet { (self.new.procedure ≡ self.old.procedure) × (self.new.packet.ghost_name ≡ self.old.packet.ghost_name) }
        ensures edited { Edited (spans.attributes_span self.old.procedure self.old.packet.now) (fattr_text attr.now) self.old.packet.now self.new.packet.now }
        ensures done { result ≡ is_some (spans.attributes_span self.old.procedure self.old.packet.now) }
    {
        packet::set_attributes(self.packet, self.procedure, attr)
    }

    /// Writes the write verifier of a WRITE or COMMIT. False exactly where the reply has none.
    pub fn set_verifier(&mut self, v: u64) -> bool
        ensures same_packet { (self.new.procedure ≡ self.old.procedure) × (self.new.packet.ghost_name ≡ self.old.packet.ghost_name) }
        ensures edited { Edited (spans.verifier_span self.old.procedure self.old.packet.now) (u64_text v) self.old.packet.now self.new.packet.now }
        ensures done { result ≡ is_some (spans.verifier_span self.old.procedure self.old.packet.now) }
    {
        packet::set_verifier(self.packet, self.procedure, v)
    }

    /// Writes the end mark of a READ or a listing. False exactly where the reply has none.
    pub fn set_eof(&mut self, eof: bool) -> bool
        ensures same_packet { (self.new.procedure ≡ self.old.procedure) × (self.new.packet.ghost_name ≡ self.old.packet.ghost_name) }
        ensures edited { Edited (spans.eof_span self.old.procedure self.old.packet.now) (u32_text (number_of_flag eof)) self.old.packet.now self.new.packet.now }
        ensures done { result ≡ is_some (spans.eof_span self.old.procedure self.old.packet.now) }
    {
        packet::set_eof(self.packet, self.procedure, eof)
    }

    /// Makes the handle that the call found or made a client's, whose last four bytes are zero. False exactly where the
    /// reply has no handle of 32 bytes.
    pub fn restore_handle(&mut self) -> bool
        ensures same_packet { (self.new.procedure ≡ self.old.procedure) × (self.new.packet.ghost_name ≡ self.old.packet.ghost_name) }
        ensures edited { Edited (spans.keepers_span self.old.procedure self.old.packet.now) (0 ∷ 0 ∷ 0 ∷ 0 ∷ []) self.old.packet.now self.new.packet.now }
        ensures done { result ≡ is_some (spans.keepers_span self.old.procedure self.old.packet.now) }
    {
        packet::restore_handle(self.packet, self.procedure)
    }
}
