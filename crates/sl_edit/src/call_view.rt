ghost use Rattle.std.specs.Prelude.{◌≡◌, ◌↔◌, ◌-◌, ◌≤◌, drop, is_some, length, take, true, Some, IfSome, IsSome};
ghost use Rattle.std.specs.Borrow.{sem};
ghost use Rattle.sl_defs.specs.Items.{u32_text};
ghost use Rattle.sl_edit.specs.Edits.{Edited, IsOrdered, bytes_if};
ghost use Rattle.sl_edit.specs.Lending.{CallLends, CallLendsBytes, CallLendsField, CallLendsSlot, LendsCall, up_to};
ghost use Rattle.sl_edit.specs.Packets.{IsCall};
ghost use Rattle.sl_edit.specs.Cuts.{IsCut};
ghost use Rattle.sl_edit.specs.Spans as spans;

use crate::call_spans::handle_span;
use crate::lending::part;
use crate::packet;
use crate::span::Span;
use std::marker::Model;

/// A call in a packet, whose fields are edited in place. Contracts see it as the reference to its packet.
#[derive(Drop)]
pub struct CallView<'a> {
    packet: &'a mut [u8],
}

impl<'a> Model for CallView<'a> {
    ghost use Rattle.std.specs.Prelude.{List, ℕ};
    ghost use Rattle.std.specs.Borrow.{MutBor};

    ghost Value = { MutBor (List ℕ) };

    ghost view = { λ v. v.packet };
}

impl<'a> CallView<'a> {
    /// Whether the packet is a call, and the packet again, so that `new` lends it to the view alone.
    fn seek(packet: &'a mut [u8]) -> (bool, &'a mut [u8])
        ensures same { result.1.ghost_name ≡ packet.entry.ghost_name }
        ensures kept { result.1.now ≡ packet.old }
        ensures found { (result.0 ≡ true) ↔ IsCall packet.old }
    {
        (packet::is_call(packet), packet)
    }

    /// The call in the packet. None exactly where the packet is no call of NFS version 3 with readable arguments. Once the
    /// view is gone, the packet is what was left of it; where there is none, the packet is as it was.
    ///
    /// The proof of a caller doesn't follow the packet. A caller that has to know what it is then takes the functions of
    /// `packet`.
    pub fn new(packet: &'a mut [u8]) -> Option<CallView<'a>>
        ensures* lent { sem 𝓛 (LendsCall packet.entry result) }
        ensures same_packet { IfSome result (λ view. view.ghost_name ≡ packet.entry.ghost_name) }
        ensures kept { IfSome result (λ view. view.now ≡ packet.old) }
        ensures variant { IsSome result ↔ IsCall packet.old }
    {
        let (found, packet) = CallView::seek(packet);
        if found {
            Some(CallView { packet })
        } else {
            None
        }
    }

    /// The bytes of the i-th handle, in the order of the arguments, from 0. None exactly where there is none.
    pub fn handle(&self, i: u8) -> Option<&[u8]>
        ensures variant { is_some result ≡ is_some (spans.handle_span i self.now.now) }
        ensures value { IfSome result (λ bytes. bytes.now ≡ bytes_if self.now.now (spans.handle_span i self.now.now)) }
    {
        packet::handle(self.packet, i)
    }

    /// The packet, for writing.
    fn packet_mut(&mut self) -> &mut [u8]
        ensures* writes_back { sem 𝓛 (CallLends self.entry result) }
        ensures value { result.now ≡ self.old.now }
    {
        self.packet
    }

    /// Its bytes from a place up to another, for writing.
    fn part(&mut self, from: usize, to: usize) -> &mut [u8]
        requires ordered { from ≤ to }
        requires inside { to ≤ length self.old.now }
        ensures* writes_back { sem 𝓛 (CallLendsBytes self.entry (up_to from to) result) }
        ensures value { result.now ≡ take (to - from) (drop from self.old.now) }
    {
        part(self.packet_mut(), from, to)
    }

    /// Where the bytes of the i-th handle stand.
    fn handle_place(&self, i: u8) -> Span
        requires present { IsSome (spans.handle_span i self.now.now) }
        ensures exact { spans.handle_span i self.now.now ≡ Some result }
        ensures inside { IsOrdered self.now.now result }
    {
        match handle_span(i, self.packet) {
            Some(span) => span,
            None => unreachable!(),
        }
    }

    /// The bytes of the i-th handle, from 0, where there is one, for writing. Once the borrow ends, the packet has there
    /// what was left in the slot, and every other byte is as it was.
    ///
    /// The proof of a caller doesn't follow what is written through an `Option` of bytes, as `handle_mut` gives. A caller
    /// that has to know what the packet is then asks `handle` whether there is a handle, and takes this.
    pub fn handle_slot(&mut self, i: u8) -> &mut [u8]
        requires present { IsSome (spans.handle_span i self.old.now) }
        ensures* edited { sem 𝓛 (CallLendsField self.entry (spans.handle_span i self.old.now) result) }
        ensures value { result.now ≡ bytes_if self.old.now (spans.handle_span i self.old.now) }
    {
        let span = self.handle_place(i);
        self.part(span.from, span.to)
    }

    /// Whether there is an i-th handle.
    fn has_handle(&self, i: u8) -> bool
        ensures { result ≡ is_some (spans.handle_span i self.now.now) }
    {
        handle_span(i, self.packet).is_some()
    }

    /// Whether there is an i-th handle, and the view again, so that `handle_mut` lends it to one call after the other.
    fn seek_handle(&mut self, i: u8) -> (bool, &mut Self)
        ensures same { result.1.ghost_name ≡ self.entry.ghost_name }
        ensures kept { result.1.now ≡ self.old }
        ensures found { result.0 ≡ is_some (spans.handle_span i self.old.now) }
    {
        (self.has_handle(i), self)
    }

    /// The bytes of the i-th handle, from 0, for writing. None exactly where there is none. Once the borrow ends, the packet
    /// has there what was left in the slot, and every other byte is as it was.
    pub fn handle_mut(&mut self, i: u8) -> Option<&mut [u8]>
        ensures* edited { sem 𝓛 (CallLendsSlot self.entry (spans.handle_span i self.old.now) result) }
        ensures variant { is_some result ≡ is_some (spans.handle_span i self.old.now) }
        ensures value { IfSome result (λ bytes. bytes.now ≡ bytes_if self.old.now (spans.handle_span i self.old.now)) }
    {
        let (found, view) = self.seek_handle(i);
        if found {
            Some(view.handle_slot(i))
        } else {
            None
        }
    }

    /// Writes the i-th handle, from 0. False exactly where there is none of this length.
    pub fn set_handle(&mut self, i: u8, handle: &[u8]) -> bool
        ensures same_packet { self.new.ghost_name ≡ self.old.ghost_name }
        ensures edited { Edited (spans.sized (length handle.now) (spans.handle_span i self.old.now)) handle.now self.old.now self.new.now }
        ensures done { result ≡ is_some (spans.sized (length handle.now) (spans.handle_span i self.old.now)) }
    {
        packet::set_handle(self.packet, i, handle)
    }

    /// Writes the xid.
    pub fn set_xid(&mut self, xid: u32)
        ensures same_packet { self.new.ghost_name ≡ self.old.ghost_name }
        ensures edited { Edited (spans.xid_span self.old.now) (u32_text xid) self.old.now self.new.now }
    {
        packet::set_xid(self.packet, xid);
    }

    /// Writes the count of a READ. True exactly for a READ.
    pub fn set_count(&mut self, count: u32) -> bool
        ensures same_packet { self.new.ghost_name ≡ self.old.ghost_name }
        ensures edited { Edited (spans.count_span self.old.now) (u32_text count) self.old.now self.new.now }
        ensures done { result ≡ is_some (spans.count_span self.old.now) }
    {
        packet::set_count(self.packet, count)
    }

    /// Cuts a WRITE to the first n of its bytes, with zero padding, and gives the packet's new length. None exactly where
    /// the call isn't a WRITE or has fewer than n bytes.
    pub fn cut_write(&mut self, n: u32) -> Option<usize>
        ensures same_packet { self.new.ghost_name ≡ self.old.ghost_name }
        ensures cut { IsCut (spans.content_in self.old.now) n self.old.now self.new.now result }
    {
        packet::cut_write(self.packet, n)
    }
}
