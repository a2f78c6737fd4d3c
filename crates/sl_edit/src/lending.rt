//! Bytes of a packet, lent for writing.
ghost use Rattle.std.specs.Prelude.{◌≡◌, ◌+◌, ◌-◌, ◌≤◌, length, take, drop};
ghost use Rattle.std.specs.Borrow.{sem};
ghost use Rattle.sl_edit.specs.Lending.{LendsBytes, run_of, up_to};

use std::slice::from_raw_parts_mut;

/// N bytes of the packet from a place on.
pub(crate) fn array_at<const N: usize>(packet: &mut [u8], from: usize) -> &mut [u8; N]
    requires { from + N ≤ length packet.old }
    ensures* writes_back { sem 𝓛 (LendsBytes packet.entry (run_of from N) result) }
    ensures value { result.now ≡ take N (drop from packet.old) }
{
    // of a part of a slice that is lent, safe code tells only the length that it has afterwards
    unsafe { &mut *(packet.as_mut_ptr().add(from) as *mut [u8; N]) }
}

/// The bytes of the packet from a place up to another.
pub(crate) fn part(packet: &mut [u8], from: usize, to: usize) -> &mut [u8]
    requires ordered { from ≤ to }
    requires inside { to ≤ length packet.old }
    ensures* writes_back { sem 𝓛 (LendsBytes packet.entry (up_to from to) result) }
    ensures value { result.now ≡ take (to - from) (drop from packet.old) }
{
    let size = to - from;
    // for the same reason
    unsafe { from_raw_parts_mut(packet.as_mut_ptr().add(from), size) }
}
