//! A client's call as it goes to a directory server.
ghost use Rattle.std.specs.Prelude.{◌≡◌, ◌^◌, ◌<◌, Some, true, IfOk};
ghost use Rattle.sl_defs.specs.Items.{AreBytes};
ghost use Rattle.sl_frames.specs.Actors.{is_directory};
ghost use Rattle.sl_history.specs.Arrivals.{IsAsked, datagram};
ghost use Rattle.sl_machine.specs.Packets as packets;
ghost use Rattle.sl_types.specs.Handles.{handle_of, handle_text};
ghost use Rattle.sl_world.specs.Admitting.{internal};
ghost use Rattle.sl_world.specs.Proxying.{asked_of, call_of};

use crate::look::Look;
use sl_edit::handles_have_slots;
use sl_edit::packet::{set_handle, set_xid};
use sl_policy::site_of;
use sl_types::{Bytes, Handle, InternalHandle, NoMemory};
use std::alloc::Global;

/// The least number that is no xid.
const PAST_XID: u64 = 1 << 32;

/// The handle as a directory server is given it: with its site, and the server's number.
fn among_servers(handle: Handle, to: u8) -> InternalHandle
    requires { handle.fileid < 2 ^ 46 }
    ensures { result ≡ internal handle to }
{
    InternalHandle {
        handle,
        site: u16::from(site_of(handle.fileid)),
        actor: u16::from(to),
    }
}

/// The packet that a directory server is sent of a client's GETATTR: the client's own, with the handle as the servers have
/// it, and the request's tag as its xid.
pub(crate) fn forwarded(alloc: Global, look: &Look) -> Result<Bytes, NoMemory>
    requires bytes { AreBytes look.now.packet }
    requires asked { datagram look.now.packet ≡ IsAsked (asked_of look.now) }
    requires spelled { handle_of (handle_text look.now.handle) ≡ Some look.now.handle }
    requires id { look.now.handle.fileid < 2 ^ 46 }
    requires directory { is_directory look.now.to ≡ true }
    ensures { IfOk result (λ bytes. bytes ≡ packets.forwarded look.now.to look.now.tag (call_of look.now) look.now.packet) }
{
    handles_have_slots();
    let Ok(mut packet) = look.packet.as_slice().to_vec(alloc) else {
        return Err(NoMemory);
    };
    set_handle(&mut packet, 0, &among_servers(look.handle, look.to).bytes());
    set_xid(&mut packet, (look.tag % PAST_XID) as u32);
    Ok(Bytes::new(packet))
}
