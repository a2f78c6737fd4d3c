//! Which objects a volume may have, and which servers they have.
ghost use Rattle.std.specs.Prelude.{◌≡◌, ◌^◌, ◌<◌, false, true, IfErr, IfNone, IfOk, IfSome};
ghost use Rattle.sl_frames.specs.Actors.{is_directory};
ghost use Rattle.sl_history.specs.Placing as placing;
ghost use Rattle.sl_machine.specs.Calls as calls;
ghost use Rattle.sl_types.specs.Handles.{handle_text};
ghost use Rattle.sl_types.specs.Numbers.{is_ok_status};
ghost use Rattle.sl_world.specs.Proxying as proxying;
ghost use Rattle.sl_world.specs.Proxying.{HasServers};

use sl_policy::site_of;
use sl_route::Class;
use sl_types::{Handle, Setup, Status};

/// The least number that is no fileid: six bits for the site, and forty for the object.
const PAST_FILEID: u64 = 1 << 46;

/// Whether no object of the volume can have this handle.
fn is_foreign(setup: &Setup, handle: &Handle) -> bool
    ensures { result ≡ calls.is_foreign setup.now handle.now }
{
    handle.volume != setup.volume || handle.fileid == 0 || handle.fileid >= PAST_FILEID
}

/// The object of a handle that this volume may have. Bytes that are no handle are answered BADHANDLE, and a handle that no
/// object of the volume can have is STALE (RFC 1813, section 2.6).
pub(crate) fn target(setup: &Setup, object: &[u8]) -> Result<Handle, Status>
    ensures target { result ≡ proxying.target setup.now object.now }
    ensures spelled { IfOk result (λ handle. object.now ≡ handle_text handle) }
    ensures failure { IfErr result (λ status. is_ok_status status ≡ false) }
{
    match Handle::read(object) {
        None => Err(Status::BadHandle),
        Some(handle) if is_foreign(setup, &handle) => Err(Status::Stale),
        Some(handle) => Ok(handle),
    }
}

/// The server of an object's attributes. None where the volume doesn't have 1 to 8 directory servers.
#[tactic(auto, unfolding(sl_history::specs::Placing::carrier))]
pub(crate) fn object_server(setup: &Setup, fileid: u64) -> Option<u8>
    requires { fileid < 2 ^ 46 }
    ensures server { IfSome result (λ server. server ≡ placing.object_server setup.now fileid) }
    ensures directory { IfSome result (λ server. is_directory server ≡ true) }
    ensures none { IfNone result (HasServers setup.now → ⊥) }
{
    let servers = setup.dirs;
    if servers < 1 || servers > Class::Dir.most_servers() {
        return None;
    }
    Some(Class::Dir.first_server() + site_of(fileid) % servers)
}
