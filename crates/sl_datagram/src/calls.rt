//! What calls do, and what their handles lead to.
ghost use Rattle.std.specs.Prelude.{◌≡◌, ◌||◌};
ghost use Rattle.sl_types.specs.Handles.{handle_of};
ghost use Rattle.sl_history.specs.Arrivals.{fileid_of, is_changing, is_commit};

use sl_types::{Call, Handle};

/// Whether the call may change something.
pub fn is_changing(call: &Call) -> bool
    ensures { result ≡ is_changing call.now }
{
    matches!(
        call,
        Call::Setattr { .. }
            | Call::Write { .. }
            | Call::Create { .. }
            | Call::Mkdir { .. }
            | Call::Symlink { .. }
            | Call::Mknod { .. }
            | Call::Remove { .. }
            | Call::Rmdir { .. }
            | Call::Rename { .. }
            | Call::Link { .. }
    )
}

/// Whether the call may change something, or makes what was written stable.
pub fn may_change(call: &Call) -> bool
    ensures { result ≡ (is_changing call.now || is_commit call.now) }
{
    is_changing(call) || matches!(call, Call::Commit { .. })
}

/// The fileid of a handle, 0 for what is none.
pub fn fileid_of(handle: &[u8]) -> u64
    ensures { result ≡ fileid_of (handle_of handle.now) }
{
    match Handle::read(handle) {
        Some(handle) => handle.fileid,
        None => 0,
    }
}
