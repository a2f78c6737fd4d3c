//! Handles, as their bytes.
ghost use Rattle.std.specs.Prelude.{◌≡◌, IfOk};
ghost use Rattle.sl_types.specs.Handles as handles;
ghost use Rattle.sl_plain.specs.Steps as steps;

use sl_defs::{Bytes, NoMemory};
use sl_types::{Fh, Handle, Status};
use std::alloc::Global;

/// The handle that the bytes spell.
#[tactic(auto, unfolding(crate::specs::Steps::read_handle))]
pub(crate) fn read_handle(bytes: &[u8]) -> Result<Handle, Status>
    ensures { steps.read_handle bytes.now ≡ result }
{
    match Handle::read(bytes) {
        Some(handle) => Ok(handle),
        None => Err(Status::BadHandle),
    }
}

/// The bytes of a handle.
pub(crate) fn handle_bytes(alloc: Global, h: Handle) -> Result<Fh, NoMemory>
    ensures { IfOk result (λ text. text ≡ handles.handle_text h) }
{
    match Vec::from_slice(alloc, &h.bytes()) {
        Ok(bytes) => Ok(Fh::new(Bytes::new(bytes))),
        Err(_) => Err(NoMemory),
    }
}
