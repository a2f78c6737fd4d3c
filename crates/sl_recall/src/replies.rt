//! The files whose attributes replies tell.
ghost use Rattle.std.specs.Prelude.{◌≡◌, ℕ, IfOk, option_and_then};
ghost use Rattle.sl_history.specs.Remembering.{attributes_in, is_file};
ghost use Rattle.sl_history.specs.Wired.{results_of};
ghost use Rattle.sl_recall.specs.Files.{is_this};

use crate::words::{attributes_in, file_of};
use sl_defs::NoMemory;
use sl_ledger::results_of;
use std::alloc::Global;

/// The regular file whose attributes the reply to this procedure tells.
pub(crate) fn file_told(
    alloc: Global,
    procedure: u32,
    packet: &[u8],
) -> Result<Option<u64>, NoMemory>
    ensures { IfOk result (λ file. (f : ℕ) → is_file f (option_and_then attributes_in (results_of procedure packet.now)) ≡ is_this f file) }
{
    match results_of(alloc, procedure, packet)? {
        Some(reply) => Ok(file_of(attributes_in(&reply))),
        None => Ok(None),
    }
}
