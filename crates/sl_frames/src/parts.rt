//! Parts of frames at the place of a cursor.
ghost use Rattle.std.specs.Prelude.{◌≡◌};
ghost use Rattle.sl_defs.specs.Items.{Gives};
ghost use Rattle.sl_items.specs.Reading.{GivesArgs};
ghost use Rattle.sl_cells.specs.Lists.{counted_at};
ghost use Rattle.sl_cells.specs.Reading.{write_at};
ghost use Rattle.sl_frames.specs.Works.{server_at};
ghost use Rattle.sl_types.specs.declared.fault.ArgsFault.TheVariants.{Garbage};

use crate::actors::is_any_server;
use sl_cells::take_items;
use sl_types::{ArgsFault, Writes};
use sl_xdr::{Cursor, Short};
use std::alloc::Global;

/// What can't be read isn't in the grammar.
pub fn garbage(_short: Short) -> ArgsFault
    ensures { result ≡ Garbage }
{
    ArgsFault::Garbage
}

/// The writes of a Keep.
pub fn take_writes(alloc: Global, cursor: &mut Cursor<'_>) -> Result<Writes, ArgsFault>
    ensures exact { GivesArgs (λ w. (w, cursor.new.rest)) result (counted_at write_at cursor.old.rest) }
{
    let items = take_items(alloc, cursor)?;
    Ok(Writes::new(items))
}

/// The number of a server, as four bytes.
#[tactic(auto, unfolding(crate::specs::Works::server_at))]
pub fn take_server(cursor: &mut Cursor<'_>) -> Result<u8, Short>
    ensures exact { Gives (λ a. (a, cursor.new.rest)) result (server_at cursor.old.rest) }
{
    let number = cursor.take_u32()?;
    if is_any_server(number) {
        Ok(number as u8)
    } else {
        Err(Short)
    }
}
