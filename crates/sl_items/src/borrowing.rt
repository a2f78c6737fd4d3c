//! Handles and other bytes as they stand in the packet, at the place of a cursor. It takes no memory.
ghost use Rattle.std.specs.Prelude.{◌≡◌};
ghost use Rattle.sl_defs.specs.Items.{Gives};
ghost use Rattle.sl_items.specs.Reading.{bytes_at, fh_at};

use sl_xdr::{Cursor, Short};

/// Bytes of any length, as a name has them. Their padding isn't looked at.
#[tactic(auto, unfolding(crate::specs::Reading::bytes_at))]
pub fn borrow_bytes<'a>(cursor: &mut Cursor<'a>) -> Result<&'a [u8], Short>
    ensures exact { Gives (λ b. (b.now, cursor.new.rest)) result (bytes_at cursor.old.rest) }
{
    cursor.opaque(u32::MAX)
}

/// The bytes of a file handle, 64 at most.
#[tactic(auto, unfolding(crate::specs::Reading::fh_at))]
pub fn borrow_fh<'a>(cursor: &mut Cursor<'a>) -> Result<&'a [u8], Short>
    ensures exact { Gives (λ f. (f.now, cursor.new.rest)) result (fh_at cursor.old.rest) }
{
    cursor.opaque(64)
}
