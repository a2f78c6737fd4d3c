ghost use Rattle.std.specs.Prelude.{◌≡◌, ◌++◌, ℕ, List, Option, length, take, IfOk, OnOk};
ghost use Rattle.sl_items.specs.Reading.{GivesArgs};

use sl_types::{ArgsFault, NoMemory};
use sl_xdr::Cursor;
use std::alloc::Global;

/// What is spelled in one way: it is read at the place of a cursor, and appended to bytes.
pub trait Item: Drop {
    /// Reading it from the front of some bytes.
    ghost at: { List ℕ → Option (Self × List ℕ) };

    /// Its one text.
    ghost text: { Self → List ℕ };

    /// Its opaques have lengths of four bytes.
    ghost is_short: { Self → Type 0 };

    /// The one at the cursor's place.
    fn take(alloc: Global, cursor: &mut Cursor<'_>) -> Result<Self, ArgsFault>
        ensures exact { GivesArgs (λ x. (x, cursor.new.rest)) result (at cursor.old.rest) };

    /// Appends it. Without memory a part of it may stand behind what stood there before.
    fn put(&self, out: &mut Vec<u8>) -> Result<(), sl_xdr::NoMemory>
        requires { is_short self.now }
        ensures ok { OnOk result (out.new.items ≡ out.old.items ++ text self.now) }
        ensures kept { take (length out.old.items) out.new.items ≡ out.old.items };

    /// An equal one, in memory of its own.
    fn copy(&self) -> Result<Self, NoMemory>
        ensures { IfOk result (λ copy. copy ≡ self.now) };
}
