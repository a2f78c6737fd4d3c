//! Writes, as frames and records have them.
ghost use Rattle.std.specs.Prelude.{◌≡◌, ◌++◌, length, take, IfOk, OnOk};
ghost use Rattle.sl_items.specs.Reading.{GivesArgs};

use crate::item::Item;
use crate::parts::{garbage, take_padded};
use sl_items::put_bytes;
use sl_types::{ArgsFault, NoMemory, Write};
use sl_xdr::{Cursor, put_u64};
use std::alloc::Global;

impl Item for Write {
    ghost use Rattle.sl_cells.specs.Reading.{write_at};
    ghost use Rattle.sl_cells.specs.Texts.{write_text, ShortWrite};

    ghost at = { write_at };

    ghost text = { write_text };

    ghost is_short = { ShortWrite };

    #[tactic(auto, unfolding(crate::specs::Reading::write_at))]
    fn take(alloc: Global, cursor: &mut Cursor<'_>) -> Result<Write, ArgsFault> {
        let offset = cursor.take_u64().map_err(garbage)?;
        let bytes = take_padded(alloc, cursor)?;
        Ok(Write { offset, bytes })
    }

    #[tactic(auto, using(sl_items::proofs::Appended::appended), unfolding(crate::specs::Texts::write_text))]
    fn put(&self, out: &mut Vec<u8>) -> Result<(), sl_xdr::NoMemory> {
        put_u64(out, self.offset)?;
        put_bytes(out, &self.bytes)?;
        Ok(())
    }

    fn copy(&self) -> Result<Write, NoMemory> {
        let bytes = self.bytes.copy()?;
        Ok(Write {
            offset: self.offset,
            bytes,
        })
    }
}
