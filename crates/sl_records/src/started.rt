ghost use Rattle.std.specs.Prelude.{◌≡◌, ◌++◌, length, take, IfOk, OnOk};
ghost use Rattle.sl_items.specs.Reading.{GivesArgs};

use crate::payload::garbage;
use crate::request::Request;
use sl_cells::Item;
use sl_frames::Intent;
use sl_types::{ArgsFault, NoMemory};
use sl_xdr::{Cursor, put_u64};
use std::alloc::Global;

/// An intent that was started.
#[derive(Drop, Debug)]
pub struct Started {
    /// The number of its operation.
    pub op: u64,
    /// What asked for it.
    pub request: Request,
    pub intent: Intent,
}

impl Item for Started {
    ghost use Rattle.sl_records.specs.Records.{started_at, started_text, ShortStarted};

    ghost at = { started_at };

    ghost text = { started_text };

    ghost is_short = { ShortStarted };

    #[tactic(auto, unfolding(crate::specs::Records::started_at))]
    fn take(alloc: Global, cursor: &mut Cursor<'_>) -> Result<Started, ArgsFault> {
        let op = cursor.take_u64().map_err(garbage)?;
        let request = Request::take(alloc, cursor)?;
        let intent = Intent::take(alloc, cursor)?;
        Ok(Started {
            op,
            request,
            intent,
        })
    }

    #[tactic(auto, using(sl_items::proofs::Appended::appended), unfolding(crate::specs::Records::started_text))]
    fn put(&self, out: &mut Vec<u8>) -> Result<(), sl_xdr::NoMemory> {
        put_u64(out, self.op)?;
        self.request.put(out)?;
        self.intent.put(out)?;
        Ok(())
    }

    fn copy(&self) -> Result<Started, NoMemory> {
        let intent = self.intent.copy()?;
        Ok(Started {
            op: self.op,
            request: self.request,
            intent,
        })
    }
}
