ghost use Rattle.std.specs.Prelude.{◌≡◌, ◌++◌, length, take, IfOk, OnOk};
ghost use Rattle.sl_items.specs.Reading.{GivesArgs};

use crate::payload::garbage;
use sl_cells::Item;
use sl_types::{ArgsFault, NoMemory};
use sl_xdr::{Cursor, put_u64};
use std::alloc::Global;

/// What the frame says by which the proxy asked for something.
#[derive(Clone, Copy, Debug, PartialEq, Eq)]
pub struct Request {
    pub fence: u64,
    pub tag: u64,
    pub low: u64,
    pub arrival: u64,
}

impl Item for Request {
    ghost use Rattle.sl_records.specs.Records.{request_at, request_text};

    ghost at = { request_at };

    ghost text = { request_text };

    ghost is_short = { λ request. Unit {0} };

    #[tactic(auto, unfolding(crate::specs::Records::request_at))]
    fn take(_alloc: Global, cursor: &mut Cursor<'_>) -> Result<Request, ArgsFault> {
        let fence = cursor.take_u64().map_err(garbage)?;
        let tag = cursor.take_u64().map_err(garbage)?;
        let low = cursor.take_u64().map_err(garbage)?;
        let arrival = cursor.take_u64().map_err(garbage)?;
        Ok(Request {
            fence,
            tag,
            low,
            arrival,
        })
    }

    #[tactic(auto, using(sl_items::proofs::Appended::appended), unfolding(crate::specs::Records::request_text))]
    fn put(&self, out: &mut Vec<u8>) -> Result<(), sl_xdr::NoMemory> {
        put_u64(out, self.fence)?;
        put_u64(out, self.tag)?;
        put_u64(out, self.low)?;
        put_u64(out, self.arrival)?;
        Ok(())
    }

    fn copy(&self) -> Result<Request, NoMemory> {
        Ok(*self)
    }
}
