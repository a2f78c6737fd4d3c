//! What a directory server has done for requests of the proxy, with what it answers again.
ghost use Rattle.std.specs.Prelude.{◌≡◌, ◌++◌, length, take, IfOk, OnOk};
ghost use Rattle.sl_items.specs.Reading.{GivesArgs};

use crate::payload::garbage;
use crate::request::Request;
use sl_cells::{Changes, Item, take_id, take_id_or_none, take_padded};
use sl_items::{put_bytes, put_time, take_time};
use sl_types::{ArgsFault, Bytes, NoMemory, Time};
use sl_xdr::{Cursor, put_u64};
use std::alloc::Global;

/// A fileid was minted. Fence, tag and low are those of the frame that asked for it.
#[derive(Clone, Copy, Debug, PartialEq, Eq)]
pub struct Mint {
    pub fence: u64,
    pub tag: u64,
    pub low: u64,
    pub fileid: u64,
}

/// A changing call was done.
#[derive(Drop, Debug)]
pub struct Did {
    /// What asked for it.
    pub request: Request,
    /// When it took effect.
    pub moment: Time,
    /// The fileid that was chosen for a new object, or 0.
    pub chosen: u64,
    pub changes: Changes,
    /// The reply packet, as it was sent to the proxy.
    pub reply: Bytes,
}

impl Item for Mint {
    ghost use Rattle.sl_records.specs.Records.{mint_at, mint_text};

    ghost at = { mint_at };

    ghost text = { mint_text };

    ghost is_short = { λ mint. Unit {0} };

    #[tactic(auto, unfolding(crate::specs::Records::mint_at))]
    fn take(_alloc: Global, cursor: &mut Cursor<'_>) -> Result<Mint, ArgsFault> {
        let fence = cursor.take_u64().map_err(garbage)?;
        let tag = cursor.take_u64().map_err(garbage)?;
        let low = cursor.take_u64().map_err(garbage)?;
        let fileid = take_id(cursor).map_err(garbage)?;
        Ok(Mint {
            fence,
            tag,
            low,
            fileid,
        })
    }

    #[tactic(auto, using(sl_items::proofs::Appended::appended), unfolding(crate::specs::Records::mint_text))]
    fn put(&self, out: &mut Vec<u8>) -> Result<(), sl_xdr::NoMemory> {
        put_u64(out, self.fence)?;
        put_u64(out, self.tag)?;
        put_u64(out, self.low)?;
        put_u64(out, self.fileid)?;
        Ok(())
    }

    fn copy(&self) -> Result<Mint, NoMemory> {
        Ok(*self)
    }
}

impl Item for Did {
    ghost use Rattle.sl_records.specs.Records.{did_at, did_text, ShortDid};

    ghost at = { did_at };

    ghost text = { did_text };

    ghost is_short = { ShortDid };

    #[tactic(auto, unfolding(crate::specs::Records::did_at))]
    fn take(alloc: Global, cursor: &mut Cursor<'_>) -> Result<Did, ArgsFault> {
        let request = Request::take(alloc, cursor)?;
        let moment = take_time(cursor).map_err(garbage)?;
        let chosen = take_id_or_none(cursor).map_err(garbage)?;
        let changes = Changes::take(alloc, cursor)?;
        let reply = take_padded(alloc, cursor)?;
        Ok(Did {
            request,
            moment,
            chosen,
            changes,
            reply,
        })
    }

    #[tactic(auto, using(sl_items::proofs::Appended::appended), unfolding(crate::specs::Records::did_text))]
    fn put(&self, out: &mut Vec<u8>) -> Result<(), sl_xdr::NoMemory> {
        self.request.put(out)?;
        put_time(out, self.moment)?;
        put_u64(out, self.chosen)?;
        self.changes.put(out)?;
        put_bytes(out, &self.reply)?;
        Ok(())
    }

    fn copy(&self) -> Result<Did, NoMemory> {
        let changes = self.changes.copy()?;
        let reply = self.reply.copy()?;
        Ok(Did {
            request: self.request,
            moment: self.moment,
            chosen: self.chosen,
            changes,
            reply,
        })
    }
}
