//! Bodies, read and written.
ghost use Rattle.std.specs.Prelude.{◌≡◌, ◌++◌, length, take, Some, OnOk};
ghost use Rattle.sl_defs.specs.Items.{Gives};
ghost use Rattle.sl_defs.specs.Parts.{mapped, ◌⊗◌};
ghost use Rattle.sl_defs.specs.Items.{u32_at, u64_at};
ghost use Rattle.sl_xdr.specs.Reading.{flag_at};
ghost use Rattle.sl_items.specs.Reading.{GivesArgs};
ghost use Rattle.sl_cells.specs.Lists.{counted_at};
ghost use Rattle.sl_cells.specs.Reading.{id_at, id_or_none_at, name_cell_at};
ghost use Rattle.sl_frames.specs.Frames.{ShortBody, body_at, body_of, body_text, forward_of, list_body, listed_body, site_at};
ghost use Rattle.sl_frames.specs.declared.body.Body.TheVariants as body;

use crate::body::Body;
use crate::found::FoundCells;
use crate::intent::Intent;
use crate::parts::garbage;
use crate::work::Work;
use sl_cells::{Item, Keys, NameCells, take_id, take_id_or_none};
use sl_types::{ArgsFault, Bytes};
use sl_xdr::{Cursor, NoMemory, Short, put_flag, put_u32, put_u64};
use std::alloc::Global;

fn take_list(cursor: &mut Cursor<'_>) -> Result<Body, Short>
    ensures exact { Gives (λ b. (b, cursor.new.rest)) result (mapped list_body (id_at ⊗ u64_at ⊗ u32_at) cursor.old.rest) }
{
    let dir = take_id(cursor)?;
    let cookie = cursor.take_u64()?;
    let limit = cursor.take_u32()?;
    Ok(Body::List { dir, cookie, limit })
}

fn take_listed(alloc: Global, cursor: &mut Cursor<'_>) -> Result<Body, ArgsFault>
    ensures exact { GivesArgs (λ b. (b, cursor.new.rest)) result (mapped listed_body (counted_at name_cell_at ⊗ flag_at) cursor.old.rest) }
{
    let cells = NameCells::take(alloc, cursor)?;
    let more = cursor.flag().map_err(garbage)?;
    Ok(Body::Listed { cells, more })
}

#[tactic(auto, unfolding(crate::specs::Frames::site_at))]
fn take_mint(cursor: &mut Cursor<'_>) -> Result<Body, Short>
    ensures exact { Gives (λ b. (b, cursor.new.rest)) result (mapped body.Mint site_at cursor.old.rest) }
{
    let site = cursor.take_u32()?;
    if site < 64 {
        Ok(Body::Mint { site })
    } else {
        Err(Short)
    }
}

fn take_minted(cursor: &mut Cursor<'_>) -> Result<Body, Short>
    ensures exact { Gives (λ b. (b, cursor.new.rest)) result (mapped body.Minted id_or_none_at cursor.old.rest) }
{
    let fileid = take_id_or_none(cursor)?;
    Ok(Body::Minted { fileid })
}

fn take_decided(cursor: &mut Cursor<'_>) -> Result<Body, Short>
    ensures exact { Gives (λ b. (b, cursor.new.rest)) result (mapped body.Decided flag_at cursor.old.rest) }
{
    let yes = cursor.flag()?;
    Ok(Body::Decided { yes })
}

/// A body of this kind, but for those that hold a packet.
#[tactic(auto, unfolding(crate::specs::Frames::body_at))]
fn take_body(alloc: Global, kind: u8, cursor: &mut Cursor<'_>) -> Result<Body, ArgsFault>
    ensures exact { GivesArgs (λ b. (b, cursor.new.rest)) result (body_at kind cursor.old.rest) }
{
    match kind {
        1 => Ok(Body::Hello),
        2 => Ok(Body::Welcome),
        5 => Ok(Body::Ask(Keys::take(alloc, cursor)?)),
        6 => Ok(Body::Found(FoundCells::take(alloc, cursor)?)),
        7 => take_list(cursor).map_err(garbage),
        8 => take_listed(alloc, cursor),
        9 => take_mint(cursor).map_err(garbage),
        10 => take_minted(cursor).map_err(garbage),
        11 => Ok(Body::Intent(Intent::take(alloc, cursor)?)),
        12 => take_decided(cursor).map_err(garbage),
        13 => Ok(Body::Lock(Work::take(alloc, cursor)?)),
        14 => Ok(Body::Grant),
        15 => Ok(Body::Refuse),
        16 => Ok(Body::Apply),
        17 => Ok(Body::Release),
        18 => Ok(Body::Ack),
        _ => Err(ArgsFault::Garbage),
    }
}

/// A copy of a packet.
fn copy_packet(alloc: Global, bytes: &[u8]) -> Result<Bytes, ArgsFault>
    ensures { GivesArgs (λ b. b) result (Some bytes.now) }
{
    match Vec::from_slice(alloc, bytes) {
        Ok(items) => Ok(Bytes::new(items)),
        Err(_) => Err(ArgsFault::NoMemory),
    }
}

#[tactic(auto, unfolding(crate::specs::Frames::forward_of))]
fn read_forward(alloc: Global, bytes: &[u8]) -> Result<Body, ArgsFault>
    ensures { GivesArgs (λ b. b) result (forward_of bytes.now) }
{
    let mut cursor = Cursor::new(bytes);
    let chosen = take_id_or_none(&mut cursor).map_err(garbage)?;
    let packet = copy_packet(alloc, cursor.rest())?;
    Ok(Body::Forward { chosen, packet })
}

/// The body of this kind that the whole bytes spell.
#[tactic(auto, unfolding(crate::specs::Frames::body_of))]
pub fn read_body(alloc: Global, kind: u8, bytes: &[u8]) -> Result<Body, ArgsFault>
    ensures { GivesArgs (λ b. b) result (body_of kind bytes.now) }
{
    match kind {
        3 => read_forward(alloc, bytes),
        4 => Ok(Body::Packet(copy_packet(alloc, bytes)?)),
        _ => {
            let mut cursor = Cursor::new(bytes);
            let body = take_body(alloc, kind, &mut cursor)?;
            if cursor.rest().is_empty() {
                Ok(body)
            } else {
                Err(ArgsFault::Garbage)
            }
        }
    }
}

fn put_packet(out: &mut Vec<u8>, packet: &Bytes) -> Result<(), NoMemory>
    ensures ok { OnOk result (out.new.items ≡ out.old.items ++ packet.now) }
    ensures kept { take (length out.old.items) out.new.items ≡ out.old.items }
{
    out.extend_from_slice(packet.as_slice())
        .map_err(|_| NoMemory)
}

/// Appends a body.
#[tactic(auto, using(sl_items::proofs::Appended::appended), unfolding(crate::specs::Frames::body_text))]
pub fn put_body(out: &mut Vec<u8>, body: &Body) -> Result<(), NoMemory>
    requires { ShortBody body.now }
    ensures ok { OnOk result (out.new.items ≡ out.old.items ++ body_text body.now) }
    ensures kept { take (length out.old.items) out.new.items ≡ out.old.items }
{
    match body {
        Body::Forward { chosen, packet } => {
            put_u64(out, *chosen)?;
            put_packet(out, packet)
        }
        Body::Packet(packet) => put_packet(out, packet),
        Body::Ask(keys) => keys.put(out),
        Body::Found(cells) => cells.put(out),
        Body::List { dir, cookie, limit } => {
            put_u64(out, *dir)?;
            put_u64(out, *cookie)?;
            put_u32(out, *limit)
        }
        Body::Listed { cells, more } => {
            cells.put(out)?;
            put_flag(out, *more)
        }
        Body::Mint { site } => put_u32(out, *site),
        Body::Minted { fileid } => put_u64(out, *fileid),
        Body::Intent(intent) => intent.put(out),
        Body::Decided { yes } => put_flag(out, *yes),
        Body::Lock(work) => work.put(out),
        Body::Hello | Body::Welcome | Body::Grant | Body::Refuse => Ok(()),
        Body::Apply | Body::Release | Body::Ack => Ok(()),
    }
}
