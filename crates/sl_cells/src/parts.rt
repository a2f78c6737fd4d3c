//! Parts of cells at the place of a cursor.
ghost use Rattle.std.specs.Prelude.{◌≡◌, ◌+◌, ◌==◌, length, take, drop};
ghost use Rattle.std.specs.List.{list_all};
ghost use Rattle.sl_defs.specs.Items.{Gives, padding};
ghost use Rattle.sl_items.specs.Reading.{GivesArgs};
ghost use Rattle.sl_cells.specs.Reading.{id_at, id_or_none_at, is_id, is_id_or_none, object_at, padded_at, padding_in};
ghost use Rattle.sl_types.specs.declared.fault.ArgsFault.TheVariants.{Garbage};

use sl_items::take_fattr;
use sl_types::{ArgsFault, Bytes, Fattr, Name};
use sl_xdr::{Cursor, Short};
use std::alloc::Global;

/// What can't be read isn't in the grammar.
pub fn garbage(_short: Short) -> ArgsFault
    ensures { result ≡ Garbage }
{
    ArgsFault::Garbage
}

fn is_zero(bytes: &[u8]) -> bool
    ensures { result ≡ list_all (λ b. b == 0) bytes.now }
{
    bytes.iter().all(|b| *b == 0)
}

/// What stands behind an opaque's body, up to a multiple of four.
fn padding_behind<'a>(bytes: &'a [u8], body: &[u8]) -> &'a [u8]
    ensures { result.now ≡ padding_in bytes.now body.now }
{
    if bytes.len() < 4 || bytes.len() - 4 < body.len() {
        return &[];
    }
    let (_, behind) = bytes.split_at(4 + body.len());
    let count = (4 - body.len() % 4) % 4;
    if behind.len() < count {
        return behind;
    }
    let (padding, _) = behind.split_at(count);
    padding
}

/// An opaque of any length, whose padding is zero.
#[tactic(auto, unfolding(crate::specs::Reading::padded_at, sl_items::specs::Reading::bytes_at))]
fn take_body<'a>(cursor: &mut Cursor<'a>) -> Result<&'a [u8], Short>
    ensures exact { Gives (λ b. (b.now, cursor.new.rest)) result (padded_at cursor.old.rest) }
{
    let bytes = cursor.rest();
    let body = cursor.opaque(u32::MAX)?;
    if is_zero(padding_behind(bytes, body)) {
        Ok(body)
    } else {
        Err(Short)
    }
}

/// Bytes of any length, whose padding is zero.
pub fn take_padded(alloc: Global, cursor: &mut Cursor<'_>) -> Result<Bytes, ArgsFault>
    ensures exact { GivesArgs (λ b. (b, cursor.new.rest)) result (padded_at cursor.old.rest) }
{
    let body = take_body(cursor).map_err(garbage)?;
    match Vec::from_slice(alloc, body) {
        Ok(items) => Ok(Bytes::new(items)),
        Err(_) => Err(ArgsFault::NoMemory),
    }
}

/// A name, whose padding is zero.
pub fn take_padded_name(alloc: Global, cursor: &mut Cursor<'_>) -> Result<Name, ArgsFault>
    ensures exact { GivesArgs (λ n. (n, cursor.new.rest)) result (padded_at cursor.old.rest) }
{
    let bytes = take_padded(alloc, cursor)?;
    Ok(Name::new(bytes))
}

/// Whether a number may be an object's: from 1 to 2^46 - 1.
pub fn is_fileid(number: u64) -> bool
    ensures { result ≡ is_id number }
{
    0 < number && number < 1 << 46
}

/// A fileid.
#[tactic(auto, unfolding(crate::specs::Reading::id_at))]
pub fn take_id(cursor: &mut Cursor<'_>) -> Result<u64, Short>
    ensures exact { Gives (λ n. (n, cursor.new.rest)) result (id_at cursor.old.rest) }
{
    let number = cursor.take_u64()?;
    if is_fileid(number) {
        Ok(number)
    } else {
        Err(Short)
    }
}

/// A fileid, or 0 for none.
#[tactic(auto, unfolding(crate::specs::Reading::id_or_none_at))]
pub fn take_id_or_none(cursor: &mut Cursor<'_>) -> Result<u64, Short>
    ensures exact { Gives (λ n. (n, cursor.new.rest)) result (id_or_none_at cursor.old.rest) }
{
    let number = cursor.take_u64()?;
    if number < 1 << 46 {
        Ok(number)
    } else {
        Err(Short)
    }
}

/// The attributes of an object.
#[tactic(auto, unfolding(crate::specs::Reading::object_at))]
pub fn take_object(cursor: &mut Cursor<'_>) -> Result<Fattr, Short>
    ensures exact { Gives (λ a. (a, cursor.new.rest)) result (object_at cursor.old.rest) }
{
    let attributes = take_fattr(cursor)?;
    if is_fileid(attributes.fileid) {
        Ok(attributes)
    } else {
        Err(Short)
    }
}
