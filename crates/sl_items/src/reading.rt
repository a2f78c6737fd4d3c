//! Items at the place of a cursor.
ghost use Rattle.std.specs.Prelude.{◌≡◌};
ghost use Rattle.sl_defs.specs.Items.{Gives, u32_at, u64_at};
ghost use Rattle.sl_defs.specs.Parts.{optional_at};
ghost use Rattle.sl_items.specs.Reading.{GivesArgs, bytes_at, fattr_at, fh_at, kind_at, sattr_at, set_time_at, stable_at, stable_of, time_at};
ghost use Rattle.sl_types.specs.Handles.{kind_of};
ghost use Rattle.sl_types.specs.declared.fault.ArgsFault.TheVariants.{Garbage};

use sl_types::{ArgsFault, Bytes, Fattr, Fh, Kind, Name, Sattr, SetTime, Stable, Time};
use sl_xdr::{Cursor, Short};
use std::alloc::Global;

/// What can't be read isn't in the grammar.
fn garbage(_short: Short) -> ArgsFault
    ensures { result ≡ Garbage }
{
    ArgsFault::Garbage
}

fn kind_of_number(number: u32) -> Result<Kind, Short>
    ensures { Gives (λ k. k) result (kind_of number) }
{
    match number {
        1 => Ok(Kind::Reg),
        2 => Ok(Kind::Dir),
        3 => Ok(Kind::Blk),
        4 => Ok(Kind::Chr),
        5 => Ok(Kind::Lnk),
        6 => Ok(Kind::Sock),
        7 => Ok(Kind::Fifo),
        _ => Err(Short),
    }
}

/// A kind.
#[tactic(auto, unfolding(crate::specs::Reading::kind_at))]
pub fn take_kind(cursor: &mut Cursor<'_>) -> Result<Kind, Short>
    ensures exact { Gives (λ k. (k, cursor.new.rest)) result (kind_at cursor.old.rest) }
{
    let number = cursor.take_u32()?;
    kind_of_number(number)
}

fn stable_of_number(number: u32) -> Result<Stable, Short>
    ensures { Gives (λ s. s) result (stable_of number) }
{
    match number {
        0 => Ok(Stable::Unstable),
        1 => Ok(Stable::DataSync),
        2 => Ok(Stable::FileSync),
        _ => Err(Short),
    }
}

/// How stable a WRITE is.
#[tactic(auto, unfolding(crate::specs::Reading::stable_at))]
pub fn take_stable(cursor: &mut Cursor<'_>) -> Result<Stable, Short>
    ensures exact { Gives (λ s. (s, cursor.new.rest)) result (stable_at cursor.old.rest) }
{
    let number = cursor.take_u32()?;
    stable_of_number(number)
}

/// A moment. Its nanoseconds may be any number.
#[tactic(auto, unfolding(crate::specs::Reading::time_at))]
pub fn take_time(cursor: &mut Cursor<'_>) -> Result<Time, Short>
    ensures exact { Gives (λ t. (t, cursor.new.rest)) result (time_at cursor.old.rest) }
{
    let sec = cursor.take_u32()?;
    let nsec = cursor.take_u32()?;
    Ok(Time { sec, nsec })
}

/// What a time is set to.
#[tactic(auto, unfolding(crate::specs::Reading::set_time_at, crate::specs::Reading::given_time_at))]
pub fn take_set_time(cursor: &mut Cursor<'_>) -> Result<SetTime, Short>
    ensures exact { Gives (λ t. (t, cursor.new.rest)) result (set_time_at cursor.old.rest) }
{
    match cursor.take_u32()? {
        0 => Ok(SetTime::Keep),
        1 => Ok(SetTime::Server),
        2 => {
            let time = take_time(cursor)?;
            Ok(SetTime::Client(time))
        }
        _ => Err(Short),
    }
}

/// A number of four bytes that may be absent.
#[tactic(auto, unfolding(sl_defs::specs::Parts::optional_at, sl_defs::specs::Parts::part_at))]
pub fn take_optional_u32(cursor: &mut Cursor<'_>) -> Result<Option<u32>, Short>
    ensures exact { Gives (λ n. (n, cursor.new.rest)) result (optional_at u32_at cursor.old.rest) }
{
    match cursor.take_u32()? {
        0 => Ok(None),
        1 => {
            let number = cursor.take_u32()?;
            Ok(Some(number))
        }
        _ => Err(Short),
    }
}

/// A number of eight bytes that may be absent.
#[tactic(auto, unfolding(sl_defs::specs::Parts::optional_at, sl_defs::specs::Parts::part_at))]
pub fn take_optional_u64(cursor: &mut Cursor<'_>) -> Result<Option<u64>, Short>
    ensures exact { Gives (λ n. (n, cursor.new.rest)) result (optional_at u64_at cursor.old.rest) }
{
    match cursor.take_u32()? {
        0 => Ok(None),
        1 => {
            let number = cursor.take_u64()?;
            Ok(Some(number))
        }
        _ => Err(Short),
    }
}

/// A moment that may be absent.
#[tactic(auto, unfolding(sl_defs::specs::Parts::optional_at, sl_defs::specs::Parts::part_at))]
pub fn take_optional_time(cursor: &mut Cursor<'_>) -> Result<Option<Time>, Short>
    ensures exact { Gives (λ t. (t, cursor.new.rest)) result (optional_at time_at cursor.old.rest) }
{
    match cursor.take_u32()? {
        0 => Ok(None),
        1 => {
            let time = take_time(cursor)?;
            Ok(Some(time))
        }
        _ => Err(Short),
    }
}

/// The attributes that a call sets.
#[tactic(auto, unfolding(crate::specs::Reading::sattr_at))]
pub fn take_sattr(cursor: &mut Cursor<'_>) -> Result<Sattr, Short>
    ensures exact { Gives (λ s. (s, cursor.new.rest)) result (sattr_at cursor.old.rest) }
{
    let mode = take_optional_u32(cursor)?;
    let uid = take_optional_u32(cursor)?;
    let gid = take_optional_u32(cursor)?;
    let size = take_optional_u64(cursor)?;
    let atime = take_set_time(cursor)?;
    let mtime = take_set_time(cursor)?;
    Ok(Sattr {
        mode,
        uid,
        gid,
        size,
        atime,
        mtime,
    })
}

/// The attributes of an object.
#[tactic(auto, unfolding(crate::specs::Reading::fattr_at, crate::specs::Reading::fattr_front_at, crate::specs::Reading::fattr_place_at, crate::specs::Reading::fattr_times_at))]
pub fn take_fattr(cursor: &mut Cursor<'_>) -> Result<Fattr, Short>
    ensures exact { Gives (λ a. (a, cursor.new.rest)) result (fattr_at cursor.old.rest) }
{
    let kind = take_kind(cursor)?;
    let mode = cursor.take_u32()?;
    let nlink = cursor.take_u32()?;
    let uid = cursor.take_u32()?;
    let gid = cursor.take_u32()?;
    let size = cursor.take_u64()?;
    let used = cursor.take_u64()?;
    let major = cursor.take_u32()?;
    let minor = cursor.take_u32()?;
    let fsid = cursor.take_u64()?;
    let fileid = cursor.take_u64()?;
    let atime = take_time(cursor)?;
    let mtime = take_time(cursor)?;
    let ctime = take_time(cursor)?;
    Ok(Fattr {
        kind,
        mode,
        nlink,
        uid,
        gid,
        size,
        used,
        major,
        minor,
        fsid,
        fileid,
        atime,
        mtime,
        ctime,
    })
}

/// The attributes of an object, that may be absent.
#[tactic(auto, unfolding(sl_defs::specs::Parts::optional_at, sl_defs::specs::Parts::part_at))]
pub fn take_optional_fattr(cursor: &mut Cursor<'_>) -> Result<Option<Fattr>, Short>
    ensures exact { Gives (λ a. (a, cursor.new.rest)) result (optional_at fattr_at cursor.old.rest) }
{
    match cursor.take_u32()? {
        0 => Ok(None),
        1 => {
            let attributes = take_fattr(cursor)?;
            Ok(Some(attributes))
        }
        _ => Err(Short),
    }
}

/// Bytes of any length. Their padding isn't looked at.
#[tactic(auto, unfolding(crate::specs::Reading::bytes_at))]
pub fn take_bytes(alloc: Global, cursor: &mut Cursor<'_>) -> Result<Bytes, ArgsFault>
    ensures exact { GivesArgs (λ b. (b, cursor.new.rest)) result (bytes_at cursor.old.rest) }
{
    let body = cursor.opaque(u32::MAX).map_err(garbage)?;
    match Vec::from_slice(alloc, body) {
        Ok(items) => Ok(Bytes::new(items)),
        Err(_) => Err(ArgsFault::NoMemory),
    }
}

/// A name.
pub fn take_name(alloc: Global, cursor: &mut Cursor<'_>) -> Result<Name, ArgsFault>
    ensures exact { GivesArgs (λ n. (n, cursor.new.rest)) result (bytes_at cursor.old.rest) }
{
    let bytes = take_bytes(alloc, cursor)?;
    Ok(Name::new(bytes))
}

/// A file handle of at most 64 bytes.
#[tactic(auto, unfolding(crate::specs::Reading::fh_at))]
pub fn take_fh(alloc: Global, cursor: &mut Cursor<'_>) -> Result<Fh, ArgsFault>
    ensures exact { GivesArgs (λ f. (f, cursor.new.rest)) result (fh_at cursor.old.rest) }
{
    let body = cursor.opaque(64).map_err(garbage)?;
    match Vec::from_slice(alloc, body) {
        Ok(items) => Ok(Fh::new(Bytes::new(items))),
        Err(_) => Err(ArgsFault::NoMemory),
    }
}

/// A file handle that may be absent.
#[tactic(auto, unfolding(sl_defs::specs::Parts::optional_at, sl_defs::specs::Parts::part_at))]
pub fn take_optional_fh(alloc: Global, cursor: &mut Cursor<'_>) -> Result<Option<Fh>, ArgsFault>
    ensures exact { GivesArgs (λ f. (f, cursor.new.rest)) result (optional_at fh_at cursor.old.rest) }
{
    match cursor.take_u32().map_err(garbage)? {
        0 => Ok(None),
        1 => {
            let handle = take_fh(alloc, cursor)?;
            Ok(Some(handle))
        }
        _ => Err(ArgsFault::Garbage),
    }
}
