//! Items at the end of some bytes.
//!
//! A function that writes several items may leave some of them behind what stood there before, where memory ran out.
ghost use Rattle.std.specs.Prelude.{◌≡◌, ◌++◌, ◌<◌, length, take, OnOk, OnErr, IfSome};
ghost use Rattle.sl_defs.specs.Items.{u32_text, u64_text, opaque_text};
ghost use Rattle.sl_defs.specs.Parts.{optional_text};
ghost use Rattle.sl_items.specs.Spelling.{FitsBytes, FitsFh, fattr_front_text, fattr_place_text, fattr_text, fattr_times_text, sattr_text, set_time_text, stable_number, time_text};
ghost use Rattle.sl_types.specs.Numbers.{kind_number};

use sl_types::{Bytes, Fattr, Fh, Kind, Name, Sattr, SetTime, Stable, Time};
use sl_xdr::{NoMemory, put_opaque, put_u32, put_u64};

/// Appends a kind.
pub fn put_kind(out: &mut Vec<u8>, kind: Kind) -> Result<(), NoMemory>
    ensures ok { OnOk result (out.new.items ≡ out.old.items ++ u32_text (kind_number kind)) }
    ensures err { OnErr result (out.new.items ≡ out.old.items) }
{
    let number = match kind {
        Kind::Reg => 1,
        Kind::Dir => 2,
        Kind::Blk => 3,
        Kind::Chr => 4,
        Kind::Lnk => 5,
        Kind::Sock => 6,
        Kind::Fifo => 7,
    };
    put_u32(out, number)
}

/// Appends how stable a WRITE is.
pub fn put_stable(out: &mut Vec<u8>, stable: Stable) -> Result<(), NoMemory>
    ensures ok { OnOk result (out.new.items ≡ out.old.items ++ u32_text (stable_number stable)) }
    ensures err { OnErr result (out.new.items ≡ out.old.items) }
{
    let number = match stable {
        Stable::Unstable => 0,
        Stable::DataSync => 1,
        Stable::FileSync => 2,
    };
    put_u32(out, number)
}

/// Appends a moment.
#[tactic(auto, using(crate::proofs::Appended::appended), unfolding(crate::specs::Spelling::time_text))]
pub fn put_time(out: &mut Vec<u8>, time: Time) -> Result<(), NoMemory>
    ensures ok { OnOk result (out.new.items ≡ out.old.items ++ time_text time) }
    ensures kept { take (length out.old.items) out.new.items ≡ out.old.items }
{
    put_u32(out, time.sec)?;
    put_u32(out, time.nsec)?;
    Ok(())
}

/// Appends what a time is set to.
#[tactic(auto, using(crate::proofs::Appended::appended), unfolding(crate::specs::Spelling::set_time_text))]
pub fn put_set_time(out: &mut Vec<u8>, time: SetTime) -> Result<(), NoMemory>
    ensures ok { OnOk result (out.new.items ≡ out.old.items ++ set_time_text time) }
    ensures kept { take (length out.old.items) out.new.items ≡ out.old.items }
{
    match time {
        SetTime::Keep => put_u32(out, 0),
        SetTime::Server => put_u32(out, 1),
        SetTime::Client(time) => {
            put_u32(out, 2)?;
            put_time(out, time)
        }
    }
}

/// Appends a number of four bytes that may be absent.
#[tactic(auto, using(crate::proofs::Appended::appended), unfolding(sl_defs::specs::Parts::optional_text))]
pub fn put_optional_u32(out: &mut Vec<u8>, number: Option<u32>) -> Result<(), NoMemory>
    ensures ok { OnOk result (out.new.items ≡ out.old.items ++ optional_text u32_text number) }
    ensures kept { take (length out.old.items) out.new.items ≡ out.old.items }
{
    match number {
        None => put_u32(out, 0),
        Some(number) => {
            put_u32(out, 1)?;
            put_u32(out, number)
        }
    }
}

/// Appends a number of eight bytes that may be absent.
#[tactic(auto, using(crate::proofs::Appended::appended), unfolding(sl_defs::specs::Parts::optional_text))]
pub fn put_optional_u64(out: &mut Vec<u8>, number: Option<u64>) -> Result<(), NoMemory>
    ensures ok { OnOk result (out.new.items ≡ out.old.items ++ optional_text u64_text number) }
    ensures kept { take (length out.old.items) out.new.items ≡ out.old.items }
{
    match number {
        None => put_u32(out, 0),
        Some(number) => {
            put_u32(out, 1)?;
            put_u64(out, number)
        }
    }
}

/// Appends a moment that may be absent.
#[tactic(auto, using(crate::proofs::Appended::appended), unfolding(sl_defs::specs::Parts::optional_text))]
pub fn put_optional_time(out: &mut Vec<u8>, time: Option<Time>) -> Result<(), NoMemory>
    ensures ok { OnOk result (out.new.items ≡ out.old.items ++ optional_text time_text time) }
    ensures kept { take (length out.old.items) out.new.items ≡ out.old.items }
{
    match time {
        None => put_u32(out, 0),
        Some(time) => {
            put_u32(out, 1)?;
            put_time(out, time)
        }
    }
}

/// Appends the attributes that a call sets.
#[tactic(auto, using(crate::proofs::Appended::appended), unfolding(crate::specs::Spelling::sattr_text))]
pub fn put_sattr(out: &mut Vec<u8>, sattr: Sattr) -> Result<(), NoMemory>
    ensures ok { OnOk result (out.new.items ≡ out.old.items ++ sattr_text sattr) }
    ensures kept { take (length out.old.items) out.new.items ≡ out.old.items }
{
    put_optional_u32(out, sattr.mode)?;
    put_optional_u32(out, sattr.uid)?;
    put_optional_u32(out, sattr.gid)?;
    put_optional_u64(out, sattr.size)?;
    put_set_time(out, sattr.atime)?;
    put_set_time(out, sattr.mtime)?;
    Ok(())
}

#[tactic(auto, using(crate::proofs::Appended::appended), unfolding(crate::specs::Spelling::fattr_front_text))]
fn put_fattr_front(out: &mut Vec<u8>, fattr: Fattr) -> Result<(), NoMemory>
    ensures ok { OnOk result (out.new.items ≡ out.old.items ++ fattr_front_text fattr) }
    ensures kept { take (length out.old.items) out.new.items ≡ out.old.items }
{
    put_kind(out, fattr.kind)?;
    put_u32(out, fattr.mode)?;
    put_u32(out, fattr.nlink)?;
    put_u32(out, fattr.uid)?;
    put_u32(out, fattr.gid)?;
    put_u64(out, fattr.size)?;
    put_u64(out, fattr.used)?;
    Ok(())
}

#[tactic(auto, using(crate::proofs::Appended::appended), unfolding(crate::specs::Spelling::fattr_place_text))]
fn put_fattr_place(out: &mut Vec<u8>, fattr: Fattr) -> Result<(), NoMemory>
    ensures ok { OnOk result (out.new.items ≡ out.old.items ++ fattr_place_text fattr) }
    ensures kept { take (length out.old.items) out.new.items ≡ out.old.items }
{
    put_u32(out, fattr.major)?;
    put_u32(out, fattr.minor)?;
    put_u64(out, fattr.fsid)?;
    put_u64(out, fattr.fileid)?;
    Ok(())
}

#[tactic(auto, using(crate::proofs::Appended::appended), unfolding(crate::specs::Spelling::fattr_times_text))]
fn put_fattr_times(out: &mut Vec<u8>, fattr: Fattr) -> Result<(), NoMemory>
    ensures ok { OnOk result (out.new.items ≡ out.old.items ++ fattr_times_text fattr) }
    ensures kept { take (length out.old.items) out.new.items ≡ out.old.items }
{
    put_time(out, fattr.atime)?;
    put_time(out, fattr.mtime)?;
    put_time(out, fattr.ctime)?;
    Ok(())
}

/// Appends the attributes of an object.
#[tactic(auto, using(crate::proofs::Appended::appended), unfolding(crate::specs::Spelling::fattr_text))]
pub fn put_fattr(out: &mut Vec<u8>, fattr: Fattr) -> Result<(), NoMemory>
    ensures ok { OnOk result (out.new.items ≡ out.old.items ++ fattr_text fattr) }
    ensures kept { take (length out.old.items) out.new.items ≡ out.old.items }
{
    put_fattr_front(out, fattr)?;
    put_fattr_place(out, fattr)?;
    put_fattr_times(out, fattr)?;
    Ok(())
}

/// Appends the attributes of an object, that may be absent.
#[tactic(auto, using(crate::proofs::Appended::appended), unfolding(sl_defs::specs::Parts::optional_text))]
pub fn put_optional_fattr(out: &mut Vec<u8>, fattr: Option<Fattr>) -> Result<(), NoMemory>
    ensures ok { OnOk result (out.new.items ≡ out.old.items ++ optional_text fattr_text fattr) }
    ensures kept { take (length out.old.items) out.new.items ≡ out.old.items }
{
    match fattr {
        None => put_u32(out, 0),
        Some(fattr) => {
            put_u32(out, 1)?;
            put_fattr(out, fattr)
        }
    }
}

/// Appends bytes with zero padding.
pub fn put_bytes(out: &mut Vec<u8>, bytes: &Bytes) -> Result<(), NoMemory>
    requires { FitsBytes bytes.now }
    ensures ok { OnOk result (out.new.items ≡ out.old.items ++ opaque_text bytes.now) }
    ensures err { OnErr result (out.new.items ≡ out.old.items) }
{
    put_opaque(out, bytes.as_slice())
}

/// Appends a name with zero padding.
pub fn put_name(out: &mut Vec<u8>, name: &Name) -> Result<(), NoMemory>
    requires { FitsBytes name.now }
    ensures ok { OnOk result (out.new.items ≡ out.old.items ++ opaque_text name.now) }
    ensures err { OnErr result (out.new.items ≡ out.old.items) }
{
    put_opaque(out, name.as_slice())
}

/// Appends a file handle with zero padding.
pub fn put_fh(out: &mut Vec<u8>, handle: &Fh) -> Result<(), NoMemory>
    requires { FitsFh handle.now }
    ensures ok { OnOk result (out.new.items ≡ out.old.items ++ opaque_text handle.now) }
    ensures err { OnErr result (out.new.items ≡ out.old.items) }
{
    put_opaque(out, handle.as_slice())
}

/// Appends a file handle that may be absent.
#[tactic(auto, using(crate::proofs::Appended::appended), unfolding(sl_defs::specs::Parts::optional_text))]
pub fn put_optional_fh(out: &mut Vec<u8>, handle: &Option<Fh>) -> Result<(), NoMemory>
    requires { IfSome handle.now FitsFh }
    ensures ok { OnOk result (out.new.items ≡ out.old.items ++ optional_text opaque_text handle.now) }
    ensures kept { take (length out.old.items) out.new.items ≡ out.old.items }
{
    match handle {
        None => put_u32(out, 0),
        Some(handle) => {
            put_u32(out, 1)?;
            put_fh(out, handle)
        }
    }
}
