//! Attributes as the bytes that a packet has.
ghost use Rattle.std.specs.Prelude.{◌≡◌, ◌+◌, ◌≤◌, ◌++◌, length};
ghost use Rattle.sl_defs.specs.Items.{u32_text, u64_text};
ghost use Rattle.sl_items.specs.Spelling.{fattr_front_text, fattr_place_text, fattr_text, fattr_times_text, time_text};
ghost use Rattle.sl_types.specs.Numbers.{kind_number};
ghost use Rattle.sl_edit.specs.Words.{Filled};

use sl_types::{Fattr, Time};

/// How many bytes attributes take (RFC 1813, section 2.5, `fattr3`).
pub(crate) const FATTR: usize = 84;

/// Writes an item from a place on, and gives the place behind it.
fn fill(out: &mut [u8], at: usize, item: &[u8]) -> usize
    requires { at + length item.now ≤ length out.old }
    ensures filled { Filled out.old out.new at item.now }
    ensures next { result ≡ at + length item.now }
{
    let next = at + item.len();
    out[at..next].copy_from_slice(item);
    next
}

#[tactic(auto, unfolding(sl_defs::specs::Items::u32_text))]
fn fill_u32(out: &mut [u8], at: usize, n: u32) -> usize
    requires { at + 4 ≤ length out.old }
    ensures filled { Filled out.old out.new at (u32_text n) }
    ensures next { result ≡ at + 4 }
{
    fill(out, at, &n.to_be_bytes())
}

#[tactic(auto, unfolding(sl_defs::specs::Items::u64_text))]
fn fill_u64(out: &mut [u8], at: usize, n: u64) -> usize
    requires { at + 8 ≤ length out.old }
    ensures filled { Filled out.old out.new at (u64_text n) }
    ensures next { result ≡ at + 8 }
{
    fill(out, at, &n.to_be_bytes())
}

#[tactic(auto, unfolding(sl_items::specs::Spelling::time_text), using(crate::proofs::Fills::fills))]
fn fill_time(out: &mut [u8], at: usize, time: Time) -> usize
    requires { at + 8 ≤ length out.old }
    ensures filled { Filled out.old out.new at (time_text time) }
    ensures next { result ≡ at + 8 }
{
    let at = fill_u32(out, at, time.sec);
    fill_u32(out, at, time.nsec)
}

#[tactic(auto, using(crate::proofs::Fills::fills))]
fn fill_owner(out: &mut [u8], at: usize, a: &Fattr) -> usize
    requires { at + 20 ≤ length out.old }
    ensures filled { Filled out.old out.new at (u32_text (kind_number a.now.kind) ++ (u32_text a.now.mode ++ (u32_text a.now.nlink ++ (u32_text a.now.uid ++ u32_text a.now.gid)))) }
    ensures next { result ≡ at + 20 }
{
    let at = fill_u32(out, at, a.kind.number());
    let at = fill_u32(out, at, a.mode);
    let at = fill_u32(out, at, a.nlink);
    let at = fill_u32(out, at, a.uid);
    fill_u32(out, at, a.gid)
}

#[tactic(auto, unfolding(sl_items::specs::Spelling::fattr_front_text), using(crate::proofs::Fills::fills))]
fn fill_front(out: &mut [u8], at: usize, a: &Fattr) -> usize
    requires { at + 36 ≤ length out.old }
    ensures filled { Filled out.old out.new at (fattr_front_text a.now) }
    ensures next { result ≡ at + 36 }
{
    let at = fill_owner(out, at, a);
    let at = fill_u64(out, at, a.size);
    fill_u64(out, at, a.used)
}

#[tactic(auto, unfolding(sl_items::specs::Spelling::fattr_place_text), using(crate::proofs::Fills::fills))]
fn fill_place(out: &mut [u8], at: usize, a: &Fattr) -> usize
    requires { at + 24 ≤ length out.old }
    ensures filled { Filled out.old out.new at (fattr_place_text a.now) }
    ensures next { result ≡ at + 24 }
{
    let at = fill_u32(out, at, a.major);
    let at = fill_u32(out, at, a.minor);
    let at = fill_u64(out, at, a.fsid);
    fill_u64(out, at, a.fileid)
}

#[tactic(auto, unfolding(sl_items::specs::Spelling::fattr_times_text), using(crate::proofs::Fills::fills))]
fn fill_times(out: &mut [u8], at: usize, a: &Fattr) -> usize
    requires { at + 24 ≤ length out.old }
    ensures filled { Filled out.old out.new at (fattr_times_text a.now) }
    ensures next { result ≡ at + 24 }
{
    let at = fill_time(out, at, a.atime);
    let at = fill_time(out, at, a.mtime);
    fill_time(out, at, a.ctime)
}

/// The bytes of attributes, which take no memory.
#[tactic(auto, unfolding(sl_items::specs::Spelling::fattr_text), using(crate::proofs::Fills::fills))]
pub(crate) fn fattr_bytes(a: &Fattr) -> [u8; FATTR]
    ensures { result ≡ fattr_text a.now }
{
    let mut out = [0; FATTR];
    let at = fill_front(&mut out, 0, a);
    let at = fill_place(&mut out, at, a);
    fill_times(&mut out, at, a);
    out
}
