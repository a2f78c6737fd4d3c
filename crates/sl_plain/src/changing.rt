//! The procedures that change something, from the bytes of their handles on.
ghost use Rattle.std.specs.Prelude.{◌≡◌, ◌≤◌, ◌^◌, ◌<◌, length, take, IfOk};
ghost use Rattle.sl_model.specs.Plan.{run};
ghost use Rattle.sl_model.specs.Volume.{sight};
ghost use Rattle.sl_model.specs.Looking as looking;
ghost use Rattle.sl_model.specs.Changing as changing;
ghost use Rattle.sl_model.specs.Procedures.{with_handle, with_handles};
ghost use Rattle.sl_plain.specs.Outcomes.{Gives};

use crate::checks::{is_reg, refuse};
use crate::halt::Halt;
use crate::handles::read_handle;
use crate::names::Place;
use crate::outcome::Outcome;
use crate::volume::Volume;
use crate::walks::{self, object, see};
use crate::{creating, effects, renaming};
use sl_defs::{Bytes, Choice, NoMemory, Time};
use sl_model::Node;
use sl_types::{CreateHow, Cred, Fh, Handle, Name, NodeData, Sattr, Stable, Status};
use std::alloc::Global;

/// SETATTR.
pub(crate) fn setattr(
    alloc: Global,
    volume: &Volume,
    cred: &Cred,
    file: &Fh,
    s: Sattr,
    guard: Option<Time>,
    now: Time,
) -> Result<Outcome, Halt>
    ensures { Gives result (run (sight volume.now) (with_handle file.now (λ h. changing.setattr cred.now h s guard now))) }
{
    let h = read_handle(file.as_slice())?;
    let n = walks::setattr(volume, cred, h, s, guard, now)?;
    let outcome = effects::setting(alloc, n, s, now)?;
    Ok(outcome)
}

// The bytes up to the count and the end of the unit that the offset lies in.
fn writable(alloc: Global, offset: u64, count: u32, bytes: &[u8]) -> Result<Bytes, NoMemory>
    ensures taken { IfOk result (λ front. front ≡ take (changing.writable offset count) bytes.now) }
    ensures few { IfOk result (λ front. length front ≤ 8192) }
{
    let up_to_unit = 8192 - offset % 8192;
    let most = u64::from(count).min(up_to_unit) as usize;
    let front = match bytes.get(..most) {
        Some(front) => front,
        None => bytes,
    };
    match Vec::from_slice(alloc, front) {
        Ok(front) => Ok(Bytes::new(front)),
        Err(_) => Err(NoMemory),
    }
}

// A write of some bytes.
fn write_at(
    alloc: Global,
    volume: &Volume,
    h: Handle,
    offset: u64,
    count: u32,
    asked: Stable,
    bytes: &[u8],
    now: Time,
    choice: Choice,
) -> Result<Outcome, Halt>
    ensures { Gives result (run (sight volume.now) (changing.write_at h offset count asked bytes.now now choice)) }
{
    refuse(offset >= 1 << 40, Status::FBig)?;
    let n = see(volume, h.fileid)?;
    let front = writable(alloc, offset, count, bytes)?;
    let outcome = writing(
        alloc,
        n,
        offset,
        front,
        asked,
        volume.verifier(),
        now,
        choice.kept,
    )?;
    Ok(outcome)
}

// An unstable write or a stable one, as it is asked for and chosen.
fn writing(
    alloc: Global,
    n: Node,
    offset: u64,
    bytes: Bytes,
    asked: Stable,
    verifier: u64,
    now: Time,
    kept: bool,
) -> Result<Outcome, NoMemory>
    requires offset { offset < 2 ^ 40 }
    requires few { length bytes ≤ 8192 }
    ensures { IfOk result (λ o. o ≡ changing.writing n offset bytes asked verifier now kept) }
{
    if is_unstable(asked) && !kept {
        effects::unstable_write(alloc, n, offset, bytes, verifier, now)
    } else {
        effects::stable_write(alloc, n, offset, bytes, verifier, now)
    }
}

fn is_unstable(asked: Stable) -> bool
    ensures { result ≡ changing.is_unstable asked }
{
    match asked {
        Stable::Unstable => true,
        Stable::DataSync => false,
        Stable::FileSync => false,
    }
}

// A write of no bytes.
fn write_none(alloc: Global, volume: &Volume, h: Handle, asked: Stable) -> Result<Outcome, Halt>
    ensures { Gives result (run (sight volume.now) (changing.write_none h asked)) }
{
    let n = see(volume, h.fileid)?;
    let answer = effects::wrote(n, 0, asked, volume.verifier());
    Ok(Outcome::answering(alloc, answer))
}

#[tactic(auto, unfolding(sl_model::specs::Changing::write_in))]
fn write_in(
    alloc: Global,
    volume: &Volume,
    h: Handle,
    offset: u64,
    count: u32,
    asked: Stable,
    bytes: &[u8],
    now: Time,
    choice: Choice,
) -> Result<Outcome, Halt>
    ensures { Gives result (run (sight volume.now) (changing.write_in h offset count asked bytes.now now choice)) }
{
    if count == 0 {
        write_none(alloc, volume, h, asked)
    } else {
        write_at(alloc, volume, h, offset, count, asked, bytes, now, choice)
    }
}

/// WRITE.
pub(crate) fn write(
    alloc: Global,
    volume: &Volume,
    cred: &Cred,
    file: &Fh,
    offset: u64,
    count: u32,
    asked: Stable,
    bytes: &Bytes,
    now: Time,
    choice: Choice,
) -> Result<Outcome, Halt>
    ensures { Gives result (run (sight volume.now) (with_handle file.now (λ h. changing.write cred.now h offset count asked bytes.now now choice))) }
{
    let h = read_handle(file.as_slice())?;
    object(volume, cred, h)?;
    let bytes = bytes.as_slice();
    refuse(
        !is_reg(h.kind) || bytes.len() < count as usize,
        Status::Inval,
    )?;
    write_in(alloc, volume, h, offset, count, asked, bytes, now, choice)
}

/// CREATE.
pub(crate) fn create(
    alloc: Global,
    volume: &Volume,
    cred: &Cred,
    dir: &Fh,
    name: &Name,
    how: CreateHow,
    now: Time,
    choice: Choice,
) -> Result<Outcome, Halt>
    ensures { Gives result (run (sight volume.now) (with_handle dir.now (λ h. changing.create cred.now h name.now how now choice))) }
{
    let h = read_handle(dir.as_slice())?;
    let place = Place::of(alloc, h.fileid, name.as_slice())?;
    let at = creating::create(volume, cred, h, &place, how, now, choice)?;
    effects::created(alloc, at, name.as_slice(), how, cred, now, choice.fileid)
}

/// MKDIR.
pub(crate) fn mkdir(
    alloc: Global,
    volume: &Volume,
    cred: &Cred,
    dir: &Fh,
    name: &Name,
    s: Sattr,
    now: Time,
    choice: Choice,
) -> Result<Outcome, Halt>
    ensures { Gives result (run (sight volume.now) (with_handle dir.now (λ h. changing.mkdir cred.now h name.now s now choice))) }
{
    let h = read_handle(dir.as_slice())?;
    let place = Place::of(alloc, h.fileid, name.as_slice())?;
    let d = walks::mkdir(volume, cred, h, &place, s, now, choice)?;
    effects::making_directory(alloc, d, name.as_slice(), s, cred, now, choice.fileid)
}

/// SYMLINK.
pub(crate) fn symlink(
    alloc: Global,
    volume: &Volume,
    cred: &Cred,
    dir: &Fh,
    name: &Name,
    s: Sattr,
    path: &Bytes,
    now: Time,
    choice: Choice,
) -> Result<Outcome, Halt>
    ensures { Gives result (run (sight volume.now) (with_handle dir.now (λ h. changing.symlink cred.now h name.now s path.now now choice))) }
{
    let h = read_handle(dir.as_slice())?;
    let place = Place::of(alloc, h.fileid, name.as_slice())?;
    let d = creating::symlink(volume, cred, h, &place, s, path.as_slice(), now, choice)?;
    let path = path.copy()?;
    effects::making_link(alloc, d, name.as_slice(), s, cred, path, now, choice.fileid)
}

/// MKNOD.
pub(crate) fn mknod(
    alloc: Global,
    volume: &Volume,
    cred: &Cred,
    dir: &Fh,
    name: &Name,
    what: NodeData,
    now: Time,
    choice: Choice,
) -> Result<Outcome, Halt>
    ensures { Gives result (run (sight volume.now) (with_handle dir.now (λ h. changing.mknod cred.now h name.now what now choice))) }
{
    let h = read_handle(dir.as_slice())?;
    let place = Place::of(alloc, h.fileid, name.as_slice())?;
    let (d, special) = creating::mknod(volume, cred, h, &place, what, now, choice)?;
    effects::making_special(alloc, d, name.as_slice(), special, cred, now, choice.fileid)
}

/// REMOVE.
pub(crate) fn remove(
    alloc: Global,
    volume: &Volume,
    cred: &Cred,
    dir: &Fh,
    name: &Name,
    now: Time,
) -> Result<Outcome, Halt>
    ensures { Gives result (run (sight volume.now) (with_handle dir.now (λ h. changing.remove cred.now h name.now now))) }
{
    let h = read_handle(dir.as_slice())?;
    let place = Place::of(alloc, h.fileid, name.as_slice())?;
    let (d, n) = walks::remove(volume, cred, h, &place, now)?;
    let outcome = effects::removal(alloc, d, name.as_slice(), n, now)?;
    Ok(outcome)
}

/// RMDIR.
pub(crate) fn rmdir(
    alloc: Global,
    volume: &Volume,
    cred: &Cred,
    dir: &Fh,
    name: &Name,
    now: Time,
) -> Result<Outcome, Halt>
    ensures { Gives result (run (sight volume.now) (with_handle dir.now (λ h. changing.rmdir cred.now h name.now now))) }
{
    let h = read_handle(dir.as_slice())?;
    let place = Place::of(alloc, h.fileid, name.as_slice())?;
    let (d, n) = walks::rmdir(volume, cred, h, &place, now)?;
    let outcome = effects::directory_removal(alloc, d, name.as_slice(), n, now)?;
    Ok(outcome)
}

/// RENAME.
pub(crate) fn rename(
    alloc: Global,
    volume: &Volume,
    cred: &Cred,
    from: &Fh,
    name: &Name,
    to: &Fh,
    to_name: &Name,
    now: Time,
) -> Result<Outcome, Halt>
    ensures { Gives result (run (sight volume.now) (with_handles from.now to.now (λ a b. changing.rename cred.now a name.now b to_name.now now))) }
{
    let a = read_handle(from.as_slice())?;
    let b = read_handle(to.as_slice())?;
    let place = Place::of(alloc, a.fileid, name.as_slice())?;
    let to_place = Place::of(alloc, b.fileid, to_name.as_slice())?;
    let at = renaming::rename(volume, cred, a, &place, b, &to_place, now)?;
    effects::renamed(alloc, at, name.as_slice(), to_name.as_slice(), now)
}

/// LINK.
pub(crate) fn link(
    alloc: Global,
    volume: &Volume,
    cred: &Cred,
    file: &Fh,
    dir: &Fh,
    name: &Name,
    now: Time,
) -> Result<Outcome, Halt>
    ensures { Gives result (run (sight volume.now) (with_handles file.now dir.now (λ h to. changing.link cred.now h to name.now now))) }
{
    let h = read_handle(file.as_slice())?;
    let to = read_handle(dir.as_slice())?;
    let place = Place::of(alloc, to.fileid, name.as_slice())?;
    let (d, n) = walks::link(volume, cred, h, to, &place, now)?;
    effects::linking(alloc, d, name.as_slice(), n, now)
}

/// COMMIT.
pub(crate) fn commit(
    alloc: Global,
    volume: &Volume,
    cred: &Cred,
    file: &Fh,
) -> Result<Outcome, Halt>
    ensures { Gives result (run (sight volume.now) (with_handle file.now (λ h. looking.commit cred.now h))) }
{
    let h = read_handle(file.as_slice())?;
    let n = walks::commit(volume, cred, h)?;
    let outcome = effects::committing(alloc, n, volume.verifier())?;
    Ok(outcome)
}
