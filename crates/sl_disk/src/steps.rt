//! The steps of a disk in memory, and how its images show them.
ghost use Rattle.std.specs.Prelude.{◌≡◌, ◌+◌, ◌-◌, ◌*◌, ◌/◌, ◌%◌, ◌<◌, ◌≤◌, min, List, length, take, drop, OnOk, OnErr, IfOk};
ghost use Rattle.sl_disk.specs.Shelf.{padded, put, written};
ghost use Rattle.sl_disk.specs.Images.{junk, as_read, half, spoiled, shown, after_steps};

use sl_defs::{Bytes, NoMemory};

/// What a step does to the contents.
#[derive(Drop)]
pub(crate) enum Edit {
    /// It writes these bytes at this place.
    Write(u64, Bytes),
    /// It cuts the contents to this length.
    Cut(u64),
}

/// A write or a cut since the last sync.
#[derive(Drop)]
pub(crate) struct Step {
    pub(crate) edit: Edit,
    /// The device failed, so that a read gives what it gave.
    pub(crate) failed: bool,
}

impl Edit {
    pub(crate) fn copy(&self) -> Result<Edit, NoMemory>
        ensures { IfOk result (λ copy. copy ≡ self.now) }
    {
        match self {
            Edit::Write(at, bytes) => Ok(Edit::Write(*at, bytes.copy()?)),
            Edit::Cut(size) => Ok(Edit::Cut(*size)),
        }
    }
}

impl Step {
    pub(crate) fn copy(&self) -> Result<Step, NoMemory>
        ensures { IfOk result (λ copy. copy ≡ self.now) }
    {
        Ok(Step {
            edit: self.edit.copy()?,
            failed: self.failed,
        })
    }
}

/// Fills up with zeros, to a length in bytes.
fn pad(file: &mut Vec<u8>, size: usize) -> Result<(), NoMemory>
    ensures ok { OnOk result (file.new.items ≡ padded file.old.items size) }
    ensures err { OnErr result (file.new.items ≡ file.old.items) }
{
    if file.len() < size && file.resize(size, 0).is_err() {
        return Err(NoMemory);
    }
    Ok(())
}

/// Puts these bytes in the place of as many.
fn overwrite(file: &mut Vec<u8>, at: usize, bytes: &[u8])
    requires { at + length bytes.now ≤ length file.old.items }
    ensures { file.new.items ≡ put file.old.items at bytes.now }
{
    file[at..at + bytes.len()].copy_from_slice(bytes);
}

/// Puts the junk of this image from one place to another.
#[tactic(auto, using(crate::proofs::Spoils::spoils_more, crate::proofs::Spoils::spoils_none))]
fn spoil(file: &mut Vec<u8>, image: u64, from: usize, to: usize)
    requires order { from ≤ to }
    requires within { to ≤ length file.old.items }
    ensures { file.new.items ≡ put file.old.items from (junk image from (to - from)) }
{
    for place in from..to {
        file[place] = junk_at(image, place);
    }
}

fn junk_at(image: u64, place: usize) -> u8
    ensures { result ≡ (167 * image + place) % 256 }
{
    ((image % 256 * 167 + place as u64 % 256) % 256) as u8
}

/// What a read gives after the step.
pub(crate) fn read_after(file: &mut Vec<u8>, step: &Step) -> Result<(), NoMemory>
    ensures ok { OnOk result (file.new.items ≡ as_read step.now.edit step.now.failed file.old.items) }
    ensures err { OnErr result (file.new.items ≡ file.old.items) }
{
    if step.failed {
        return Ok(());
    }
    match &step.edit {
        Edit::Write(at, bytes) => {
            let (at, bytes) = (*at as usize, bytes.as_slice());
            let Some(end) = at.checked_add(bytes.len()) else {
                return Err(NoMemory);
            };
            pad(file, end)?;
            overwrite(file, at, bytes);
        }
        Edit::Cut(size) => file.truncate(*size as usize),
    }
    Ok(())
}

/// The first half of what the step writes, in a file that is as long as the step makes it.
fn halve(file: &mut Vec<u8>, step: &Step) -> Result<(), NoMemory>
    ensures ok { OnOk result (file.new.items ≡ half step.now.edit step.now.failed file.old.items) }
{
    match &step.edit {
        Edit::Write(at, bytes) => {
            let (at, bytes) = (*at as usize, bytes.as_slice());
            let some = bytes.len() / 2;
            if step.failed {
                let from = at.min(file.len());
                let some = some.min(file.len() - from);
                overwrite(file, from, &bytes[..some]);
            } else {
                let Some(end) = at.checked_add(bytes.len()) else {
                    return Err(NoMemory);
                };
                pad(file, end)?;
                overwrite(file, at, &bytes[..some]);
            }
        }
        Edit::Cut(size) => {
            if !step.failed {
                file.truncate(*size as usize);
            }
        }
    }
    Ok(())
}

/// Junk in the whole range of the step, in a file that is as long as the step makes it.
fn spoil_range(file: &mut Vec<u8>, step: &Step, image: u64) -> Result<(), NoMemory>
    ensures ok { OnOk result (file.new.items ≡ spoiled image step.now.edit step.now.failed file.old.items) }
{
    match &step.edit {
        Edit::Write(at, bytes) => {
            let from = (*at as usize).min(file.len());
            let Some(end) = (*at as usize).checked_add(bytes.as_slice().len()) else {
                return Err(NoMemory);
            };
            if step.failed {
                let to = end.min(file.len());
                spoil(file, image, from, to);
            } else {
                pad(file, end)?;
                spoil(file, image, from, end);
            }
        }
        Edit::Cut(size) => {
            if step.failed {
                let (from, to) = ((*size as usize).min(file.len()), file.len());
                spoil(file, image, from, to);
            } else {
                file.truncate(*size as usize);
            }
        }
    }
    Ok(())
}

/// Makes of an image so far the same image one step on.
pub(crate) fn show(file: &mut Vec<u8>, step: &Step, image: u64) -> Result<(), NoMemory>
    ensures ok { OnOk result (file.new.items ≡ shown image step.now.edit step.now.failed file.old.items) }
{
    match image {
        0 => Ok(()),
        1 => read_after(file, step),
        2 => halve(file, step),
        _ => spoil_range(file, step, image),
    }
}

/// The image of this number: the contents at the last sync, and each of the steps since as the image shows it.
pub(crate) fn show_all(synced: Vec<u8>, steps: &[Step], image: u64) -> Result<Vec<u8>, NoMemory>
    ensures { IfOk result (λ left. left.items ≡ after_steps image synced.items steps.now) }
{
    let mut left = synced;
    for step in steps {
        show(&mut left, step, image)?;
    }
    Ok(left)
}
