//! The record of what changed on the disks in memory.
ghost use Rattle.std.specs.Prelude.{◌≡◌, IfOk};
ghost use Rattle.sl_disk.specs.Performing.{when_done, when_failed, when_stopped};

use crate::steps::{Edit, Step};
use sl_defs::NoMemory;

/// What happened to a disk.
#[derive(Drop)]
pub(crate) enum Change {
    /// A step was taken, and is not synced.
    Took(Step),
    /// All steps were synced.
    Synced,
    /// The device stopped between two steps, and left this image.
    Left(u64),
    /// The device stopped behind a step, and left this image.
    StoppedAt(Step, u64),
}

/// A change, and the disk that it happened to.
#[derive(Drop)]
pub(crate) struct Call {
    pub(crate) disk: u8,
    pub(crate) change: Change,
}

impl Change {
    pub(crate) fn copy(&self) -> Result<Change, NoMemory>
        ensures { IfOk result (λ copy. copy ≡ self.now) }
    {
        match self {
            Change::Took(step) => Ok(Change::Took(step.copy()?)),
            Change::Synced => Ok(Change::Synced),
            Change::Left(image) => Ok(Change::Left(*image)),
            Change::StoppedAt(step, image) => Ok(Change::StoppedAt(step.copy()?, *image)),
        }
    }
}

/// The work of a device call.
#[derive(Drop)]
pub(crate) enum Work {
    /// It only looks.
    Look,
    /// It alters the contents.
    Alter(Edit),
    /// It syncs.
    Sync,
}

impl Work {
    /// What happens to the disk where the call does its work.
    pub(crate) fn when_done(self) -> Option<Change>
        ensures { result ≡ when_done self }
    {
        match self {
            Work::Look => None,
            Work::Alter(edit) => Some(Change::Took(Step {
                edit,
                failed: false,
            })),
            Work::Sync => Some(Change::Synced),
        }
    }

    /// What happens to the disk where the device fails.
    pub(crate) fn when_failed(self) -> Option<Change>
        ensures { result ≡ when_failed self }
    {
        match self {
            Work::Look | Work::Sync => None,
            Work::Alter(edit) => Some(Change::Took(Step { edit, failed: true })),
        }
    }

    /// What happens to the disk where the device stops inside the call, and leaves this image.
    pub(crate) fn when_stopped(self, image: u64) -> Option<Change>
        ensures { result ≡ when_stopped image self }
    {
        match self {
            Work::Look | Work::Sync => Some(Change::Left(image)),
            Work::Alter(edit) => {
                let step = Step {
                    edit,
                    failed: false,
                };
                Some(Change::StoppedAt(step, image))
            }
        }
    }
}
