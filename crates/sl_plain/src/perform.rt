//! One call on the volume.
ghost use Rattle.std.specs.Prelude.{◌≡◌};
ghost use Rattle.sl_model.specs.Plan.{run};
ghost use Rattle.sl_model.specs.Volume.{sight};
ghost use Rattle.sl_model.specs.Procedures as procedures;
ghost use Rattle.sl_plain.specs.Outcomes.{Gives};
ghost use Rattle.sl_plain.specs.Performed.{Performs, PerformsOn};

use crate::halt::Halt;
use crate::outcome::Outcome;
use crate::told::no_wcc;
use crate::volume::Volume;
use crate::{changing, looking};
use sl_defs::{Choice, Time};
use sl_types::{AttrFault, Call, Cred, Ended, Reply, Status, WccFault};
use std::alloc::Global;

fn attr_fault(status: Status) -> AttrFault
    ensures { result ≡ procedures.attr_fault status }
{
    AttrFault {
        status,
        attributes: None,
    }
}

fn wcc_fault(status: Status) -> WccFault
    ensures { result ≡ procedures.wcc_fault status }
{
    WccFault {
        status,
        wcc: no_wcc(),
    }
}

// The reply to a call that ends with this status.
fn fault(call: &Call, status: Status) -> Reply
    ensures { result ≡ procedures.fault call.now status }
{
    let wcc = no_wcc();
    match call {
        Call::Null => Reply::Null,
        Call::Getattr { .. } => Reply::Getattr(Err(status)),
        Call::Setattr { .. } => Reply::Setattr { status, wcc },
        Call::Lookup { .. } => Reply::Lookup(Err(attr_fault(status))),
        Call::Access { .. } => Reply::Access(Err(attr_fault(status))),
        Call::Readlink { .. } => Reply::Readlink(Err(attr_fault(status))),
        Call::Read { .. } => Reply::Read(Err(attr_fault(status))),
        Call::Write { .. } => Reply::Write(Err(wcc_fault(status))),
        Call::Create { .. } => Reply::Create(Err(wcc_fault(status))),
        Call::Mkdir { .. } => Reply::Mkdir(Err(wcc_fault(status))),
        Call::Symlink { .. } => Reply::Symlink(Err(wcc_fault(status))),
        Call::Mknod { .. } => Reply::Mknod(Err(wcc_fault(status))),
        Call::Remove { .. } => Reply::Remove { status, wcc },
        Call::Rmdir { .. } => Reply::Rmdir { status, wcc },
        Call::Rename { .. } => Reply::Rename {
            status,
            from: wcc,
            to: wcc,
        },
        Call::Link { .. } => Reply::Link {
            status,
            attributes: None,
            wcc,
        },
        Call::Readdir { .. } => Reply::Readdir(Err(attr_fault(status))),
        Call::Readdirplus { .. } => Reply::Readdirplus(Err(attr_fault(status))),
        Call::Fsstat { .. } => Reply::Fsstat(Err(attr_fault(status))),
        Call::Fsinfo { .. } => Reply::Fsinfo(Err(attr_fault(status))),
        Call::Pathconf { .. } => Reply::Pathconf(Err(attr_fault(status))),
        Call::Commit { .. } => Reply::Commit(Err(wcc_fault(status))),
    }
}

// What a call changes and answers.
fn outcome(
    alloc: Global,
    volume: &Volume,
    call: &Call,
    cred: &Cred,
    now: Time,
    choice: Choice,
) -> Result<Outcome, Halt>
    ensures { Gives result (run (sight volume.now) (procedures.plan call.now cred.now now choice)) }
{
    match call {
        Call::Null => Ok(Outcome::answering(alloc, Reply::Null)),
        Call::Getattr { object } => looking::getattr(alloc, volume, cred, object),
        Call::Setattr {
            object,
            attributes,
            guard,
        } => changing::setattr(alloc, volume, cred, object, *attributes, *guard, now),
        Call::Lookup { dir, name } => looking::lookup(alloc, volume, cred, dir, name),
        Call::Access { object, bits } => looking::access(alloc, volume, cred, object, *bits),
        Call::Readlink { link } => looking::readlink(alloc, volume, cred, link),
        Call::Read {
            file,
            offset,
            count,
        } => looking::read(alloc, volume, cred, file, *offset, *count),
        Call::Write {
            file,
            offset,
            count,
            stable,
            bytes,
        } => changing::write(
            alloc, volume, cred, file, *offset, *count, *stable, bytes, now, choice,
        ),
        Call::Create { dir, name, how } => {
            changing::create(alloc, volume, cred, dir, name, *how, now, choice)
        }
        Call::Mkdir {
            dir,
            name,
            attributes,
        } => changing::mkdir(alloc, volume, cred, dir, name, *attributes, now, choice),
        Call::Symlink {
            dir,
            name,
            attributes,
            path,
        } => changing::symlink(
            alloc,
            volume,
            cred,
            dir,
            name,
            *attributes,
            path,
            now,
            choice,
        ),
        Call::Mknod { dir, name, what } => {
            changing::mknod(alloc, volume, cred, dir, name, *what, now, choice)
        }
        Call::Remove { dir, name } => changing::remove(alloc, volume, cred, dir, name, now),
        Call::Rmdir { dir, name } => changing::rmdir(alloc, volume, cred, dir, name, now),
        Call::Rename {
            from,
            from_name,
            to,
            to_name,
        } => changing::rename(alloc, volume, cred, from, from_name, to, to_name, now),
        Call::Link { file, dir, name } => {
            changing::link(alloc, volume, cred, file, dir, name, now)
        }
        Call::Readdir {
            dir,
            cookie,
            cookie_verifier,
            count,
        } => looking::readdir(alloc, volume, cred, dir, *cookie, *cookie_verifier, *count),
        Call::Readdirplus {
            dir,
            cookie,
            cookie_verifier,
            dircount: _,
            maxcount,
        } => looking::readdirplus(
            alloc,
            volume,
            cred,
            dir,
            *cookie,
            *cookie_verifier,
            *maxcount,
        ),
        Call::Fsstat { object } => looking::fsstat(alloc, volume, cred, object),
        Call::Fsinfo { object } => looking::fsinfo(alloc, volume, cred, object),
        Call::Pathconf { object } => looking::pathconf(alloc, volume, cred, object),
        Call::Commit {
            file,
            offset: _,
            count: _,
        } => changing::commit(alloc, volume, cred, file),
    }
}

impl Volume {
    /// Performs a call at a moment (RFC 1813, section 3.3): the volume becomes, and the reply is, what the one server
    /// says. Where a number would pass the end of its type the answer is `Spent`, and the volume is as it was. Where
    /// memory runs out, only some of the call's changes may have been made.
    #[tactic(auto, unfolding(sl_model::specs::Perform::perform))]
    pub fn perform(
        &mut self,
        alloc: Global,
        call: &Call,
        cred: &Cred,
        now: Time,
        choice: &Choice,
    ) -> Result<Reply, Ended>
        ensures { Performs self.old self.new call.now cred.now now choice.now result }
    {
        let choice = *choice;
        match outcome(alloc, self, call, cred, now, choice) {
            Ok(outcome) => {
                let (changes, answer) = outcome.into_parts();
                match self.apply(changes) {
                    Ok(()) => Ok(answer),
                    Err(_) => Err(Ended::NoMemory),
                }
            }
            Err(Halt::Refused(status)) => Ok(fault(call, status)),
            Err(Halt::NoMemory) => Err(Ended::NoMemory),
            Err(Halt::Spent) => Err(Ended::Spent),
        }
    }
}

/// Performs a call at a moment on a copy of the volume, which is the volume after it.
pub fn perform_plain(
    volume: &Volume,
    call: &Call,
    cred: &Cred,
    now: Time,
    choice: &Choice,
) -> Result<(Volume, Reply), Ended>
    ensures { PerformsOn volume.now call.now cred.now now choice.now result }
{
    let Ok(mut after) = volume.copy() else {
        return Err(Ended::NoMemory);
    };
    let reply = after.perform(volume.allocator(), call, cred, now, choice)?;
    Ok((after, reply))
}
