//! What calls and replies are.
ghost use Rattle.std.specs.Prelude.{◌≡◌, ◌↔◌, true};
ghost use Rattle.sl_types.specs.Numbers.{is_ok_status};
ghost use Rattle.sl_model.specs.Laws.{attr_status, status_of, wcc_status};
ghost use Rattle.sl_history.specs.Legal.{NotAfter, is_kept, is_settled};

use sl_datagram::fileid_of;
use sl_defs::Time;
use sl_plain::Volume;
use sl_types::{AttrFault, Call, Reply, Stable, Status, WccFault};

/// Whether the first moment isn't after the second.
pub fn is_not_after(a: Time, b: Time) -> bool
    ensures { (result ≡ true) ↔ NotAfter a b }
{
    a.sec < b.sec || (a.sec == b.sec && a.nsec <= b.nsec)
}

/// Whether a WRITE's bytes are stable by its reply: it wrote some, and says so (RFC 1813, section 3.3.7).
pub fn is_kept(reply: &Reply) -> bool
    ensures { result ≡ is_kept reply.now }
{
    match reply {
        Reply::Write(Ok(written)) => match written.committed {
            Stable::FileSync => written.count != 0,
            Stable::Unstable | Stable::DataSync => false,
        },
        _ => false,
    }
}

fn is_ok(status: Status) -> bool
    ensures { result ≡ is_ok_status status }
{
    matches!(status, Status::Ok)
}

/// Whether the reply says that the call succeeded.
pub fn succeeded(reply: &Reply) -> bool
    ensures { result ≡ is_ok_status (status_of reply.now) }
{
    match reply {
        Reply::Null => true,
        Reply::Getattr(outcome) => match outcome {
            Ok(_) => true,
            Err(status) => is_ok(*status),
        },
        Reply::Setattr { status, .. }
        | Reply::Remove { status, .. }
        | Reply::Rmdir { status, .. }
        | Reply::Rename { status, .. }
        | Reply::Link { status, .. } => is_ok(*status),
        Reply::Lookup(outcome) => was_found(outcome),
        Reply::Access(outcome) => was_found(outcome),
        Reply::Readlink(outcome) => was_found(outcome),
        Reply::Read(outcome) => was_found(outcome),
        Reply::Readdir(outcome) => was_found(outcome),
        Reply::Readdirplus(outcome) => was_found(outcome),
        Reply::Fsstat(outcome) => was_found(outcome),
        Reply::Fsinfo(outcome) => was_found(outcome),
        Reply::Pathconf(outcome) => was_found(outcome),
        Reply::Write(outcome) => was_done(outcome),
        Reply::Create(outcome) => was_done(outcome),
        Reply::Mkdir(outcome) => was_done(outcome),
        Reply::Symlink(outcome) => was_done(outcome),
        Reply::Mknod(outcome) => was_done(outcome),
        Reply::Commit(outcome) => was_done(outcome),
    }
}

fn was_found<T>(outcome: &Result<T, AttrFault>) -> bool
    ensures { result ≡ is_ok_status (attr_status outcome.now) }
{
    match outcome {
        Ok(_) => true,
        Err(fault) => is_ok(fault.status),
    }
}

fn was_done<T>(outcome: &Result<T, WccFault>) -> bool
    ensures { result ≡ is_ok_status (wcc_status outcome.now) }
{
    match outcome {
        Ok(_) => true,
        Err(fault) => is_ok(fault.status),
    }
}

/// Whether nothing is unstable of the file that a COMMIT is asked for.
pub fn is_settled(volume: &Volume, call: &Call) -> bool
    ensures { result ≡ is_settled volume.now call.now }
{
    match call {
        Call::Commit { file, .. } => !volume.is_unstable(fileid_of(file.as_slice())),
        _ => true,
    }
}
