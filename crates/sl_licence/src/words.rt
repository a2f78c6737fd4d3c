//! What calls and replies are.
ghost use Rattle.std.specs.Prelude.{◌≡◌};
ghost use Rattle.sl_model.specs.Laws.{attr_status, plain_status, status_of, wcc_status};
ghost use Rattle.sl_history.specs.Licensed.{flush_in, is_no_space};
ghost use Rattle.sl_licence.specs.Words.{written_unstable};

use sl_datagram::fileid_of;
use sl_frames::{Body, What};
use sl_types::{AttrFault, Call, Reply, Stable, Status, WccFault};

/// The file of an unstable WRITE.
pub fn written_unstable(call: &Call) -> Option<u64>
    ensures { result ≡ written_unstable call.now }
{
    match call {
        Call::Write {
            file,
            stable: Stable::Unstable,
            ..
        } => Some(fileid_of(file.as_slice())),
        _ => None,
    }
}

/// The file whose flush a frame's body asks for.
pub fn flush_in(body: &Body) -> Option<u64>
    ensures { result ≡ flush_in body.now }
{
    match body {
        Body::Intent(intent) => match intent.what {
            What::Flush(file) => Some(file),
            What::Call { .. } => None,
        },
        _ => None,
    }
}

/// Whether the status says that no space is left.
fn is_full(status: Status) -> bool
    ensures { result ≡ is_no_space status }
{
    matches!(status, Status::NoSpc)
}

/// Whether the reply says that no space is left.
pub fn is_no_space(reply: &Reply) -> bool
    ensures { result ≡ is_no_space (status_of reply.now) }
{
    match reply {
        Reply::Null => false,
        Reply::Getattr(outcome) => was_refused(outcome),
        Reply::Setattr { status, .. }
        | Reply::Remove { status, .. }
        | Reply::Rmdir { status, .. }
        | Reply::Rename { status, .. }
        | Reply::Link { status, .. } => is_full(*status),
        Reply::Lookup(outcome) => found_no_space(outcome),
        Reply::Access(outcome) => found_no_space(outcome),
        Reply::Readlink(outcome) => found_no_space(outcome),
        Reply::Read(outcome) => found_no_space(outcome),
        Reply::Readdir(outcome) => found_no_space(outcome),
        Reply::Readdirplus(outcome) => found_no_space(outcome),
        Reply::Fsstat(outcome) => found_no_space(outcome),
        Reply::Fsinfo(outcome) => found_no_space(outcome),
        Reply::Pathconf(outcome) => found_no_space(outcome),
        Reply::Write(outcome) => had_no_space(outcome),
        Reply::Create(outcome) => had_no_space(outcome),
        Reply::Mkdir(outcome) => had_no_space(outcome),
        Reply::Symlink(outcome) => had_no_space(outcome),
        Reply::Mknod(outcome) => had_no_space(outcome),
        Reply::Commit(outcome) => had_no_space(outcome),
    }
}

fn was_refused<T>(outcome: &Result<T, Status>) -> bool
    ensures { result ≡ is_no_space (plain_status outcome.now) }
{
    match outcome {
        Ok(_) => false,
        Err(status) => is_full(*status),
    }
}

fn found_no_space<T>(outcome: &Result<T, AttrFault>) -> bool
    ensures { result ≡ is_no_space (attr_status outcome.now) }
{
    match outcome {
        Ok(_) => false,
        Err(fault) => is_full(fault.status),
    }
}

fn had_no_space<T>(outcome: &Result<T, WccFault>) -> bool
    ensures { result ≡ is_no_space (wcc_status outcome.now) }
{
    match outcome {
        Ok(_) => false,
        Err(fault) => is_full(fault.status),
    }
}
