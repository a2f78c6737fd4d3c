//! How replies end.
use sl_types::{AttrFault, Reply, Status, WccFault};

fn of_looked<T>(outcome: &Result<T, AttrFault>) -> Status {
    match outcome {
        Ok(_) => Status::Ok,
        Err(fault) => fault.status,
    }
}

fn of_written<T>(outcome: &Result<T, WccFault>) -> Status {
    match outcome {
        Ok(_) => Status::Ok,
        Err(fault) => fault.status,
    }
}

/// The status of a reply; that of NULL's, which has none, is OK.
pub fn status_of(reply: &Reply) -> Status {
    match reply {
        Reply::Null | Reply::Getattr(Ok(_)) => Status::Ok,
        Reply::Getattr(Err(status)) => *status,
        Reply::Setattr { status, .. } => *status,
        Reply::Remove { status, .. } | Reply::Rmdir { status, .. } => *status,
        Reply::Rename { status, .. } | Reply::Link { status, .. } => *status,
        Reply::Lookup(outcome) => of_looked(outcome),
        Reply::Access(outcome) => of_looked(outcome),
        Reply::Readlink(outcome) => of_looked(outcome),
        Reply::Read(outcome) => of_looked(outcome),
        Reply::Readdir(outcome) => of_looked(outcome),
        Reply::Readdirplus(outcome) => of_looked(outcome),
        Reply::Fsstat(outcome) => of_looked(outcome),
        Reply::Fsinfo(outcome) => of_looked(outcome),
        Reply::Pathconf(outcome) => of_looked(outcome),
        Reply::Write(outcome) => of_written(outcome),
        Reply::Create(outcome) | Reply::Mkdir(outcome) => of_written(outcome),
        Reply::Symlink(outcome) | Reply::Mknod(outcome) => of_written(outcome),
        Reply::Commit(outcome) => of_written(outcome),
    }
}

/// The name of a status (RFC 1813, section 2.6), without `NFS3_` or `NFS3ERR_`.
pub fn status_name(status: Status) -> &'static [u8] {
    match status {
        Status::Ok => b"OK",
        Status::Perm => b"PERM",
        Status::NoEnt => b"NOENT",
        Status::Acces => b"ACCES",
        Status::Exist => b"EXIST",
        Status::NotDir => b"NOTDIR",
        Status::IsDir => b"ISDIR",
        Status::Inval => b"INVAL",
        Status::FBig => b"FBIG",
        Status::NoSpc => b"NOSPC",
        Status::MLink => b"MLINK",
        Status::NameTooLong => b"NAMETOOLONG",
        Status::NotEmpty => b"NOTEMPTY",
        Status::Stale => b"STALE",
        Status::BadHandle => b"BADHANDLE",
        Status::NotSync => b"NOT_SYNC",
        Status::BadCookie => b"BAD_COOKIE",
        Status::TooSmall => b"TOOSMALL",
        Status::BadType => b"BADTYPE",
    }
}
