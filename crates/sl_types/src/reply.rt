ghost use Rattle.std.specs.Prelude.{◌≡◌, IfOk};

use crate::attributes::Fattr;
use crate::call::Stable;
use crate::entries::{Entries, EntriesPlus};
use crate::kind::Status;
use crate::names::{Fh, copy_handle};
use sl_defs::{Bytes, NoMemory, Time};

/// Weak cache consistency data (RFC 1813, section 2.5, `wcc_data`). This server never gives attributes from before
/// the call, and looks at none.
#[derive(Clone, Copy, Debug, PartialEq, Eq)]
pub struct Wcc {
    /// The attributes after the call.
    pub after: Option<Fattr>,
}

/// A failure, with the attributes of the object that was looked at. The status isn't OK.
#[derive(Clone, Copy, Debug, PartialEq, Eq)]
pub struct AttrFault {
    pub status: Status,
    pub attributes: Option<Fattr>,
}

/// A failure, with those of the object that would have been changed. The status isn't OK.
#[derive(Clone, Copy, Debug, PartialEq, Eq)]
pub struct WccFault {
    pub status: Status,
    pub wcc: Wcc,
}

/// The result of LOOKUP (RFC 1813, section 3.3.3).
#[derive(Drop, Debug)]
pub struct LookupOk {
    pub object: Fh,
    pub attributes: Option<Fattr>,
    pub dir_attributes: Option<Fattr>,
}

impl LookupOk {
    /// An equal result, in memory of its own.
    pub fn copy(&self) -> Result<LookupOk, NoMemory>
        ensures { IfOk result (λ copy. copy ≡ self.now) }
    {
        let object = self.object.copy()?;
        Ok(LookupOk {
            object,
            attributes: self.attributes,
            dir_attributes: self.dir_attributes,
        })
    }
}

/// The result of ACCESS (RFC 1813, section 3.3.4).
#[derive(Clone, Copy, Debug, PartialEq, Eq)]
pub struct AccessOk {
    pub attributes: Option<Fattr>,
    pub bits: u32,
}

/// The result of READLINK (RFC 1813, section 3.3.5).
#[derive(Drop, Debug)]
pub struct ReadlinkOk {
    pub attributes: Option<Fattr>,
    pub path: Bytes,
}

impl ReadlinkOk {
    /// An equal result, in memory of its own.
    pub fn copy(&self) -> Result<ReadlinkOk, NoMemory>
        ensures { IfOk result (λ copy. copy ≡ self.now) }
    {
        let path = self.path.copy()?;
        Ok(ReadlinkOk {
            attributes: self.attributes,
            path,
        })
    }
}

/// The result of READ (RFC 1813, section 3.3.6).
#[derive(Drop, Debug)]
pub struct ReadOk {
    pub attributes: Option<Fattr>,
    pub count: u32,
    pub eof: bool,
    pub bytes: Bytes,
}

impl ReadOk {
    /// An equal result, in memory of its own.
    pub fn copy(&self) -> Result<ReadOk, NoMemory>
        ensures { IfOk result (λ copy. copy ≡ self.now) }
    {
        let bytes = self.bytes.copy()?;
        Ok(ReadOk {
            attributes: self.attributes,
            count: self.count,
            eof: self.eof,
            bytes,
        })
    }
}

/// The result of WRITE (RFC 1813, section 3.3.7).
#[derive(Clone, Copy, Debug, PartialEq, Eq)]
pub struct WriteOk {
    pub wcc: Wcc,
    pub count: u32,
    pub committed: Stable,
    pub verifier: u64,
}

/// The result of CREATE, MKDIR, SYMLINK and MKNOD (RFC 1813, sections 3.3.8 to 3.3.11).
#[derive(Drop, Debug)]
pub struct MakeOk {
    pub object: Option<Fh>,
    pub attributes: Option<Fattr>,
    pub wcc: Wcc,
}

impl MakeOk {
    /// An equal result, in memory of its own.
    pub fn copy(&self) -> Result<MakeOk, NoMemory>
        ensures { IfOk result (λ copy. copy ≡ self.now) }
    {
        let object = copy_handle(&self.object)?;
        Ok(MakeOk {
            object,
            attributes: self.attributes,
            wcc: self.wcc,
        })
    }
}

/// The result of READDIR (RFC 1813, section 3.3.16).
#[derive(Drop, Debug)]
pub struct ReaddirOk {
    pub attributes: Option<Fattr>,
    pub cookie_verifier: u64,
    pub entries: Entries,
    pub eof: bool,
}

impl ReaddirOk {
    /// An equal result, in memory of its own.
    pub fn copy(&self) -> Result<ReaddirOk, NoMemory>
        ensures { IfOk result (λ copy. copy ≡ self.now) }
    {
        let entries = self.entries.copy()?;
        Ok(ReaddirOk {
            attributes: self.attributes,
            cookie_verifier: self.cookie_verifier,
            entries,
            eof: self.eof,
        })
    }
}

/// The result of READDIRPLUS (RFC 1813, section 3.3.17).
#[derive(Drop, Debug)]
pub struct ReaddirplusOk {
    pub attributes: Option<Fattr>,
    pub cookie_verifier: u64,
    pub entries: EntriesPlus,
    pub eof: bool,
}

impl ReaddirplusOk {
    /// An equal result, in memory of its own.
    pub fn copy(&self) -> Result<ReaddirplusOk, NoMemory>
        ensures { IfOk result (λ copy. copy ≡ self.now) }
    {
        let entries = self.entries.copy()?;
        Ok(ReaddirplusOk {
            attributes: self.attributes,
            cookie_verifier: self.cookie_verifier,
            entries,
            eof: self.eof,
        })
    }
}

/// The result of FSSTAT (RFC 1813, section 3.3.18).
#[derive(Clone, Copy, Debug, PartialEq, Eq)]
pub struct FsstatOk {
    pub attributes: Option<Fattr>,
    pub total_bytes: u64,
    pub free_bytes: u64,
    pub available_bytes: u64,
    pub total_files: u64,
    pub free_files: u64,
    pub available_files: u64,
    /// For how many seconds these numbers aren't expected to change.
    pub invariant_seconds: u32,
}

/// The result of FSINFO (RFC 1813, section 3.3.19).
#[derive(Clone, Copy, Debug, PartialEq, Eq)]
pub struct FsinfoOk {
    pub attributes: Option<Fattr>,
    pub read_max: u32,
    pub read_preferred: u32,
    pub read_multiple: u32,
    pub write_max: u32,
    pub write_preferred: u32,
    pub write_multiple: u32,
    pub readdir_preferred: u32,
    pub max_file_size: u64,
    pub time_delta: Time,
    pub properties: u32,
}

/// The result of PATHCONF (RFC 1813, section 3.3.20).
#[derive(Clone, Copy, Debug, PartialEq, Eq)]
pub struct PathconfOk {
    pub attributes: Option<Fattr>,
    pub link_max: u32,
    pub name_max: u32,
    pub no_trunc: bool,
    pub chown_restricted: bool,
    pub case_insensitive: bool,
    pub case_preserving: bool,
}

/// The result of COMMIT (RFC 1813, section 3.3.21).
#[derive(Clone, Copy, Debug, PartialEq, Eq)]
pub struct CommitOk {
    pub wcc: Wcc,
    pub verifier: u64,
}

/// A reply's results (RFC 1813, section 3.3), one variant a procedure: those after status OK, or a failure. Where
/// both have the same fields, the status stands beside them.
#[derive(Drop, Debug)]
pub enum Reply {
    Null,
    Getattr(Result<Fattr, Status>),
    Setattr {
        status: Status,
        wcc: Wcc,
    },
    Lookup(Result<LookupOk, AttrFault>),
    Access(Result<AccessOk, AttrFault>),
    Readlink(Result<ReadlinkOk, AttrFault>),
    Read(Result<ReadOk, AttrFault>),
    Write(Result<WriteOk, WccFault>),
    Create(Result<MakeOk, WccFault>),
    Mkdir(Result<MakeOk, WccFault>),
    Symlink(Result<MakeOk, WccFault>),
    Mknod(Result<MakeOk, WccFault>),
    Remove {
        status: Status,
        wcc: Wcc,
    },
    Rmdir {
        status: Status,
        wcc: Wcc,
    },
    Rename {
        status: Status,
        from: Wcc,
        to: Wcc,
    },
    Link {
        status: Status,
        attributes: Option<Fattr>,
        wcc: Wcc,
    },
    Readdir(Result<ReaddirOk, AttrFault>),
    Readdirplus(Result<ReaddirplusOk, AttrFault>),
    Fsstat(Result<FsstatOk, AttrFault>),
    Fsinfo(Result<FsinfoOk, AttrFault>),
    Pathconf(Result<PathconfOk, AttrFault>),
    Commit(Result<CommitOk, WccFault>),
}

impl Reply {
    /// An equal reply, in memory of its own.
    pub fn copy(&self) -> Result<Reply, NoMemory>
        ensures { IfOk result (λ copy. copy ≡ self.now) }
    {
        match self {
            Reply::Lookup(Ok(ok)) => Ok(Reply::Lookup(Ok(ok.copy()?))),
            Reply::Lookup(Err(fault)) => Ok(Reply::Lookup(Err(*fault))),
            Reply::Readlink(Ok(ok)) => Ok(Reply::Readlink(Ok(ok.copy()?))),
            Reply::Readlink(Err(fault)) => Ok(Reply::Readlink(Err(*fault))),
            Reply::Read(Ok(ok)) => Ok(Reply::Read(Ok(ok.copy()?))),
            Reply::Read(Err(fault)) => Ok(Reply::Read(Err(*fault))),
            Reply::Create(Ok(ok)) => Ok(Reply::Create(Ok(ok.copy()?))),
            Reply::Create(Err(fault)) => Ok(Reply::Create(Err(*fault))),
            Reply::Mkdir(Ok(ok)) => Ok(Reply::Mkdir(Ok(ok.copy()?))),
            Reply::Mkdir(Err(fault)) => Ok(Reply::Mkdir(Err(*fault))),
            Reply::Symlink(Ok(ok)) => Ok(Reply::Symlink(Ok(ok.copy()?))),
            Reply::Symlink(Err(fault)) => Ok(Reply::Symlink(Err(*fault))),
            Reply::Mknod(Ok(ok)) => Ok(Reply::Mknod(Ok(ok.copy()?))),
            Reply::Mknod(Err(fault)) => Ok(Reply::Mknod(Err(*fault))),
            Reply::Readdir(Ok(ok)) => Ok(Reply::Readdir(Ok(ok.copy()?))),
            Reply::Readdir(Err(fault)) => Ok(Reply::Readdir(Err(*fault))),
            Reply::Readdirplus(Ok(ok)) => Ok(Reply::Readdirplus(Ok(ok.copy()?))),
            Reply::Readdirplus(Err(fault)) => Ok(Reply::Readdirplus(Err(*fault))),
            Reply::Null => Ok(Reply::Null),
            Reply::Getattr(result) => Ok(Reply::Getattr(*result)),
            Reply::Access(result) => Ok(Reply::Access(*result)),
            Reply::Write(result) => Ok(Reply::Write(*result)),
            Reply::Fsstat(result) => Ok(Reply::Fsstat(*result)),
            Reply::Fsinfo(result) => Ok(Reply::Fsinfo(*result)),
            Reply::Pathconf(result) => Ok(Reply::Pathconf(*result)),
            Reply::Commit(result) => Ok(Reply::Commit(*result)),
            Reply::Setattr { status, wcc } => Ok(Reply::Setattr {
                status: *status,
                wcc: *wcc,
            }),
            Reply::Remove { status, wcc } => Ok(Reply::Remove {
                status: *status,
                wcc: *wcc,
            }),
            Reply::Rmdir { status, wcc } => Ok(Reply::Rmdir {
                status: *status,
                wcc: *wcc,
            }),
            Reply::Rename { status, from, to } => Ok(Reply::Rename {
                status: *status,
                from: *from,
                to: *to,
            }),
            Reply::Link {
                status,
                attributes,
                wcc,
            } => Ok(Reply::Link {
                status: *status,
                attributes: *attributes,
                wcc: *wcc,
            }),
        }
    }
}
