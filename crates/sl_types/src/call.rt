ghost use Rattle.std.specs.Prelude.{◌≡◌, IfOk};

use crate::attributes::Sattr;
use crate::names::{Fh, Name};
use sl_defs::{Bytes, NoMemory, Time};

/// How stable a WRITE is asked to be, or is (RFC 1813, section 3.3.7, `stable_how`).
#[derive(Clone, Copy, Debug, PartialEq, Eq)]
pub enum Stable {
    Unstable,
    DataSync,
    FileSync,
}

/// How a file is created (RFC 1813, section 3.3.8, `createhow3`).
#[derive(Clone, Copy, Debug, PartialEq, Eq)]
pub enum CreateHow {
    Unchecked(Sattr),
    Guarded(Sattr),
    /// With this create verifier.
    Exclusive(u64),
}

/// A device to make: its attributes and its numbers (RFC 1813, section 3.3.11, `devicedata3`).
#[derive(Clone, Copy, Debug, PartialEq, Eq)]
pub struct Device {
    pub attributes: Sattr,
    pub major: u32,
    pub minor: u32,
}

/// What MKNOD is asked to make (RFC 1813, section 3.3.11, `mknoddata3`), by its kind.
#[derive(Clone, Copy, Debug, PartialEq, Eq)]
pub enum NodeData {
    Reg,
    Dir,
    Blk(Device),
    Chr(Device),
    Lnk,
    Sock(Sattr),
    Fifo(Sattr),
}

/// A call with its arguments (RFC 1813, section 3.3), one variant a procedure.
#[derive(Drop, Debug)]
pub enum Call {
    Null,
    Getattr {
        object: Fh,
    },
    Setattr {
        object: Fh,
        attributes: Sattr,
        guard: Option<Time>,
    },
    Lookup {
        dir: Fh,
        name: Name,
    },
    Access {
        object: Fh,
        bits: u32,
    },
    Readlink {
        link: Fh,
    },
    Read {
        file: Fh,
        offset: u64,
        count: u32,
    },
    Write {
        file: Fh,
        offset: u64,
        count: u32,
        stable: Stable,
        bytes: Bytes,
    },
    Create {
        dir: Fh,
        name: Name,
        how: CreateHow,
    },
    Mkdir {
        dir: Fh,
        name: Name,
        attributes: Sattr,
    },
    Symlink {
        dir: Fh,
        name: Name,
        attributes: Sattr,
        path: Bytes,
    },
    Mknod {
        dir: Fh,
        name: Name,
        what: NodeData,
    },
    Remove {
        dir: Fh,
        name: Name,
    },
    Rmdir {
        dir: Fh,
        name: Name,
    },
    Rename {
        from: Fh,
        from_name: Name,
        to: Fh,
        to_name: Name,
    },
    Link {
        file: Fh,
        dir: Fh,
        name: Name,
    },
    Readdir {
        dir: Fh,
        cookie: u64,
        cookie_verifier: u64,
        count: u32,
    },
    Readdirplus {
        dir: Fh,
        cookie: u64,
        cookie_verifier: u64,
        dircount: u32,
        maxcount: u32,
    },
    Fsstat {
        object: Fh,
    },
    Fsinfo {
        object: Fh,
    },
    Pathconf {
        object: Fh,
    },
    Commit {
        file: Fh,
        offset: u64,
        count: u32,
    },
}

/// A directory and a name in it, copied.
fn copy_entry(dir: &Fh, name: &Name) -> Result<(Fh, Name), NoMemory>
    ensures { IfOk result (λ copy. (copy.0 ≡ dir.now) × (copy.1 ≡ name.now)) }
{
    let dir = dir.copy()?;
    let name = name.copy()?;
    Ok((dir, name))
}

impl Call {
    /// An equal call, in memory of its own.
    pub fn copy(&self) -> Result<Call, NoMemory>
        ensures { IfOk result (λ copy. copy ≡ self.now) }
    {
        match self {
            Call::Null => Ok(Call::Null),
            Call::Getattr { object } => Ok(Call::Getattr {
                object: object.copy()?,
            }),
            Call::Setattr {
                object,
                attributes,
                guard,
            } => Ok(Call::Setattr {
                object: object.copy()?,
                attributes: *attributes,
                guard: *guard,
            }),
            Call::Lookup { dir, name } => {
                let (dir, name) = copy_entry(dir, name)?;
                Ok(Call::Lookup { dir, name })
            }
            Call::Access { object, bits } => Ok(Call::Access {
                object: object.copy()?,
                bits: *bits,
            }),
            Call::Readlink { link } => Ok(Call::Readlink { link: link.copy()? }),
            Call::Read {
                file,
                offset,
                count,
            } => Ok(Call::Read {
                file: file.copy()?,
                offset: *offset,
                count: *count,
            }),
            Call::Write {
                file,
                offset,
                count,
                stable,
                bytes,
            } => Ok(Call::Write {
                file: file.copy()?,
                offset: *offset,
                count: *count,
                stable: *stable,
                bytes: bytes.copy()?,
            }),
            Call::Create { dir, name, how } => {
                let (dir, name) = copy_entry(dir, name)?;
                Ok(Call::Create {
                    dir,
                    name,
                    how: *how,
                })
            }
            Call::Mkdir {
                dir,
                name,
                attributes,
            } => {
                let (dir, name) = copy_entry(dir, name)?;
                Ok(Call::Mkdir {
                    dir,
                    name,
                    attributes: *attributes,
                })
            }
            Call::Symlink {
                dir,
                name,
                attributes,
                path,
            } => {
                let (dir, name) = copy_entry(dir, name)?;
                Ok(Call::Symlink {
                    dir,
                    name,
                    attributes: *attributes,
                    path: path.copy()?,
                })
            }
            Call::Mknod { dir, name, what } => {
                let (dir, name) = copy_entry(dir, name)?;
                Ok(Call::Mknod {
                    dir,
                    name,
                    what: *what,
                })
            }
            Call::Remove { dir, name } => {
                let (dir, name) = copy_entry(dir, name)?;
                Ok(Call::Remove { dir, name })
            }
            Call::Rmdir { dir, name } => {
                let (dir, name) = copy_entry(dir, name)?;
                Ok(Call::Rmdir { dir, name })
            }
            Call::Rename {
                from,
                from_name,
                to,
                to_name,
            } => {
                let (from, from_name) = copy_entry(from, from_name)?;
                let (to, to_name) = copy_entry(to, to_name)?;
                Ok(Call::Rename {
                    from,
                    from_name,
                    to,
                    to_name,
                })
            }
            Call::Link { file, dir, name } => {
                let (dir, name) = copy_entry(dir, name)?;
                Ok(Call::Link {
                    file: file.copy()?,
                    dir,
                    name,
                })
            }
            Call::Readdir {
                dir,
                cookie,
                cookie_verifier,
                count,
            } => Ok(Call::Readdir {
                dir: dir.copy()?,
                cookie: *cookie,
                cookie_verifier: *cookie_verifier,
                count: *count,
            }),
            Call::Readdirplus {
                dir,
                cookie,
                cookie_verifier,
                dircount,
                maxcount,
            } => Ok(Call::Readdirplus {
                dir: dir.copy()?,
                cookie: *cookie,
                cookie_verifier: *cookie_verifier,
                dircount: *dircount,
                maxcount: *maxcount,
            }),
            Call::Fsstat { object } => Ok(Call::Fsstat {
                object: object.copy()?,
            }),
            Call::Fsinfo { object } => Ok(Call::Fsinfo {
                object: object.copy()?,
            }),
            Call::Pathconf { object } => Ok(Call::Pathconf {
                object: object.copy()?,
            }),
            Call::Commit {
                file,
                offset,
                count,
            } => Ok(Call::Commit {
                file: file.copy()?,
                offset: *offset,
                count: *count,
            }),
        }
    }
}
