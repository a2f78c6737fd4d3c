//! The call of a row.
use crate::words::Words;
use sl_types::{Call, CreateHow, Device, NoMemory, NodeData, Stable};
use std::alloc::Global;

/// The procedures (RFC 1813, section 3.3), each at its number.
const PROCEDURES: [&[u8]; 22] = [
    b"null",
    b"getattr",
    b"setattr",
    b"lookup",
    b"access",
    b"readlink",
    b"read",
    b"write",
    b"create",
    b"mkdir",
    b"symlink",
    b"mknod",
    b"remove",
    b"rmdir",
    b"rename",
    b"link",
    b"readdir",
    b"readdirplus",
    b"fsstat",
    b"fsinfo",
    b"pathconf",
    b"commit",
];

/// The number of a procedure.
pub fn procedure_of(word: &[u8]) -> Option<u32> {
    for (number, name) in (0..22).zip(PROCEDURES.iter()) {
        if word == *name {
            return Some(number);
        }
    }
    None
}

/// The call of this procedure whose arguments are the next words.
pub fn call_of(alloc: Global, procedure: u32, words: &mut Words<'_>) -> Result<Call, NoMemory> {
    match procedure {
        0 => Ok(Call::Null),
        2 => setattr(alloc, words),
        7 => write(alloc, words),
        3 | 8..=13 => named(alloc, procedure, words),
        14 => rename(alloc, words),
        15 => link(alloc, words),
        16 | 17 => listing(alloc, procedure, words),
        _ => object(alloc, procedure, words),
    }
}

fn setattr(alloc: Global, words: &mut Words<'_>) -> Result<Call, NoMemory> {
    let object = words.handle(alloc)?;
    let guard = words.guard();
    let attributes = words.attributes();
    Ok(Call::Setattr {
        object,
        attributes,
        guard,
    })
}

fn stable_of(word: &[u8]) -> Stable {
    if word == b"unstable".as_slice() {
        Stable::Unstable
    } else if word == b"datasync".as_slice() {
        Stable::DataSync
    } else {
        Stable::FileSync
    }
}

fn write(alloc: Global, words: &mut Words<'_>) -> Result<Call, NoMemory> {
    let file = words.handle(alloc)?;
    let offset = words.number_u64();
    let count = words.number_u32();
    let stable = stable_of(words.word());
    let bytes = words.bytes(alloc)?;
    Ok(Call::Write {
        file,
        offset,
        count,
        stable,
        bytes,
    })
}

fn rename(alloc: Global, words: &mut Words<'_>) -> Result<Call, NoMemory> {
    let from = words.handle(alloc)?;
    let from_name = words.name(alloc)?;
    let to = words.handle(alloc)?;
    let to_name = words.name(alloc)?;
    Ok(Call::Rename {
        from,
        from_name,
        to,
        to_name,
    })
}

fn link(alloc: Global, words: &mut Words<'_>) -> Result<Call, NoMemory> {
    let file = words.handle(alloc)?;
    let dir = words.handle(alloc)?;
    let name = words.name(alloc)?;
    Ok(Call::Link { file, dir, name })
}

fn listing(alloc: Global, procedure: u32, words: &mut Words<'_>) -> Result<Call, NoMemory> {
    let dir = words.handle(alloc)?;
    let cookie = words.number_u64();
    let cookie_verifier = words.number_u64();
    let count = words.number_u32();
    if procedure == 16 {
        return Ok(Call::Readdir {
            dir,
            cookie,
            cookie_verifier,
            count,
        });
    }
    Ok(Call::Readdirplus {
        dir,
        cookie,
        cookie_verifier,
        dircount: count,
        maxcount: words.number_u32(),
    })
}

fn how_of(words: &mut Words<'_>) -> CreateHow {
    let word = words.word();
    if word == b"exclusive".as_slice() {
        CreateHow::Exclusive(words.number_u64())
    } else if word == b"guarded".as_slice() {
        CreateHow::Guarded(words.attributes())
    } else {
        CreateHow::Unchecked(words.attributes())
    }
}

fn device_of(words: &mut Words<'_>) -> Device {
    let major = words.number_u32();
    let minor = words.number_u32();
    let attributes = words.attributes();
    Device {
        attributes,
        major,
        minor,
    }
}

fn what_of(words: &mut Words<'_>) -> NodeData {
    let word = words.word();
    if word == b"reg".as_slice() {
        NodeData::Reg
    } else if word == b"dir".as_slice() {
        NodeData::Dir
    } else if word == b"lnk".as_slice() {
        NodeData::Lnk
    } else if word == b"blk".as_slice() {
        NodeData::Blk(device_of(words))
    } else if word == b"chr".as_slice() {
        NodeData::Chr(device_of(words))
    } else if word == b"sock".as_slice() {
        NodeData::Sock(words.attributes())
    } else {
        NodeData::Fifo(words.attributes())
    }
}

// A call whose arguments begin with a directory and a name.
fn named(alloc: Global, procedure: u32, words: &mut Words<'_>) -> Result<Call, NoMemory> {
    let dir = words.handle(alloc)?;
    let name = words.name(alloc)?;
    match procedure {
        3 => Ok(Call::Lookup { dir, name }),
        8 => Ok(Call::Create {
            dir,
            name,
            how: how_of(words),
        }),
        9 => Ok(Call::Mkdir {
            dir,
            name,
            attributes: words.attributes(),
        }),
        10 => {
            let path = words.bytes(alloc)?;
            Ok(Call::Symlink {
                dir,
                name,
                attributes: words.attributes(),
                path,
            })
        }
        11 => Ok(Call::Mknod {
            dir,
            name,
            what: what_of(words),
        }),
        12 => Ok(Call::Remove { dir, name }),
        _ => Ok(Call::Rmdir { dir, name }),
    }
}

// A call whose arguments begin with an object, behind which numbers follow, if anything.
fn object(alloc: Global, procedure: u32, words: &mut Words<'_>) -> Result<Call, NoMemory> {
    let object = words.handle(alloc)?;
    match procedure {
        1 => Ok(Call::Getattr { object }),
        4 => Ok(Call::Access {
            object,
            bits: words.number_u32(),
        }),
        5 => Ok(Call::Readlink { link: object }),
        6 => Ok(Call::Read {
            file: object,
            offset: words.number_u64(),
            count: words.number_u32(),
        }),
        18 => Ok(Call::Fsstat { object }),
        19 => Ok(Call::Fsinfo { object }),
        20 => Ok(Call::Pathconf { object }),
        _ => Ok(Call::Commit {
            file: object,
            offset: words.number_u64(),
            count: words.number_u32(),
        }),
    }
}
