//! What replies say of objects.
ghost use Rattle.std.specs.Prelude.{◌≡◌, IfOk};
ghost use Rattle.sl_model.specs.Looking as looking;
ghost use Rattle.sl_model.specs.Changing as changing;

use crate::handles::handle_bytes;
use sl_defs::NoMemory;
use sl_model::Node;
use sl_types::{Fattr, Handle, MakeOk, Wcc};
use std::alloc::Global;

/// The attributes of an object.
pub fn attributes(n: Node) -> Fattr
    ensures { result ≡ looking.attributes n }
{
    Fattr {
        kind: n.kind,
        mode: n.mode,
        nlink: n.nlink,
        uid: n.uid,
        gid: n.gid,
        size: n.size,
        used: n.size,
        major: n.major,
        minor: n.minor,
        fsid: n.fsid,
        fileid: n.fileid,
        atime: n.atime,
        mtime: n.mtime,
        ctime: n.ctime,
    }
}

/// The handle of an object.
pub(crate) fn handle_to(n: Node) -> Handle
    ensures { result ≡ looking.handle_to n }
{
    Handle {
        volume: n.fsid,
        fileid: n.fileid,
        kind: n.kind,
    }
}

/// No attributes.
pub(crate) fn no_wcc() -> Wcc
    ensures { result ≡ looking.no_wcc }
{
    Wcc { after: None }
}

/// An object's attributes after the call.
pub(crate) fn wcc_of(n: Node) -> Wcc
    ensures { result ≡ looking.wcc_of n }
{
    Wcc {
        after: Some(attributes(n)),
    }
}

/// The results of a making.
pub(crate) fn made(alloc: Global, n: Node) -> Result<MakeOk, NoMemory>
    ensures { IfOk result (λ ok. ok ≡ changing.made n) }
{
    let object = handle_bytes(alloc, handle_to(n))?;
    Ok(MakeOk {
        object: Some(object),
        attributes: Some(attributes(n)),
        wcc: no_wcc(),
    })
}
