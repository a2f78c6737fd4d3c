ghost use Rattle.std.specs.Prelude.{◌≡◌, ◌++◌, length, take, OnOk, OnErr};
ghost use Rattle.sl_replies.specs.Texts.{FitsReply, changed_text, post_op_attr_text, reply_text, status_text, wcc_text};

use crate::put_parts::{put_status, put_wcc};
use crate::put_results::{
    put_access, put_commit, put_fsinfo, put_fsstat, put_getattr, put_lookup, put_made,
    put_pathconf, put_read, put_readdir, put_readdirplus, put_readlink, put_write,
};
use sl_items::put_optional_fattr;
use sl_types::{Fattr, Reply, Status, Wcc};
use sl_xdr::NoMemory;

/// Appends a status and what changed.
#[tactic(auto, using(sl_items::proofs::Appended::appended))]
fn put_changed(out: &mut Vec<u8>, status: Status, wcc: Wcc) -> Result<(), NoMemory>
    ensures ok { OnOk result (out.new.items ≡ out.old.items ++ changed_text status wcc) }
    ensures kept { take (length out.old.items) out.new.items ≡ out.old.items }
{
    put_status(out, status)?;
    put_wcc(out, wcc)?;
    Ok(())
}

/// Appends the result of RENAME.
#[tactic(auto, using(sl_items::proofs::Appended::appended))]
fn put_rename(out: &mut Vec<u8>, status: Status, from: Wcc, to: Wcc) -> Result<(), NoMemory>
    ensures ok { OnOk result (out.new.items ≡ out.old.items ++ (status_text status ++ (wcc_text from ++ wcc_text to))) }
    ensures kept { take (length out.old.items) out.new.items ≡ out.old.items }
{
    put_status(out, status)?;
    put_wcc(out, from)?;
    put_wcc(out, to)?;
    Ok(())
}

/// Appends the result of LINK.
#[tactic(auto, using(sl_items::proofs::Appended::appended))]
fn put_link(
    out: &mut Vec<u8>,
    status: Status,
    attributes: Option<Fattr>,
    wcc: Wcc,
) -> Result<(), NoMemory>
    ensures ok { OnOk result (out.new.items ≡ out.old.items ++ (status_text status ++ (post_op_attr_text attributes ++ wcc_text wcc))) }
    ensures kept { take (length out.old.items) out.new.items ≡ out.old.items }
{
    put_status(out, status)?;
    put_optional_fattr(out, attributes)?;
    put_wcc(out, wcc)?;
    Ok(())
}

#[tactic(auto, using(sl_items::proofs::Appended::appended))]
fn put_reply(out: &mut Vec<u8>, reply: &Reply) -> Result<(), NoMemory>
    requires { FitsReply reply.now }
    ensures ok { OnOk result (out.new.items ≡ out.old.items ++ reply_text reply.now) }
    ensures kept { take (length out.old.items) out.new.items ≡ out.old.items }
{
    match reply {
        Reply::Null => Ok(()),
        Reply::Getattr(outcome) => put_getattr(out, outcome),
        Reply::Lookup(outcome) => put_lookup(out, outcome),
        Reply::Access(outcome) => put_access(out, outcome),
        Reply::Readlink(outcome) => put_readlink(out, outcome),
        Reply::Read(outcome) => put_read(out, outcome),
        Reply::Write(outcome) => put_write(out, outcome),
        Reply::Create(outcome) | Reply::Mkdir(outcome) => put_made(out, outcome),
        Reply::Symlink(outcome) | Reply::Mknod(outcome) => put_made(out, outcome),
        Reply::Setattr { status, wcc } => put_changed(out, *status, *wcc),
        Reply::Remove { status, wcc } => put_changed(out, *status, *wcc),
        Reply::Rmdir { status, wcc } => put_changed(out, *status, *wcc),
        Reply::Rename { status, from, to } => put_rename(out, *status, *from, *to),
        Reply::Link {
            status,
            attributes,
            wcc,
        } => put_link(out, *status, *attributes, *wcc),
        Reply::Readdir(outcome) => put_readdir(out, outcome),
        Reply::Readdirplus(outcome) => put_readdirplus(out, outcome),
        Reply::Fsstat(outcome) => put_fsstat(out, outcome),
        Reply::Fsinfo(outcome) => put_fsinfo(out, outcome),
        Reply::Pathconf(outcome) => put_pathconf(out, outcome),
        Reply::Commit(outcome) => put_commit(out, outcome),
    }
}

/// Appends a reply's results. Without memory nothing is appended.
#[tactic(auto, using(sl_items::proofs::Appended::appended))]
pub fn write_reply(reply: &Reply, out: &mut Vec<u8>) -> Result<(), NoMemory>
    requires { FitsReply reply.now }
    ensures ok { OnOk result (out.new.items ≡ out.old.items ++ reply_text reply.now) }
    ensures err { OnErr result (out.new.items ≡ out.old.items) }
{
    let before = out.len();
    match put_reply(out, reply) {
        Ok(()) => Ok(()),
        Err(e) => {
            out.truncate(before);
            Err(e)
        }
    }
}
