//! The arguments of each procedure at the end of some bytes.
ghost use Rattle.std.specs.Prelude.{◌≡◌, ◌++◌, length, take, OnOk, OnErr, IfSome};
ghost use Rattle.sl_defs.specs.Items.{u32_text, u64_text, opaque_text};
ghost use Rattle.sl_defs.specs.Parts.{optional_text};
ghost use Rattle.sl_items.specs.Spelling.{FitsBytes, FitsFh, FitsSattr, FitsTime, FitsU32, FitsU64, sattr_text, stable_number, time_text};
ghost use Rattle.sl_calls.specs.Args.{FitsCreateHow, FitsDevice, FitsDirOp, FitsLengths, FitsNodeData, FitsNumbers, IsArgs, args_text, create_how_text, device_text, dir_op_text, node_data_text};

use sl_items::{put_bytes, put_fh, put_name, put_optional_time, put_sattr, put_stable};
use sl_types::{Bytes, Call, CreateHow, Device, Fh, Name, NodeData, Sattr, Stable, Time};
use sl_xdr::{NoMemory, put_u32, put_u64};

#[tactic(auto, using(sl_items::proofs::Appended::appended), unfolding(crate::specs::Args::dir_op_text))]
fn put_dir_op(out: &mut Vec<u8>, dir: &Fh, name: &Name) -> Result<(), NoMemory>
    requires { FitsDirOp dir.now name.now }
    ensures ok { OnOk result (out.new.items ≡ out.old.items ++ dir_op_text dir.now name.now) }
    ensures kept { take (length out.old.items) out.new.items ≡ out.old.items }
{
    put_fh(out, dir)?;
    put_name(out, name)?;
    Ok(())
}

#[tactic(auto, using(sl_items::proofs::Appended::appended), unfolding(crate::specs::Args::create_how_text))]
fn put_create_how(out: &mut Vec<u8>, how: CreateHow) -> Result<(), NoMemory>
    ensures ok { OnOk result (out.new.items ≡ out.old.items ++ create_how_text how) }
    ensures fits { FitsCreateHow how }
    ensures kept { take (length out.old.items) out.new.items ≡ out.old.items }
{
    match how {
        CreateHow::Unchecked(attributes) => {
            put_u32(out, 0)?;
            put_sattr(out, attributes)
        }
        CreateHow::Guarded(attributes) => {
            put_u32(out, 1)?;
            put_sattr(out, attributes)
        }
        CreateHow::Exclusive(verifier) => {
            put_u32(out, 2)?;
            put_u64(out, verifier)
        }
    }
}

#[tactic(auto, using(sl_items::proofs::Appended::appended), unfolding(crate::specs::Args::device_text))]
fn put_device(out: &mut Vec<u8>, device: Device) -> Result<(), NoMemory>
    ensures ok { OnOk result (out.new.items ≡ out.old.items ++ device_text device) }
    ensures fits { FitsDevice device }
    ensures kept { take (length out.old.items) out.new.items ≡ out.old.items }
{
    put_sattr(out, device.attributes)?;
    put_u32(out, device.major)?;
    put_u32(out, device.minor)?;
    Ok(())
}

#[tactic(auto, using(sl_items::proofs::Appended::appended), unfolding(crate::specs::Args::node_data_text))]
fn put_node_data(out: &mut Vec<u8>, what: NodeData) -> Result<(), NoMemory>
    ensures ok { OnOk result (out.new.items ≡ out.old.items ++ node_data_text what) }
    ensures fits { FitsNodeData what }
    ensures kept { take (length out.old.items) out.new.items ≡ out.old.items }
{
    match what {
        NodeData::Reg => put_u32(out, 1),
        NodeData::Dir => put_u32(out, 2),
        NodeData::Blk(device) => {
            put_u32(out, 3)?;
            put_device(out, device)
        }
        NodeData::Chr(device) => {
            put_u32(out, 4)?;
            put_device(out, device)
        }
        NodeData::Lnk => put_u32(out, 5),
        NodeData::Sock(attributes) => {
            put_u32(out, 6)?;
            put_sattr(out, attributes)
        }
        NodeData::Fifo(attributes) => {
            put_u32(out, 7)?;
            put_sattr(out, attributes)
        }
    }
}

#[tactic(auto, using(sl_items::proofs::Appended::appended))]
fn put_setattr(
    out: &mut Vec<u8>,
    object: &Fh,
    attributes: Sattr,
    guard: Option<Time>,
) -> Result<(), NoMemory>
    requires { FitsFh object.now }
    ensures ok { OnOk result (out.new.items ≡ out.old.items ++ (opaque_text object.now ++ (sattr_text attributes ++ optional_text time_text guard))) }
    ensures fits { FitsSattr attributes × IfSome guard FitsTime }
    ensures kept { take (length out.old.items) out.new.items ≡ out.old.items }
{
    put_fh(out, object)?;
    put_sattr(out, attributes)?;
    put_optional_time(out, guard)?;
    Ok(())
}

/// A file, and where in it and how much: the arguments of READ and COMMIT.
#[tactic(auto, using(sl_items::proofs::Appended::appended))]
fn put_span(out: &mut Vec<u8>, file: &Fh, offset: u64, count: u32) -> Result<(), NoMemory>
    requires { FitsFh file.now }
    ensures ok { OnOk result (out.new.items ≡ out.old.items ++ (opaque_text file.now ++ (u64_text offset ++ u32_text count))) }
    ensures fits { FitsU64 offset × FitsU32 count }
    ensures kept { take (length out.old.items) out.new.items ≡ out.old.items }
{
    put_fh(out, file)?;
    put_u64(out, offset)?;
    put_u32(out, count)?;
    Ok(())
}

/// The last two arguments of WRITE.
#[tactic(auto, using(sl_items::proofs::Appended::appended))]
fn put_content(out: &mut Vec<u8>, stable: Stable, bytes: &Bytes) -> Result<(), NoMemory>
    requires { FitsBytes bytes.now }
    ensures ok { OnOk result (out.new.items ≡ out.old.items ++ (u32_text (stable_number stable) ++ opaque_text bytes.now)) }
    ensures kept { take (length out.old.items) out.new.items ≡ out.old.items }
{
    put_stable(out, stable)?;
    put_bytes(out, bytes)?;
    Ok(())
}

#[tactic(auto, using(sl_items::proofs::Appended::appended))]
fn put_symlink(
    out: &mut Vec<u8>,
    dir: &Fh,
    name: &Name,
    attributes: Sattr,
    path: &Bytes,
) -> Result<(), NoMemory>
    requires place { FitsDirOp dir.now name.now }
    requires path { FitsBytes path.now }
    ensures ok { OnOk result (out.new.items ≡ out.old.items ++ (dir_op_text dir.now name.now ++ (sattr_text attributes ++ opaque_text path.now))) }
    ensures fits { FitsSattr attributes }
    ensures kept { take (length out.old.items) out.new.items ≡ out.old.items }
{
    put_dir_op(out, dir, name)?;
    put_sattr(out, attributes)?;
    put_bytes(out, path)?;
    Ok(())
}

#[tactic(auto, using(sl_items::proofs::Appended::appended))]
fn put_readdir(
    out: &mut Vec<u8>,
    dir: &Fh,
    cookie: u64,
    cookie_verifier: u64,
    count: u32,
) -> Result<(), NoMemory>
    requires { FitsFh dir.now }
    ensures ok { OnOk result (out.new.items ≡ out.old.items ++ (opaque_text dir.now ++ (u64_text cookie ++ (u64_text cookie_verifier ++ u32_text count)))) }
    ensures fits { FitsU64 cookie × FitsU64 cookie_verifier × FitsU32 count }
    ensures kept { take (length out.old.items) out.new.items ≡ out.old.items }
{
    put_page(out, dir, cookie, cookie_verifier)?;
    put_u32(out, count)?;
    Ok(())
}

/// A directory, and from where in its list on: the first arguments of READDIR and READDIRPLUS.
#[tactic(auto, using(sl_items::proofs::Appended::appended))]
fn put_page(out: &mut Vec<u8>, dir: &Fh, cookie: u64, cookie_verifier: u64) -> Result<(), NoMemory>
    requires { FitsFh dir.now }
    ensures ok { OnOk result (out.new.items ≡ out.old.items ++ (opaque_text dir.now ++ (u64_text cookie ++ u64_text cookie_verifier))) }
    ensures fits { FitsU64 cookie × FitsU64 cookie_verifier }
    ensures kept { take (length out.old.items) out.new.items ≡ out.old.items }
{
    put_fh(out, dir)?;
    put_u64(out, cookie)?;
    put_u64(out, cookie_verifier)?;
    Ok(())
}

#[tactic(auto, using(sl_items::proofs::Appended::appended))]
fn put_access(out: &mut Vec<u8>, object: &Fh, bits: u32) -> Result<(), NoMemory>
    requires { FitsFh object.now }
    ensures ok { OnOk result (out.new.items ≡ out.old.items ++ (opaque_text object.now ++ u32_text bits)) }
    ensures fits { FitsU32 bits }
    ensures kept { take (length out.old.items) out.new.items ≡ out.old.items }
{
    put_fh(out, object)?;
    put_u32(out, bits)?;
    Ok(())
}

#[tactic(auto, using(sl_items::proofs::Appended::appended))]
fn put_mkdir(out: &mut Vec<u8>, dir: &Fh, name: &Name, attributes: Sattr) -> Result<(), NoMemory>
    requires { FitsDirOp dir.now name.now }
    ensures ok { OnOk result (out.new.items ≡ out.old.items ++ (dir_op_text dir.now name.now ++ sattr_text attributes)) }
    ensures fits { FitsSattr attributes }
    ensures kept { take (length out.old.items) out.new.items ≡ out.old.items }
{
    put_dir_op(out, dir, name)?;
    put_sattr(out, attributes)?;
    Ok(())
}

/// How much of a directory's list is asked for: the last arguments of READDIRPLUS.
#[tactic(auto, using(sl_items::proofs::Appended::appended))]
fn put_limits(out: &mut Vec<u8>, dircount: u32, maxcount: u32) -> Result<(), NoMemory>
    ensures ok { OnOk result (out.new.items ≡ out.old.items ++ (u32_text dircount ++ u32_text maxcount)) }
    ensures fits { FitsU32 dircount × FitsU32 maxcount }
    ensures kept { take (length out.old.items) out.new.items ≡ out.old.items }
{
    put_u32(out, dircount)?;
    put_u32(out, maxcount)?;
    Ok(())
}

/// Appends the arguments. Some of them may stay behind what stood there before, where memory ran out.
#[tactic(auto, using(sl_items::proofs::Appended::appended), unfolding(crate::specs::Args::args_text))]
fn put_args(out: &mut Vec<u8>, call: &Call) -> Result<(), NoMemory>
    requires { FitsLengths call.now }
    ensures ok { OnOk result (out.new.items ≡ out.old.items ++ args_text call.now) }
    ensures fits { OnOk result (FitsNumbers call.now) }
    ensures kept { take (length out.old.items) out.new.items ≡ out.old.items }
{
    match call {
        Call::Null => Ok(()),
        Call::Getattr { object } => put_fh(out, object),
        Call::Setattr {
            object,
            attributes,
            guard,
        } => put_setattr(out, object, *attributes, *guard),
        Call::Lookup { dir, name } => put_dir_op(out, dir, name),
        Call::Access { object, bits } => put_access(out, object, *bits),
        Call::Readlink { link } => put_fh(out, link),
        Call::Read {
            file,
            offset,
            count,
        } => put_span(out, file, *offset, *count),
        Call::Write {
            file,
            offset,
            count,
            stable,
            bytes,
        } => {
            put_span(out, file, *offset, *count)?;
            put_content(out, *stable, bytes)
        }
        Call::Create { dir, name, how } => {
            put_dir_op(out, dir, name)?;
            put_create_how(out, *how)
        }
        Call::Mkdir {
            dir,
            name,
            attributes,
        } => put_mkdir(out, dir, name, *attributes),
        Call::Symlink {
            dir,
            name,
            attributes,
            path,
        } => put_symlink(out, dir, name, *attributes, path),
        Call::Mknod { dir, name, what } => {
            put_dir_op(out, dir, name)?;
            put_node_data(out, *what)
        }
        Call::Remove { dir, name } => put_dir_op(out, dir, name),
        Call::Rmdir { dir, name } => put_dir_op(out, dir, name),
        Call::Rename {
            from,
            from_name,
            to,
            to_name,
        } => {
            put_dir_op(out, from, from_name)?;
            put_dir_op(out, to, to_name)
        }
        Call::Link { file, dir, name } => {
            put_fh(out, file)?;
            put_dir_op(out, dir, name)
        }
        Call::Readdir {
            dir,
            cookie,
            cookie_verifier,
            count,
        } => put_readdir(out, dir, *cookie, *cookie_verifier, *count),
        Call::Readdirplus {
            dir,
            cookie,
            cookie_verifier,
            dircount,
            maxcount,
        } => {
            put_page(out, dir, *cookie, *cookie_verifier)?;
            put_limits(out, *dircount, *maxcount)
        }
        Call::Fsstat { object } => put_fh(out, object),
        Call::Fsinfo { object } => put_fh(out, object),
        Call::Pathconf { object } => put_fh(out, object),
        Call::Commit {
            file,
            offset,
            count,
        } => put_span(out, file, *offset, *count),
    }
}

/// Appends the arguments of the call (RFC 1813, section 3.3), with zero padding.
#[tactic(auto, using(sl_items::proofs::Appended::appended))]
pub fn write_args(call: &Call, out: &mut Vec<u8>) -> Result<(), NoMemory>
    requires { FitsLengths call.now }
    ensures ok { OnOk result (out.new.items ≡ out.old.items ++ args_text call.now) }
    // What is appended is in the grammar.
    ensures spelled { OnOk result (IsArgs call.now (args_text call.now)) }
    ensures err { OnErr result (out.new.items ≡ out.old.items) }
{
    let before = out.len();
    let written = put_args(out, call);
    if written.is_err() {
        out.truncate(before);
    }
    written
}
