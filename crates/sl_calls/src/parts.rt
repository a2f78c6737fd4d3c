//! Parts of arguments at the place of a cursor.
ghost use Rattle.std.specs.Prelude.{◌≡◌};
ghost use Rattle.sl_defs.specs.Items.{Gives};
ghost use Rattle.sl_items.specs.Reading.{GivesArgs};
ghost use Rattle.sl_types.specs.declared.fault.ArgsFault.TheVariants.{Garbage};
ghost use Rattle.sl_calls.specs.Reading.{create_how_at, device_at, dir_op_at, node_data_at};

use sl_items::{take_fh, take_name, take_sattr};
use sl_types::{ArgsFault, CreateHow, Device, Fh, Name, NodeData};
use sl_xdr::{Cursor, Short};
use std::alloc::Global;

/// What can't be read isn't in the grammar.
pub(crate) fn garbage(_short: Short) -> ArgsFault
    ensures { result ≡ Garbage }
{
    ArgsFault::Garbage
}

/// A directory and a name in it (RFC 1813, section 2.5, `diropargs3`).
#[tactic(auto, unfolding(crate::specs::Reading::dir_op_at))]
pub(crate) fn take_dir_op(alloc: Global, cursor: &mut Cursor<'_>) -> Result<(Fh, Name), ArgsFault>
    ensures { GivesArgs (λ d. ((d.0, d.1), cursor.new.rest)) result (dir_op_at cursor.old.rest) }
{
    let dir = take_fh(alloc, cursor)?;
    let name = take_name(alloc, cursor)?;
    Ok((dir, name))
}

/// How a file is created.
#[tactic(auto, unfolding(crate::specs::Reading::create_how_at, crate::specs::Reading::create_arm_at))]
pub(crate) fn take_create_how(cursor: &mut Cursor<'_>) -> Result<CreateHow, Short>
    ensures { Gives (λ h. (h, cursor.new.rest)) result (create_how_at cursor.old.rest) }
{
    match cursor.take_u32()? {
        0 => {
            let attributes = take_sattr(cursor)?;
            Ok(CreateHow::Unchecked(attributes))
        }
        1 => {
            let attributes = take_sattr(cursor)?;
            Ok(CreateHow::Guarded(attributes))
        }
        2 => {
            let verifier = cursor.take_u64()?;
            Ok(CreateHow::Exclusive(verifier))
        }
        _ => Err(Short),
    }
}

#[tactic(auto, unfolding(crate::specs::Reading::device_at))]
fn take_device(cursor: &mut Cursor<'_>) -> Result<Device, Short>
    ensures { Gives (λ d. (d, cursor.new.rest)) result (device_at cursor.old.rest) }
{
    let attributes = take_sattr(cursor)?;
    let major = cursor.take_u32()?;
    let minor = cursor.take_u32()?;
    Ok(Device {
        attributes,
        major,
        minor,
    })
}

/// What MKNOD makes.
#[tactic(auto, unfolding(crate::specs::Reading::node_data_at, crate::specs::Reading::node_arm_at))]
pub(crate) fn take_node_data(cursor: &mut Cursor<'_>) -> Result<NodeData, Short>
    ensures { Gives (λ n. (n, cursor.new.rest)) result (node_data_at cursor.old.rest) }
{
    match cursor.take_u32()? {
        1 => Ok(NodeData::Reg),
        2 => Ok(NodeData::Dir),
        3 => {
            let device = take_device(cursor)?;
            Ok(NodeData::Blk(device))
        }
        4 => {
            let device = take_device(cursor)?;
            Ok(NodeData::Chr(device))
        }
        5 => Ok(NodeData::Lnk),
        6 => {
            let socket = take_sattr(cursor)?;
            Ok(NodeData::Sock(socket))
        }
        7 => {
            let fifo = take_sattr(cursor)?;
            Ok(NodeData::Fifo(fifo))
        }
        _ => Err(Short),
    }
}
