//! Whether what a server tells of cells is what the volume has.
ghost use Rattle.std.specs.Prelude.{◌≡◌, ◌↔◌, true};
ghost use Rattle.sl_model.specs.Looking.{attributes};
ghost use Rattle.sl_cells.specs.declared.keys.CellKey.TheVariants as key;
ghost use Rattle.sl_history.specs.Deciding.{Says};
ghost use Rattle.sl_history.specs.Wired.{AreCells, cell_of, name_cell, place_of};

use crate::places::{name_server, object_server};
use sl_cells::{AttrCell, CellKey, NameCell};
use sl_defs::{NoMemory, Setup};
use sl_frames::FoundCell;
use sl_model::{Entry, Node};
use sl_plain::{Place, Volume, attributes};
use std::alloc::Global;

/// Whether the cell is that of the object with this node, where its link's text is this one.
fn is_attr_cell(cell: &AttrCell, node: Node, link: &[u8]) -> bool
    ensures { (result ≡ true) ↔ (cell.now ≡ record { attributes = attributes node; parent = node.parent; entries = node.entries; made = node.made; verifier = node.verifier; link = link.now }) }
{
    cell.attributes == attributes(node)
        && cell.parent == node.parent
        && cell.entries == node.entries
        && cell.made == node.made
        && cell.verifier == node.verifier
        && cell.link.as_slice() == link
}

/// Whether the cell is that of this name in a directory.
fn is_name_cell(cell: &NameCell, dir: u64, name: &[u8], entry: Entry) -> bool
    ensures { (result ≡ true) ↔ (cell.now ≡ name_cell dir name.now entry) }
{
    cell.dir == dir
        && cell.name.as_slice() == name
        && cell.fileid == entry.fileid
        && cell.kind == entry.kind
        && cell.cookie == entry.cookie
}

/// Whether this is what the volume has of an object.
fn is_object(
    alloc: Global,
    volume: &Volume,
    fileid: u64,
    cell: &FoundCell,
) -> Result<bool, NoMemory>
    ensures { Says result (cell.now ≡ cell_of volume.now (key.Attr fileid)) }
{
    let Some(node) = volume.node(fileid) else {
        return Ok(matches!(cell, FoundCell::Absent));
    };
    let FoundCell::Attr(cell) = cell else {
        return Ok(false);
    };
    let link = volume.text(alloc, fileid)?;
    Ok(is_attr_cell(cell, node, link.as_slice()))
}

/// Whether this is what the volume has of a name.
fn is_name(
    alloc: Global,
    volume: &Volume,
    dir: u64,
    name: &[u8],
    cell: &FoundCell,
) -> Result<bool, NoMemory>
    ensures { Says result (cell.now ≡ cell_of volume.now (key.Name dir name.now)) }
{
    let place = Place::of(alloc, dir, name)?;
    let Some(entry) = volume.entry_at(&place) else {
        return Ok(matches!(cell, FoundCell::Absent));
    };
    let FoundCell::Name(cell) = cell else {
        return Ok(false);
    };
    Ok(is_name_cell(cell, dir, name, entry))
}

/// Whether this is what the volume has for a key, where the key lies with this server.
fn is_cell(
    alloc: Global,
    setup: Setup,
    volume: &Volume,
    server: u64,
    key: &CellKey,
    cell: &FoundCell,
) -> Result<bool, NoMemory>
    ensures { Says result (place_of setup key.now ≡ server → cell.now ≡ cell_of volume.now key.now) }
{
    match key {
        CellKey::Attr(fileid) => {
            if object_server(setup, *fileid) != server {
                return Ok(true);
            }
            is_object(alloc, volume, *fileid, cell)
        }
        CellKey::Name(dir, name) => {
            if name_server(setup, *dir, name.as_slice()) != server {
                return Ok(true);
            }
            is_name(alloc, volume, *dir, name.as_slice(), cell)
        }
    }
}

/// Whether for each key that lies with the server this is what the volume has.
pub fn are_cells(
    alloc: Global,
    setup: Setup,
    volume: &Volume,
    server: u64,
    keys: &[CellKey],
    cells: &[FoundCell],
) -> Result<bool, NoMemory>
    ensures { Says result (AreCells setup volume.now server keys.now cells.now) }
{
    let mut rest = cells;
    for key in keys {
        let Some((cell, others)) = rest.split_first() else {
            return Ok(false);
        };
        let right = is_cell(alloc, setup, volume, server, key, cell)?;
        if !right {
            return Ok(false);
        }
        rest = others;
    }
    Ok(rest.is_empty())
}
