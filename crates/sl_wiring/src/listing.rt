//! Whether what a server tells of a directory's names is what the volume has.
ghost use Rattle.std.specs.Prelude.{◌≡◌, ◌↔◌, ◌+◌, ◌^◌, ◌<◌, true, filter, length, map};
ghost use Rattle.sl_model.specs.Looking.{line_size};
ghost use Rattle.sl_history.specs.Deciding.{Says};
ghost use Rattle.sl_history.specs.Wired.{AreNames, lies_with, line_cell, up_to};

use crate::places::name_server;
use sl_cells::NameCell;
use sl_defs::{NoMemory, Setup};
use sl_model::Listed;
use sl_plain::Volume;
use std::alloc::Global;

/// The bytes of a line in a READDIR, of which 24 aren't its name's.
fn line_size(line: &Listed) -> u64
    ensures exact { result ≡ line_size 24 line.now }
    ensures small { result < 2 ^ 63 + 2 ^ 62 }
{
    let length = line.name.as_slice().len() as u64;
    24 + (length + (4 - length % 4) % 4)
}

/// Whether the cell is that of a line of the directory's listing.
fn is_line(cell: &NameCell, dir: u64, line: &Listed) -> bool
    ensures { (result ≡ true) ↔ (cell.now ≡ line_cell dir line.now) }
{
    cell.dir == dir
        && cell.name.as_slice() == line.name.as_slice()
        && cell.fileid == line.fileid
        && cell.kind == line.kind
        && cell.cookie == line.cookie
}

/// Whether the line lies with this server.
fn lies_with(setup: Setup, server: u64, dir: u64, line: &Listed) -> bool
    ensures { result ≡ lies_with setup dir server line.now }
{
    name_server(setup, dir, line.name.as_slice()) == server
}

/// How many of the lines lie with this server.
fn count_with(setup: Setup, server: u64, dir: u64, lines: &[Listed]) -> usize
    ensures { result ≡ length (filter (lies_with setup dir server) lines.now) }
{
    let mut count = 0;
    for line in lines {
        if lies_with(setup, server, dir, line) {
            count += 1;
        }
    }
    count
}

/// Whether the cells are those of the lines that lie with this server: the shortest front of them that is longer than the
/// limit, or all.
fn are_front(
    setup: Setup,
    server: u64,
    dir: u64,
    limit: u32,
    lines: &[Listed],
    cells: &[NameCell],
) -> bool
    ensures { (result ≡ true) ↔ (cells.now ≡ map (line_cell dir) (up_to limit 0 (filter (lies_with setup dir server) lines.now))) }
{
    let mut size = 0;
    let mut rest = cells;
    for line in lines {
        if lies_with(setup, server, dir, line) {
            let Some((cell, others)) = rest.split_first() else {
                return false;
            };
            if !is_line(cell, dir, line) {
                return false;
            }
            rest = others;
            size += line_size(line);
            if size > u64::from(limit) {
                return rest.is_empty();
            }
        }
    }
    rest.is_empty()
}

/// Whether these are the directory's names behind a cookie that lie with this server, up to the limit, and whether there
/// are more is told rightly.
pub fn are_names(
    alloc: Global,
    setup: Setup,
    volume: &Volume,
    server: u64,
    dir: u64,
    cookie: u64,
    limit: u32,
    cells: &[NameCell],
    more: bool,
) -> Result<bool, NoMemory>
    ensures { Says result (AreNames setup volume.now server dir cookie limit cells.now more) }
{
    let lines = volume.names_behind(alloc, dir, cookie)?;
    let all = count_with(setup, server, dir, lines.as_slice());
    Ok(more == (cells.len() < all) && are_front(setup, server, dir, limit, lines.as_slice(), cells))
}
