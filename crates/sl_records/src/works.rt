//! Works of a kind of server, at the place of a cursor.
ghost use Rattle.std.specs.Prelude.{◌≡◌};
ghost use Rattle.sl_items.specs.Reading.{GivesArgs};
ghost use Rattle.sl_records.specs.Works.{bytes_work_at, cells_work_at, is_of_bytes, is_of_cells};

use sl_cells::Item;
use sl_frames::Work;
use sl_types::ArgsFault;
use sl_xdr::Cursor;
use std::alloc::Global;

fn changes_cells(work: &Work) -> bool
    ensures { result ≡ is_of_cells work.now }
{
    match work {
        Work::Change(_) => true,
        Work::Keep { .. } | Work::Put { .. } | Work::Cut { .. } | Work::Drop(_) => false,
    }
}

fn changes_bytes(work: &Work) -> bool
    ensures { result ≡ is_of_bytes work.now }
{
    match work {
        Work::Change(_) => false,
        Work::Keep { .. } | Work::Put { .. } | Work::Cut { .. } | Work::Drop(_) => true,
    }
}

/// A directory server's work.
#[tactic(auto, unfolding(crate::specs::Works::cells_work_at))]
pub fn take_cells_work(alloc: Global, cursor: &mut Cursor<'_>) -> Result<Work, ArgsFault>
    ensures exact { GivesArgs (λ w. (w, cursor.new.rest)) result (cells_work_at cursor.old.rest) }
{
    let work = Work::take(alloc, cursor)?;
    if changes_cells(&work) {
        Ok(work)
    } else {
        Err(ArgsFault::Garbage)
    }
}

/// A data server's work.
#[tactic(auto, unfolding(crate::specs::Works::bytes_work_at))]
pub fn take_bytes_work(alloc: Global, cursor: &mut Cursor<'_>) -> Result<Work, ArgsFault>
    ensures exact { GivesArgs (λ w. (w, cursor.new.rest)) result (bytes_work_at cursor.old.rest) }
{
    let work = Work::take(alloc, cursor)?;
    if changes_bytes(&work) {
        Ok(work)
    } else {
        Err(ArgsFault::Garbage)
    }
}
