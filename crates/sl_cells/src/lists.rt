//! Lists: how many there are, and these one after the other.
ghost use Rattle.std.specs.Prelude.{◌≡◌, ◌++◌, ◌<◌, ◌^◌, length, take, IfOk, OnOk, All};
ghost use Rattle.sl_items.specs.Reading.{GivesArgs};
ghost use Rattle.sl_cells.specs.Lists.{counted_at, counted_text, texts, times_at};

use crate::item::Item;
use crate::parts::garbage;
use sl_types::{ArgsFault, NoMemory};
use sl_xdr::{Cursor, put_u32};
use std::alloc::Global;

fn take_times<T: Item>(
    alloc: Global,
    count: u32,
    cursor: &mut Cursor<'_>,
) -> Result<Vec<T>, ArgsFault>
    ensures exact { GivesArgs (λ v. (v.items, cursor.new.rest)) result (times_at T.at count cursor.old.rest) }
{
    let mut items = Vec::new(alloc);
    for _i in 0..count {
        match T::take(alloc, cursor) {
            Ok(item) => items.push(item).map_err(|_| ArgsFault::NoMemory)?,
            Err(fault) => return Err(fault),
        }
    }
    Ok(items)
}

/// A list.
#[tactic(auto, unfolding(crate::specs::Lists::counted_at))]
pub fn take_items<T: Item>(alloc: Global, cursor: &mut Cursor<'_>) -> Result<Vec<T>, ArgsFault>
    ensures exact { GivesArgs (λ v. (v.items, cursor.new.rest)) result (counted_at T.at cursor.old.rest) }
{
    let count = cursor.take_u32().map_err(garbage)?;
    take_times(alloc, count, cursor)
}

#[tactic(auto, using(sl_items::proofs::Appended::appended))]
fn put_each<T: Item>(out: &mut Vec<u8>, items: &[T]) -> Result<(), sl_xdr::NoMemory>
    requires { All T.is_short items.now }
    ensures ok { OnOk result (out.new.items ≡ out.old.items ++ texts T.text items.now) }
    ensures kept { take (length out.old.items) out.new.items ≡ out.old.items }
{
    for item in items {
        item.put(out)?;
    }
    Ok(())
}

/// Appends a list of fewer than 2^32 items.
#[tactic(auto, using(sl_items::proofs::Appended::appended), unfolding(crate::specs::Lists::counted_text))]
pub fn put_items<T: Item>(out: &mut Vec<u8>, items: &[T]) -> Result<(), sl_xdr::NoMemory>
    requires count { length items.now < 2 ^ 32 }
    requires short { All T.is_short items.now }
    ensures ok { OnOk result (out.new.items ≡ out.old.items ++ counted_text T.text items.now) }
    ensures kept { take (length out.old.items) out.new.items ≡ out.old.items }
{
    put_u32(out, items.len() as u32)?;
    put_each(out, items)?;
    Ok(())
}

/// Equal items, in memory of their own.
pub fn copy_items<T: Item>(alloc: Global, items: &[T]) -> Result<Vec<T>, NoMemory>
    ensures { IfOk result (λ copy. copy.items ≡ items.now) }
{
    let mut copies = Vec::new(alloc);
    for item in items {
        copies.push(item.copy()?).map_err(|_| NoMemory)?;
    }
    Ok(copies)
}
