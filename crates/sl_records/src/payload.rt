//! Payloads of any actor.
ghost use Rattle.std.specs.Prelude.{◌≡◌, ◌++◌, length, take, OnOk, OnErr};
ghost use Rattle.sl_items.specs.Reading.{GivesArgs};
ghost use Rattle.sl_cells.specs.Reading.{whole};
ghost use Rattle.sl_records.specs.Payloads.{GivesRecord};
ghost use Rattle.sl_types.specs.declared.fault.ArgsFault.TheVariants.{Garbage};

use crate::fault::RecordFault;
use sl_cells::Item;
use sl_types::ArgsFault;
use sl_xdr::{Cursor, NoMemory, Short};
use std::alloc::Global;

/// What can't be read isn't in the grammar.
pub fn garbage(_short: Short) -> ArgsFault
    ensures { result ≡ Garbage }
{
    ArgsFault::Garbage
}

fn take_whole<T: Item>(alloc: Global, bytes: &[u8]) -> Result<T, ArgsFault>
    ensures { GivesArgs (λ x. x) result (whole T.at bytes.now) }
{
    let mut cursor = Cursor::new(bytes);
    let item = T::take(alloc, &mut cursor)?;
    if cursor.rest().is_empty() {
        Ok(item)
    } else {
        Err(ArgsFault::Garbage)
    }
}

/// The record that the whole payload spells.
pub fn read_record<T: Item>(alloc: Global, bytes: &[u8]) -> Result<T, RecordFault>
    ensures { GivesRecord result (whole T.at bytes.now) }
{
    match take_whole(alloc, bytes) {
        Ok(record) => Ok(record),
        Err(ArgsFault::Garbage) => Err(RecordFault::BadRecord),
        Err(ArgsFault::NoMemory) => Err(RecordFault::NoMemory),
    }
}

/// Appends a record's payload. Without memory nothing is appended.
#[tactic(auto, using(sl_items::proofs::Appended::appended))]
pub fn write_record<T: Item>(item: &T, out: &mut Vec<u8>) -> Result<(), NoMemory>
    requires { T.is_short item.now }
    ensures ok { OnOk result (out.new.items ≡ out.old.items ++ T.text item.now) }
    ensures err { OnErr result (out.new.items ≡ out.old.items) }
{
    let before = out.len();
    match item.put(out) {
        Ok(()) => Ok(()),
        Err(e) => {
            out.truncate(before);
            Err(e)
        }
    }
}
