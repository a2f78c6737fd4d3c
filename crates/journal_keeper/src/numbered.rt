//! Records that tell their numbers.
ghost use Rattle.std.specs.Prelude.{◌≡◌, ◌↔◌, IsTrue, IfOk};
ghost use Rattle.journal_keeper.specs.Numbered.{record_text, AreNumbered};

use sl_defs::NoMemory;
use sl_journal::Records;
use sl_xdr::put_u64;
use std::alloc::Global;

/// The record of a number: its eight bytes, and behind them a filling, so that records are not all as long.
pub(crate) fn record_of(alloc: Global, number: u64) -> Result<Vec<u8>, NoMemory>
    ensures { IfOk result (λ made. made.items ≡ record_text number) }
{
    let Ok(filling) = vec![in alloc; (number % 256) as u8; (number % 4093) as usize] else {
        return Err(NoMemory);
    };
    let mut record = Vec::new(alloc);
    if put_u64(&mut record, number).is_err() {
        return Err(NoMemory);
    }
    if record.extend_from_slice(&filling).is_err() {
        return Err(NoMemory);
    }
    Ok(record)
}

fn is_same(one: &[u8], other: &[u8]) -> bool
    ensures { IsTrue result ↔ (one.now ≡ other.now) }
{
    one == other
}

/// Whether each record is that of its place, the first being that of 0.
pub(crate) fn are_numbered(alloc: Global, records: &Records) -> Result<bool, NoMemory>
    ensures { IfOk result (λ right. IsTrue right ↔ AreNumbered records.now) }
{
    for (number, record) in records.as_slice().iter().enumerate() {
        let wanted = record_of(alloc, number as u64)?;
        if !is_same(record.as_slice(), &wanted) {
            return Ok(false);
        }
    }
    Ok(true)
}
