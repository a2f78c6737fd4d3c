//! A journal of numbered records.
ghost use Rattle.std.specs.Prelude.{◌++◌, [], ◌∷◌, ℕ, List, OnOk};
ghost use Rattle.sl_journal.specs.Settled.{IsSettled};
ghost use Rattle.journal_keeper.specs.Numbered.{record_text};

use crate::numbered::{are_numbered, record_of};
use crate::trouble::Trouble;
use sl_defs::{Policy, Setup};
use sl_disk::Shelf;
use sl_journal::Journal;
use std::alloc::Global;

/// The disk of the journal.
const DISK: u8 = 16;

const SETUP: Setup = Setup {
    volume: 1,
    policy: Policy::Hash,
    dirs: 1,
    small: 1,
    nodes: 1,
};

/// Opens the journal, whose records have to be the right ones, and says how many there are.
fn open<V: Shelf>(alloc: Global, shelf: &mut V) -> Result<(Journal, u64), Trouble> {
    let (journal, records) = Journal::open(alloc, shelf, DISK, &SETUP)?;
    if are_numbered(alloc, &records)? {
        Ok((journal, records.len() as u64))
    } else {
        Err(Trouble::Wrong)
    }
}

/// How many records the journal has, each of them the right one.
pub(crate) fn count<V: Shelf>(alloc: Global, shelf: &mut V) -> Result<u64, Trouble> {
    let (_, found) = open(alloc, shelf)?;
    Ok(found)
}

/// Adds the record of a number. From Ok on, whatever a stop leaves of the disk has it.
#[tactic(auto, using(crate::proofs::Sizes::record_short))]
fn append<V: Shelf>(
    alloc: Global,
    journal: &mut Journal,
    shelf: &mut V,
    number: u64,
) -> Result<(), Trouble>
    ensures added { (head : List ℕ) (records : List (List ℕ)) → IsSettled journal.old (V.now shelf.old) head records → OnOk result (IsSettled journal.new (V.now shelf.new) head (records ++ record_text number ∷ [])) }
{
    let record = match record_of(alloc, number) {
        Ok(record) => record,
        Err(_) => return Err(Trouble::Memory),
    };
    match journal.append(shelf, &record) {
        Ok(()) => Ok(()),
        Err(fault) => Err(Trouble::Journal(fault)),
    }
}

/// Adds so many records behind those that are there, and prints the number of each once it was acknowledged.
pub(crate) fn append_all<R: Print + AllocGlobal, V: Shelf>(
    rt: &R,
    shelf: &mut V,
    count: u64,
) -> Result<(), Trouble> {
    let (mut journal, held) = open(rt.alloc(), shelf)?;
    for number in held..held.saturating_add(count) {
        append(rt.alloc(), &mut journal, shelf, number)?;
        println!(rt; "{number}").map_err(|_| Trouble::Print)?;
    }
    Ok(())
}
