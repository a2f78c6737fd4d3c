//! Reading a journal.
ghost use Rattle.std.specs.Prelude.{◌≡◌, ◌↔◌, ◌+◌, ◌^◌, ◌<◌, ◌≤◌, List, ℕ, ◌++◌, [], ◌∷◌, length, IfOk, OnOk, OnErr, IfSome, IfNone, IsErrOf, IsTrue};
ghost use Rattle.sl_journal.specs.Format.{IsPayload, IsRecord, IsClosed, FromGate, IsFresh, IsJournal, Stands, records_text};
ghost use Rattle.sl_journal.specs.Settled.{IsReadFault};

use crate::fault::JournalFault;
use crate::records::Records;
use sl_defs::{Bytes, NoMemory};
use sl_xdr::Cursor;
use std::alloc::Global;

/// The payload behind an open gate, and what follows.
#[derive(Clone, Copy)]
struct Payload<'a> {
    payload: &'a [u8],
    rest: &'a [u8],
}

/// The payload behind an open gate. It is none where its length or its bytes pass the end.
fn payload_at(bytes: &[u8]) -> Option<Payload<'_>>
    ensures found { IfSome result (λ x. IsPayload bytes.now x.payload.now x.rest.now) }
    ensures none { IfNone result ((payload rest : List ℕ) → IsPayload bytes.now payload rest → ⊥) }
{
    let mut cursor = Cursor::new(bytes);
    match cursor.take_u32() {
        Ok(size) => {
            let (_, body) = bytes.split_at(4);
            let size = size as usize;
            if body.len() < size {
                return None;
            }
            let (payload, rest) = body.split_at(size);
            Some(Payload { payload, rest })
        }
        Err(_) => None,
    }
}

#[tactic(auto, using(crate::proofs::Texts::closed_here, crate::proofs::Texts::nothing_at_end))]
/// Reads what stands at a gate. A record's payload is added to the others, and what follows it is the answer; at a
/// closed gate there is none.
fn read_one<'a>(
    alloc: Global,
    records: &mut Records,
    bytes: &'a [u8],
) -> Result<Option<&'a [u8]>, JournalFault>
    ensures closed { IfOk result (λ found. IfNone found (IsClosed bytes.now × (records.new ≡ records.old))) }
    ensures open { IfOk result (λ found. IfSome found (λ after. (payload : List ℕ) × (records.new ≡ records.old ++ payload ∷ []) × IsRecord bytes.now payload after.now)) }
    ensures none { IsErrOf result JournalFault.NotAJournal → (more : List (List ℕ)) → FromGate bytes.now more → ⊥ }
    ensures faults { IsReadFault result }
{
    if bytes.is_empty() {
        return Err(JournalFault::NotAJournal);
    }
    if bytes[0] != 1 {
        return Ok(None);
    }
    let (_, behind) = bytes.split_at(1);
    match payload_at(behind) {
        None => Err(JournalFault::NotAJournal),
        Some(found) => {
            if add_copy(alloc, records, found.payload).is_err() {
                return Err(JournalFault::NoMemory);
            }
            Ok(Some(found.rest))
        }
    }
}

#[tactic(auto, using(crate::proofs::Texts::unread_all, crate::proofs::Texts::all_read))]
/// The records from the first gate on, and where the closed gate behind them stands.
fn read_records(alloc: Global, bytes: &[u8]) -> Result<(Records, usize), JournalFault>
    ensures ok { IfOk result (λ found. FromGate bytes.now found.0) }
    ensures place { IfOk result (λ found. found.1 ≡ length (records_text found.0)) }
    ensures none { IsErrOf result JournalFault.NotAJournal → (records : List (List ℕ)) → FromGate bytes.now records → ⊥ }
    ensures faults { IsReadFault result }
{
    let mut records = Records::new(alloc);
    let mut rest = bytes;
    loop {
        match read_one(alloc, &mut records, rest) {
            Ok(None) => return Ok((records, bytes.len() - rest.len())),
            Ok(Some(after)) => rest = after,
            Err(fault) => return Err(fault),
        }
    }
}

fn add_copy(alloc: Global, records: &mut Records, payload: &[u8]) -> Result<(), NoMemory>
    ensures { OnOk result (records.new ≡ records.old ++ payload.now ∷ []) }
{
    match payload.to_vec(alloc) {
        Ok(copy) => {
            records.push(Bytes::new(copy))?;
            Ok(())
        }
        Err(_) => Err(NoMemory),
    }
}

/// Whether nothing was ever made of these bytes.
pub(crate) fn is_fresh(bytes: &[u8]) -> bool
    ensures { IsTrue result ↔ IsFresh bytes.now }
{
    bytes.len() <= 1 || bytes[0] == 0
}

/// The records of a journal that isn't fresh, and the place of the next gate.
pub(crate) fn read_made(
    alloc: Global,
    bytes: &[u8],
    head: &[u8],
) -> Result<(Records, usize), JournalFault>
    requires made { IsFresh bytes.now → ⊥ }
    ensures ok { IfOk result (λ found. IsJournal bytes.now head.now found.0) }
    ensures place { IfOk result (λ found. found.1 ≡ 1 + length head.now + length (records_text found.0)) }
    ensures none { IsErrOf result JournalFault.NotAJournal → (records : List (List ℕ)) → IsJournal bytes.now head.now records → ⊥ }
    ensures faults { IsReadFault result }
{
    let (_, behind) = bytes.split_at(1);
    if behind.len() < head.len() {
        return Err(JournalFault::NotAJournal);
    }
    let (front, body) = behind.split_at(head.len());
    if !is_same(front, head) {
        return Err(JournalFault::NotAJournal);
    }
    match read_records(alloc, body) {
        Ok((records, place)) => Ok((records, 1 + head.len() + place)),
        Err(fault) => Err(fault),
    }
}

fn is_same(one: &[u8], other: &[u8]) -> bool
    ensures { IsTrue result ↔ (one.now ≡ other.now) }
{
    one == other
}

/// The records that some bytes stand for under a head.
pub fn read_journal(alloc: Global, bytes: &[u8], head: &[u8]) -> Result<Records, JournalFault>
    ensures stands { IfOk result (λ records. Stands bytes.now head.now records) }
    ensures none { IsErrOf result JournalFault.NotAJournal → (records : List (List ℕ)) → Stands bytes.now head.now records → ⊥ }
    ensures faults { IsReadFault result }
{
    if is_fresh(bytes) {
        return Ok(Records::new(alloc));
    }
    match read_made(alloc, bytes, head) {
        Ok((records, _)) => Ok(records),
        Err(fault) => Err(fault),
    }
}
