//! The rows of a table, and whether each is answered as it says.
use crate::calls::{call_of, procedure_of};
use crate::case::Case;
use crate::statuses::{status_name, status_of};
use crate::words::Words;
use sl_replies::read_reply;
use sl_text::hex_bytes;
use sl_types::{Ended, NoMemory, Reply};
use std::alloc::Global;

/// What became of a row.
#[derive(Drop, Debug)]
pub enum Finding {
    /// The answer is the one of the row.
    AsSaid,
    /// The row spells no call with an answer.
    Unreadable,
    /// A number would pass the end of its type.
    Spent,
    /// The answer is another.
    Other(Reply),
}

// Whether the reply's bytes are those that the digits spell.
fn is_spelled(
    alloc: Global,
    procedure: u32,
    digits: &[u8],
    reply: &Reply,
) -> Result<bool, NoMemory> {
    let bytes = hex_bytes(alloc, digits)?;
    let Ok(expected) = read_reply(alloc, procedure, bytes.as_slice()) else {
        return Ok(false);
    };
    let Ok(expected) = format!(in alloc; "{expected:?}") else {
        return Err(NoMemory);
    };
    let Ok(found) = format!(in alloc; "{reply:?}") else {
        return Err(NoMemory);
    };
    Ok(expected.as_str() == found.as_str())
}

// Whether the words behind a call are the answer.
fn is_said(
    alloc: Global,
    procedure: u32,
    words: &mut Words<'_>,
    reply: &Reply,
) -> Result<bool, NoMemory> {
    if words.word() != status_name(status_of(reply)) {
        return Ok(false);
    }
    let digits = words.word();
    if digits.is_empty() {
        return Ok(true);
    }
    is_spelled(alloc, procedure, digits, reply)
}

// The finding where a call was answered with this reply, or by none.
fn judged(
    alloc: Global,
    procedure: u32,
    answer: Result<Reply, Ended>,
    words: &mut Words<'_>,
) -> Result<Finding, NoMemory> {
    match answer {
        Ok(reply) => {
            if is_said(alloc, procedure, words, &reply)? {
                return Ok(Finding::AsSaid);
            }
            Ok(Finding::Other(reply))
        }
        Err(Ended::Spent) => Ok(Finding::Spent),
        Err(Ended::NoMemory) => Err(NoMemory),
    }
}

// Performs the row of a call in this round.
fn called(alloc: Global, case: &mut Case, row: &[u8], round: u64) -> Result<Finding, NoMemory> {
    let mut words = Words::of(row, round);
    let Some(procedure) = procedure_of(words.word()) else {
        return Ok(Finding::Unreadable);
    };
    let call = call_of(alloc, procedure, &mut words)?;
    if words.word() != b"=".as_slice() {
        return Ok(Finding::Unreadable);
    }
    let answer = case.perform(alloc, &call);
    judged(alloc, procedure, answer, &mut words)
}

// Performs a call many times, until it is answered otherwise than the row says.
fn repeated(alloc: Global, case: &mut Case, count: u32, row: &[u8]) -> Result<Finding, NoMemory> {
    for round in 0..count {
        let finding = called(alloc, case, row, u64::from(round) + 1)?;
        if !matches!(finding, Finding::AsSaid) {
            return Ok(finding);
        }
    }
    Ok(Finding::AsSaid)
}

/// Performs a row of a case.
pub fn found(alloc: Global, case: &mut Case, row: &[u8]) -> Result<Finding, NoMemory> {
    if case.told(alloc, row)? {
        return Ok(Finding::AsSaid);
    }
    let mut words = Words::of(row, 0);
    if words.word() == b"times".as_slice() {
        let count = words.number_u32();
        case.stay_in_place();
        return repeated(alloc, case, count, words.rest());
    }
    called(alloc, case, row, 0)
}
