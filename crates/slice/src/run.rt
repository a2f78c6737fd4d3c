//! The top call.
ghost use Rattle.std.specs.Prelude.{◌≡◌, ◌↔◌, ◌<◌, ◌≤◌, MatchResult, IsTrue, length};
ghost use Rattle.slice.specs.Outside.{Rose};
ghost use Rattle.slice.specs.Replays.{AddsBlock, GaveAll, IsReplay, IsRun, ReadBlames, ReadStops, TakesBlock};
ghost use Rattle.slice.specs.declared.status.Status.{Status};

use crate::perform::perform;
use crate::sink::Sink;
use crate::source::Source;
use crate::status::{ReadEnd, Status};
use std::alloc::Global;

/// The most bytes that a schedule may have.
const LIMIT: usize = 67108864;

/// How many bytes are read at a time.
const BLOCK: usize = 65536;

/// Reads some bytes of the source through a block, and adds them. Zero is the end.
fn read_block<S: Source>(
    source: &mut S,
    block: &mut [u8],
    text: &mut Vec<u8>,
) -> Result<usize, ReadEnd>
    requires { 0 < length block.old }
    ensures read { MatchResult result
        (λ n. AddsBlock (S.left source.old) (S.left source.new) (length block.old) text.old.items text.new.items n)
        (λ e. text.new.items ≡ text.old.items × TakesBlock e (S.left source.old) (S.left source.new) (length block.old)) }
    ensures later { S.faults source.old ≤ S.faults source.new }
    ensures fault { MatchResult result (λ _. Unit {0}) (λ e. ReadBlames e (S.faults source.old) (S.faults source.new)) }
{
    match source.read(block) {
        Ok(count) => match text.extend_from_slice(&block[..count]) {
            Ok(()) => Ok(count),
            Err(_) => Err(ReadEnd::NoMemory),
        },
        Err(_) => Err(ReadEnd::ReadFault),
    }
}

/// Reads the source to its end, one byte more than the limit at most.
fn read_all<S: Source>(alloc: Global, source: &mut S) -> Result<Vec<u8>, ReadEnd>
    ensures read { MatchResult result (λ v. GaveAll (S.left source.old) (S.left source.new) v.items) (λ e. ReadStops e (S.left source.old) (S.left source.new)) }
    ensures later { S.faults source.old ≤ S.faults source.new }
    ensures fault { MatchResult result (λ _. Unit {0}) (λ e. ReadBlames e (S.faults source.old) (S.faults source.new)) }
{
    let mut text = Vec::new(alloc);
    let mut block = [0u8; BLOCK];
    // Each turn takes at least a byte, or ends the loop.
    for _ in 0..LIMIT + 2 {
        let room = BLOCK.min(LIMIT + 1 - text.len());
        match read_block(source, &mut block[..room], &mut text) {
            Ok(count) => {
                if count == 0 {
                    return Ok(text);
                }
            }
            Err(end) => return Err(end),
        }
        if text.len() > LIMIT {
            return Err(ReadEnd::TooLong);
        }
    }
    Err(ReadEnd::TooLong)
}

fn is_replay(words: &[String]) -> bool
    ensures { IsTrue result ↔ IsReplay words.now }
{
    match words {
        [word] => word.as_str() == "replay",
        _ => false,
    }
}

/// Does all that the program does: with the one word `replay`, reads the source whole, performs its lines and writes
/// the transcript to the sink.
pub fn run<S: Source, K: Sink>(
    alloc: Global,
    words: &[String],
    source: &mut S,
    sink: &mut K,
) -> Status
    // By the status: what the source gave, which of its lines were performed, and the history whose text the sink took.
    ensures run { IsRun result (S.left source.old) (S.left source.new) (K.holds sink.old) (K.holds sink.new) }
    ensures words { (result ≡ Status.BadWords) ↔ (IsReplay words.now → ⊥) }
    ensures read_fault { result ≡ Status.ReadFault → Rose (S.faults source.old) (S.faults source.new) }
    ensures write_fault { result ≡ Status.WriteFault → Rose (K.faults sink.old) (K.faults sink.new) }
{
    if !is_replay(words) {
        return Status::BadWords;
    }
    match read_all(alloc, source) {
        Ok(text) => perform(alloc, &text, sink),
        Err(ReadEnd::ReadFault) => Status::ReadFault,
        Err(ReadEnd::TooLong) => Status::TooLong,
        Err(ReadEnd::NoMemory) => Status::NoMemory,
    }
}
