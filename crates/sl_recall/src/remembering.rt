//! Whether a history remembers what it was told.
ghost use Rattle.std.specs.Prelude.{◌≡◌, ◌↔◌, ◌∷◌, ◌+◌, ◌≤◌, ◌<◌, ◌^◌, [], true, Ok, OnOk, length};
ghost use Rattle.sl_history.specs.Turns as turns;
ghost use Rattle.sl_history.specs.Turns.{begun};
ghost use Rattle.sl_history.specs.Remembering.{AllMayBeNoted, MayNote, Remembers};
ghost use Rattle.sl_history.specs.Deciding.{Says};
ghost use Rattle.sl_past.specs.Words.{remark_of};
ghost use Rattle.sl_recall.specs.Memories.{IsMemoryOf};

use crate::memory::Memory;
use sl_defs::NoMemory;
use sl_past::{Remark, Turn};
use std::alloc::Global;

/// Whether the remark may be noted next.
fn may_note(memory: &Memory, remark: &Remark) -> bool
    ensures { (h : turns.History) → IsMemoryOf h memory.now → (result ≡ true) ↔ MayNote h (remark_of remark.now) }
{
    match remark {
        Remark::Sent { frame, .. } => !memory.asks_again(frame.arrival, &frame.body),
        _ => true,
    }
}

/// Whether the remarks of a turn that has begun may be noted one after another.
fn may_be_noted(alloc: Global, memory: &mut Memory, turn: &Turn) -> Result<bool, NoMemory>
    ensures decides { (past : turns.History) → IsMemoryOf (begun past turn.now.happening turn.now.moment) memory.old → Says result (AllMayBeNoted turn.now past [] turn.now.remarks) }
    ensures takes { result ≡ Ok true → (past : turns.History) → IsMemoryOf (begun past turn.now.happening turn.now.moment) memory.old → IsMemoryOf (turn.now ∷ past) memory.new }
    ensures counted { OnOk result (memory.new.tellings.datagrams ≡ memory.old.tellings.datagrams) }
{
    for remark in turn.remarks() {
        if !may_note(memory, remark) {
            return Ok(false);
        }
        memory.note(alloc, remark)?;
    }
    Ok(true)
}

/// Whether the turn may stand behind those before it.
fn is_remembering_turn(alloc: Global, memory: &mut Memory, turn: &Turn) -> Result<bool, NoMemory>
    requires { memory.old.tellings.datagrams + 1 < 2 ^ 64 }
    ensures decides { (past : turns.History) → IsMemoryOf past memory.old → Says result (AllMayBeNoted turn.now past [] turn.now.remarks) }
    ensures takes { result ≡ Ok true → (past : turns.History) → IsMemoryOf past memory.old → IsMemoryOf (turn.now ∷ past) memory.new }
    ensures counted { OnOk result (memory.new.tellings.datagrams ≤ memory.old.tellings.datagrams + 1) }
{
    memory.begin(alloc, turn.happening())?;
    may_be_noted(alloc, memory, turn)
}

/// Whether the turns of a history may stand there, from the oldest on. The memory is that of no turn.
fn are_remembering(alloc: Global, memory: &mut Memory, history: &[Turn]) -> Result<bool, NoMemory>
    requires { memory.old.tellings.datagrams ≡ 0 }
    ensures { IsMemoryOf [] memory.old → Says result (Remembers history.now) }
{
    let mut left = history.len();
    while left > 0 {
        left -= 1;
        if !is_remembering_turn(alloc, memory, &history[left])? {
            return Ok(false);
        }
    }
    Ok(true)
}

/// Whether the proxy uses the attributes of a file that it was just told, and asks no server for them again. The newest turn
/// of the history is the first.
pub fn remembers(alloc: Global, history: &[Turn]) -> Result<bool, NoMemory>
    ensures { Says result (Remembers history.now) }
{
    let mut memory = Memory::new(alloc)?;
    are_remembering(alloc, &mut memory, history)
}
