//! The results that packets have.
ghost use Rattle.std.specs.Prelude.{◌≡◌, IfOk};
ghost use Rattle.sl_defs.specs.Items.{Gives};
ghost use Rattle.sl_edit.specs.Spans as spans;
ghost use Rattle.sl_history.specs.Wired.{results_of};

use sl_defs::NoMemory;
use sl_replies::read_reply;
use sl_types::{ArgsFault, Reply};
use sl_xdr::{Cursor, Short};
use std::alloc::Global;

/// Passes this number.
#[tactic(auto, unfolding(sl_edit::specs::Spans::word_at))]
fn pass(word: u32, cursor: &mut Cursor<'_>) -> Result<(), Short>
    ensures { Gives (λ u. cursor.new.rest) result (spans.word_at word cursor.old.rest) }
{
    if cursor.take_u32()? == word {
        Ok(())
    } else {
        Err(Short)
    }
}

/// The results of a call that was accepted and succeeded (RFC 5531, section 9): they stand behind the xid, the numbers of
/// such a reply, and an empty verifier.
#[tactic(auto, unfolding(sl_edit::specs::Spans::results_in))]
fn results_in(packet: &[u8]) -> Result<&[u8], Short>
    ensures { Gives (λ r. r.now) result (spans.results_in packet.now) }
{
    let mut cursor = Cursor::new(packet);
    cursor.take_u32()?;
    pass(1, &mut cursor)?;
    pass(0, &mut cursor)?;
    pass(0, &mut cursor)?;
    pass(0, &mut cursor)?;
    pass(0, &mut cursor)?;
    Ok(cursor.rest())
}

/// The results that a packet has, where it is an accepted reply and they are of this procedure.
pub fn results_of(alloc: Global, procedure: u32, packet: &[u8]) -> Result<Option<Reply>, NoMemory>
    ensures { IfOk result (λ reply. reply ≡ results_of procedure packet.now) }
{
    let Ok(results) = results_in(packet) else {
        return Ok(None);
    };
    match read_reply(alloc, procedure, results) {
        Ok(reply) => Ok(Some(reply)),
        Err(ArgsFault::Garbage) => Ok(None),
        Err(ArgsFault::NoMemory) => Err(NoMemory),
    }
}
