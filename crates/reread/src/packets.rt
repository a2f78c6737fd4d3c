//! Packets: the arguments and the results of a procedure.
ghost use Rattle.std.specs.Prelude.{◌≡◌, ◌^◌, ◌<◌, ℕ, List, IfOk};
ghost use Rattle.sl_calls.specs.Args.{FitsLengths, args_text};
ghost use Rattle.sl_defs.specs.Items.{AreBytes};
ghost use Rattle.sl_defs.specs.Schedules.{hex_text};
ghost use Rattle.sl_replies.specs.Texts.{FitsReply, reply_text};
ghost use Rattle.reread.specs.Answers.{IsCallAnswer, IsReplyAnswer, packet_text};

use crate::words::word;
use sl_calls::{read_args, write_args};
use sl_replies::{read_reply, write_reply};
use sl_text::{cut, hex_bytes, number_u32, put_hex};
use sl_types::{ArgsFault, Bytes, Call, NoMemory, Reply};
use std::alloc::Global;

/// The number of a procedure, and the bytes behind it. Of a text that spells nothing of the kind nothing is said.
pub fn packet_of(alloc: Global, text: &[u8]) -> Result<(u32, Bytes), NoMemory>
    ensures { (procedure : ℕ) (bytes : List ℕ) → procedure < 2 ^ 32 → AreBytes bytes → text.now ≡ packet_text procedure bytes
        → IfOk result (λ x. (x.0 ≡ procedure) × (x.1 ≡ bytes)) }
{
    let (procedure, hex) = cut(text);
    let procedure = number_u32(procedure);
    match hex_bytes(alloc, hex) {
        Ok(bytes) => Ok((procedure, bytes)),
        Err(e) => Err(e),
    }
}

/// A call's arguments in hexadecimal.
fn call_digits(alloc: Global, call: &Call) -> Result<Vec<u8>, NoMemory>
    requires { FitsLengths call.now }
    ensures { IfOk result (λ digits. digits.items ≡ hex_text (args_text call.now)) }
{
    let mut args = Vec::new(alloc);
    if write_args(call, &mut args).is_err() {
        return Err(NoMemory);
    }
    let mut digits = Vec::new(alloc);
    put_hex(&mut digits, &args)?;
    Ok(digits)
}

/// A reply's results in hexadecimal.
fn reply_digits(alloc: Global, reply: &Reply) -> Result<Vec<u8>, NoMemory>
    requires { FitsReply reply.now }
    ensures { IfOk result (λ digits. digits.items ≡ hex_text (reply_text reply.now)) }
{
    let mut results = Vec::new(alloc);
    if write_reply(reply, &mut results).is_err() {
        return Err(NoMemory);
    }
    let mut digits = Vec::new(alloc);
    put_hex(&mut digits, &results)?;
    Ok(digits)
}

/// The arguments of a procedure at the front of the bytes, in their canonical spelling; or `garbage`.
pub fn reread_call(alloc: Global, procedure: u32, bytes: &[u8]) -> Result<Vec<u8>, NoMemory>
    ensures { IfOk result (λ answer. IsCallAnswer procedure bytes.now answer.items) }
{
    match read_args(alloc, procedure, bytes) {
        Ok(call) => call_digits(alloc, &call),
        Err(ArgsFault::Garbage) => word(alloc, b"garbage"),
        Err(ArgsFault::NoMemory) => Err(NoMemory),
    }
}

/// The results of a procedure that the whole bytes spell, in their canonical spelling; or `garbage`.
pub fn reread_reply(alloc: Global, procedure: u32, bytes: &[u8]) -> Result<Vec<u8>, NoMemory>
    ensures { IfOk result (λ answer. IsReplyAnswer procedure bytes.now answer.items) }
{
    match read_reply(alloc, procedure, bytes) {
        Ok(reply) => reply_digits(alloc, &reply),
        Err(ArgsFault::Garbage) => word(alloc, b"garbage"),
        Err(ArgsFault::NoMemory) => Err(NoMemory),
    }
}
