//! What a part spells. Of a part that spells nothing of the kind, nothing is said: who reads a line prints what was
//! read, and compares.
ghost use Rattle.std.specs.Prelude.{◌≡◌, ◌^◌, ◌<◌, ℕ, List, IfOk, decimal};
ghost use Rattle.sl_defs.specs.Items.{AreBytes};
ghost use Rattle.sl_defs.specs.Schedules.{hex_text};

use hex::{FromHexError, decode};
use sl_defs::{Bytes, NoMemory};
use std::alloc::Global;

/// The number of 64 bits that a part spells.
pub fn number_u64(text: &[u8]) -> u64
    ensures { (n : ℕ) → n < 2 ^ 64 → text.now ≡ decimal n → result ≡ n }
{
    match str::from_utf8(text) {
        Ok(text) => match text.parse::<u64>() {
            Ok(number) => number,
            Err(_) => 0,
        },
        Err(_) => 0,
    }
}

/// The number of 32 bits that a part spells.
pub fn number_u32(text: &[u8]) -> u32
    ensures { (n : ℕ) → n < 2 ^ 32 → text.now ≡ decimal n → result ≡ n }
{
    let number = number_u64(text);
    if number < 4294967296 {
        number as u32
    } else {
        0
    }
}

/// The number of 8 bits that a part spells.
pub fn number_u8(text: &[u8]) -> u8
    ensures { (n : ℕ) → n < 2 ^ 8 → text.now ≡ decimal n → result ≡ n }
{
    let number = number_u64(text);
    if number < 256 { number as u8 } else { 0 }
}

/// The bytes that a part spells in hexadecimal.
pub fn hex_bytes(alloc: Global, text: &[u8]) -> Result<Bytes, NoMemory>
    ensures { (bytes : List ℕ) → AreBytes bytes → text.now ≡ hex_text bytes → IfOk result (λ found. found ≡ bytes) }
{
    if text == b"-".as_slice() {
        return Ok(Bytes::new(Vec::new(alloc)));
    }
    match decode(alloc, text) {
        Ok(bytes) => Ok(Bytes::new(bytes)),
        Err(fault) => match fault {
            FromHexError::OutOfMemory => Err(NoMemory),
            _ => Ok(Bytes::new(Vec::new(alloc))),
        },
    }
}
