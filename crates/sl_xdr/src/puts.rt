ghost use Rattle.std.specs.Prelude.{◌≡◌, ◌+◌, ◌^◌, ◌<◌, ◌++◌, length, OnOk, OnErr};
ghost use Rattle.sl_defs.specs.Items.{u32_text, u64_text, opaque_text};
ghost use Rattle.sl_xdr.specs.Reading.{number_of_flag};

use byteorder::{BigEndian, ByteOrder};

/// Memory ran out.
#[derive(Clone, Copy, Debug, PartialEq, Eq)]
pub struct NoMemory;

/// Appends a number as four bytes, the highest first (RFC 4506, section 4.2).
#[tactic(auto, unfolding(sl_defs::specs::Items::u32_text))]
pub fn put_u32(out: &mut Vec<u8>, v: u32) -> Result<(), NoMemory>
    ensures ok { OnOk result (out.new.items ≡ out.old.items ++ u32_text v) }
    ensures err { OnErr result (out.new.items ≡ out.old.items) }
{
    let mut item = [0; 4];
    BigEndian::write_u32(&mut item, v);
    out.extend_from_slice(&item).map_err(|_| NoMemory)
}

/// Appends a number as eight bytes, the highest first (RFC 4506, section 4.5).
#[tactic(auto, unfolding(sl_defs::specs::Items::u64_text))]
pub fn put_u64(out: &mut Vec<u8>, v: u64) -> Result<(), NoMemory>
    ensures ok { OnOk result (out.new.items ≡ out.old.items ++ u64_text v) }
    ensures err { OnErr result (out.new.items ≡ out.old.items) }
{
    let mut item = [0; 8];
    BigEndian::write_u64(&mut item, v);
    out.extend_from_slice(&item).map_err(|_| NoMemory)
}

/// Appends a flag as the number 0 or 1 (RFC 4506, section 4.4).
pub fn put_flag(out: &mut Vec<u8>, v: bool) -> Result<(), NoMemory>
    ensures ok { OnOk result (out.new.items ≡ out.old.items ++ u32_text (number_of_flag v)) }
    ensures err { OnErr result (out.new.items ≡ out.old.items) }
{
    put_u32(out, if v { 1 } else { 0 })
}

/// Appends an opaque: its length, its bytes, and zeros up to a multiple of four (RFC 4506, section 4.10).
#[tactic(auto, using(sl_defs::proofs::ItemLaws::zeros), unfolding(sl_defs::specs::Items::opaque_text))]
pub fn put_opaque(out: &mut Vec<u8>, bytes: &[u8]) -> Result<(), NoMemory>
    requires { length bytes.now < 2 ^ 32 }
    ensures ok { OnOk result (out.new.items ≡ out.old.items ++ opaque_text bytes.now) }
    ensures err { OnErr result (out.new.items ≡ out.old.items) }
{
    let before = out.len();
    let zeros = [0, 0, 0];
    let padding = &zeros[..(4 - bytes.len() % 4) % 4];
    if put_u32(out, bytes.len() as u32).is_ok() {
        if out.extend_from_slice(bytes).is_ok() {
            if out.extend_from_slice(padding).is_ok() {
                return Ok(());
            }
        }
    }
    out.truncate(before);
    Err(NoMemory)
}
