ghost use Rattle.std.specs.Prelude.{◌≡◌, ◌+◌, ◌*◌, ◌++◌, IfSome, OnOk, OnErr, decimal, length, take};
ghost use Rattle.sl_defs.specs.Schedules.{hex_text, moment_text};

use hex::encode_to_slice;
use itoa::Buffer;
use sl_defs::{NoMemory, Time};

/// Appends some text.
pub fn put(out: &mut Vec<u8>, text: &[u8]) -> Result<(), NoMemory>
    ensures ok { OnOk result (out.new.items ≡ out.old.items ++ text.now) }
    ensures err { OnErr result (out.new.items ≡ out.old.items) }
{
    match out.extend_from_slice(text) {
        Ok(()) => Ok(()),
        Err(_) => Err(NoMemory),
    }
}

/// Appends a number in decimal, without leading zeros.
pub fn put_decimal(out: &mut Vec<u8>, n: u64) -> Result<(), NoMemory>
    ensures ok { OnOk result (out.new.items ≡ out.old.items ++ decimal n) }
    ensures err { OnErr result (out.new.items ≡ out.old.items) }
{
    let mut buffer = Buffer::new();
    put(out, buffer.format(n).as_bytes())
}

/// The length of a text behind which two digits stand for each byte, where there is one.
fn length_with(before: usize, bytes: &[u8]) -> Option<usize>
    ensures { IfSome result (λ n. n ≡ before + 2 * length bytes.now) }
{
    before.checked_add(bytes.len())?.checked_add(bytes.len())
}

/// Appends bytes as lower-case hexadecimal digits, or a dash for none.
#[tactic(auto, unfolding(sl_defs::specs::Schedules::hex_text), using(crate::proofs::Texts::joined))]
pub fn put_hex(out: &mut Vec<u8>, bytes: &[u8]) -> Result<(), NoMemory>
    ensures ok { OnOk result (out.new.items ≡ out.old.items ++ hex_text bytes.now) }
    ensures err { OnErr result (out.new.items ≡ out.old.items) }
{
    if bytes.is_empty() {
        return put(out, b"-");
    }
    let before = out.len();
    // A text too long for its length to be a number has no room in memory either.
    let Some(after) = length_with(before, bytes) else {
        return Err(NoMemory);
    };
    if out.resize(after, 0).is_err() {
        return Err(NoMemory);
    }
    encode_to_slice(bytes, &mut out[before..]).unwrap();
    Ok(())
}

/// Appends a word, and a number behind it. If memory runs out, some of it may have been appended.
#[tactic(auto, using(crate::proofs::Texts::joined))]
pub fn put_word_and_number(out: &mut Vec<u8>, word: &[u8], n: u64) -> Result<(), NoMemory>
    ensures ok { OnOk result (out.new.items ≡ out.old.items ++ (word.now ++ decimal n)) }
    ensures grew { take (length out.old.items) out.new.items ≡ out.old.items }
{
    put(out, word)?;
    put_decimal(out, n)?;
    Ok(())
}

/// Appends seconds and nanoseconds. If memory runs out, some of it may have been appended.
#[tactic(auto, unfolding(sl_defs::specs::Schedules::moment_text), using(crate::proofs::Texts::joined))]
pub fn put_moment(out: &mut Vec<u8>, moment: Time) -> Result<(), NoMemory>
    ensures ok { OnOk result (out.new.items ≡ out.old.items ++ moment_text moment) }
    ensures grew { take (length out.old.items) out.new.items ≡ out.old.items }
{
    put_decimal(out, u64::from(moment.sec))?;
    put(out, b" ")?;
    put_decimal(out, u64::from(moment.nsec))?;
    Ok(())
}
