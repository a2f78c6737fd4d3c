ghost use Rattle.std.specs.Prelude.{◌≡◌, ◌++◌, OnOk, OnErr, decimal, length, take};
ghost use Rattle.sl_defs.specs.Transcripts.{choice_text, did_text, effect_text, note_text, reply_text, sent_text, verifier_text};

use hex::encode_to_slice;
use sl_defs::{Choice, Printed};
use sl_text::{put, put_decimal, put_hex, put_moment, put_word_and_number};
use sl_types::{NoMemory, Time};

#[tactic(auto, unfolding(sl_defs::specs::Transcripts::sent_text), using(crate::proofs::Texts::joined))]
fn put_sent(out: &mut Vec<u8>, frame: u64, bytes: &[u8]) -> Result<(), NoMemory>
    ensures ok { OnOk result (out.new.items ≡ out.old.items ++ sent_text frame bytes.now) }
    ensures grew { take (length out.old.items) out.new.items ≡ out.old.items }
{
    put_decimal(out, frame)?;
    put(out, b" ")?;
    put_hex(out, bytes)?;
    Ok(())
}

#[tactic(auto, unfolding(sl_defs::specs::Transcripts::reply_text, sl_defs::specs::Schedules::two_text), using(crate::proofs::Texts::joined))]
fn put_reply(out: &mut Vec<u8>, arrival: u64, event: u64, bytes: &[u8]) -> Result<(), NoMemory>
    ensures ok { OnOk result (out.new.items ≡ out.old.items ++ reply_text arrival event bytes.now) }
    ensures grew { take (length out.old.items) out.new.items ≡ out.old.items }
{
    put_decimal(out, arrival)?;
    put(out, b" ")?;
    put_decimal(out, event)?;
    put(out, b" ")?;
    put_hex(out, bytes)?;
    Ok(())
}

#[tactic(auto, unfolding(sl_defs::specs::Transcripts::choice_text), using(crate::proofs::Texts::joined))]
fn put_choice(out: &mut Vec<u8>, choice: Choice) -> Result<(), NoMemory>
    ensures ok { OnOk result (out.new.items ≡ out.old.items ++ choice_text choice) }
    ensures grew { take (length out.old.items) out.new.items ≡ out.old.items }
{
    put_decimal(out, choice.fileid)?;
    put(out, b" ")?;
    put_decimal(out, if choice.kept { 1 } else { 0 })?;
    Ok(())
}

#[tactic(auto, unfolding(sl_defs::specs::Transcripts::effect_text), using(crate::proofs::Texts::joined))]
fn put_effect(out: &mut Vec<u8>, at: Time, choice: Choice) -> Result<(), NoMemory>
    ensures ok { OnOk result (out.new.items ≡ out.old.items ++ effect_text at choice) }
    ensures grew { take (length out.old.items) out.new.items ≡ out.old.items }
{
    put_moment(out, at)?;
    put(out, b" ")?;
    put_choice(out, choice)?;
    Ok(())
}

#[tactic(auto, unfolding(sl_defs::specs::Transcripts::did_text), using(crate::proofs::Texts::joined))]
fn put_did(out: &mut Vec<u8>, arrival: u64, at: Time, choice: Choice) -> Result<(), NoMemory>
    ensures ok { OnOk result (out.new.items ≡ out.old.items ++ did_text arrival at choice) }
    ensures grew { take (length out.old.items) out.new.items ≡ out.old.items }
{
    put_decimal(out, arrival)?;
    put(out, b" ")?;
    put_effect(out, at, choice)?;
    Ok(())
}

#[tactic(auto, unfolding(sl_defs::specs::Transcripts::verifier_text, sl_defs::specs::Items::u64_text))]
fn put_verifier(out: &mut Vec<u8>, verifier: u64) -> Result<(), NoMemory>
    ensures ok { OnOk result (out.new.items ≡ out.old.items ++ verifier_text verifier) }
    ensures err { OnErr result (out.new.items ≡ out.old.items) }
{
    let mut digits = [0; 16];
    encode_to_slice(verifier.to_be_bytes(), &mut digits).unwrap();
    put(out, &digits)
}

#[tactic(auto, using(crate::proofs::Texts::joined))]
fn put_note(note: &Printed, out: &mut Vec<u8>) -> Result<(), NoMemory>
    ensures ok { OnOk result (out.new.items ≡ out.old.items ++ note_text note.now) }
    ensures grew { take (length out.old.items) out.new.items ≡ out.old.items }
{
    match note {
        Printed::Sent { frame, bytes } => {
            put(out, b"= sent ")?;
            put_sent(out, *frame, bytes.as_slice())
        }
        Printed::Did {
            arrival,
            at,
            choice,
        } => {
            put(out, b"= did ")?;
            put_did(out, *arrival, *at, *choice)
        }
        Printed::Flush(fileid) => put_word_and_number(out, b"= flush ", *fileid),
        Printed::Verf(verifier) => {
            put(out, b"= verf ")?;
            put_verifier(out, *verifier)
        }
        Printed::Reply {
            arrival,
            event,
            bytes,
        } => {
            put(out, b"= reply ")?;
            put_reply(out, *arrival, *event, bytes.as_slice())
        }
        Printed::Junk(arrival) => put_word_and_number(out, b"= junk ", *arrival),
        Printed::Early(arrival) => put_word_and_number(out, b"= early ", *arrival),
        Printed::Full(arrival) => put_word_and_number(out, b"= full ", *arrival),
        Printed::Lost(arrival) => put_word_and_number(out, b"= lost ", *arrival),
        Printed::Down(actor) => put_word_and_number(out, b"= down ", u64::from(*actor)),
    }
}

/// Appends a note's text, without an end of line.
pub fn write_note(note: &Printed, out: &mut Vec<u8>) -> Result<(), NoMemory>
    ensures ok { OnOk result (out.new.items ≡ out.old.items ++ note_text note.now) }
    ensures err { OnErr result (out.new.items ≡ out.old.items) }
{
    let before = out.len();
    match put_note(note, out) {
        Ok(()) => Ok(()),
        Err(e) => {
            out.truncate(before);
            Err(e)
        }
    }
}
