ghost use Rattle.std.specs.Prelude.{◌≡◌, ◌++◌, OnOk, OnErr, decimal, length, take};
ghost use Rattle.sl_defs.specs.Schedules.{call_text, counts_text, event_text, line_text, moment_text, policy_text, setup_text, three_text, two_text};

use sl_defs::{Event, Line};
use sl_text::{put, put_decimal, put_hex, put_moment, put_word_and_number};
use sl_types::{NoMemory, Policy, Setup, Time};

#[tactic(auto, unfolding(sl_defs::specs::Schedules::policy_text), using(crate::proofs::Texts::joined))]
fn put_policy(out: &mut Vec<u8>, policy: Policy) -> Result<(), NoMemory>
    ensures ok { OnOk result (out.new.items ≡ out.old.items ++ policy_text policy) }
    ensures grew { take (length out.old.items) out.new.items ≡ out.old.items }
{
    match policy {
        Policy::Switch(p) => {
            put(out, b"switch ")?;
            put_decimal(out, u64::from(p))?;
            Ok(())
        }
        Policy::Hash => {
            put(out, b"hash ")?;
            put_decimal(out, 0)?;
            Ok(())
        }
    }
}

#[tactic(auto, unfolding(sl_defs::specs::Schedules::counts_text), using(crate::proofs::Texts::joined))]
fn put_counts(out: &mut Vec<u8>, s: &Setup) -> Result<(), NoMemory>
    ensures ok { OnOk result (out.new.items ≡ out.old.items ++ counts_text s.now) }
    ensures grew { take (length out.old.items) out.new.items ≡ out.old.items }
{
    put_decimal(out, u64::from(s.dirs))?;
    put(out, b" ")?;
    put_decimal(out, u64::from(s.small))?;
    put(out, b" ")?;
    put_decimal(out, u64::from(s.nodes))?;
    Ok(())
}

#[tactic(auto, unfolding(sl_defs::specs::Schedules::setup_text), using(crate::proofs::Texts::joined))]
fn put_setup(out: &mut Vec<u8>, s: &Setup) -> Result<(), NoMemory>
    ensures ok { OnOk result (out.new.items ≡ out.old.items ++ setup_text s.now) }
    ensures grew { take (length out.old.items) out.new.items ≡ out.old.items }
{
    put_decimal(out, s.volume)?;
    put(out, b" ")?;
    put_policy(out, s.policy)?;
    put(out, b" ")?;
    put_counts(out, s)?;
    Ok(())
}

#[tactic(auto, unfolding(sl_defs::specs::Schedules::call_text), using(crate::proofs::Texts::joined))]
fn put_call(out: &mut Vec<u8>, client: u32, datagram: &[u8]) -> Result<(), NoMemory>
    ensures ok { OnOk result (out.new.items ≡ out.old.items ++ call_text client datagram.now) }
    ensures grew { take (length out.old.items) out.new.items ≡ out.old.items }
{
    put_decimal(out, u64::from(client))?;
    put(out, b" ")?;
    put_hex(out, datagram)?;
    Ok(())
}

#[tactic(auto, unfolding(sl_defs::specs::Schedules::two_text), using(crate::proofs::Texts::joined))]
fn put_two(out: &mut Vec<u8>, a: u64, b: u64) -> Result<(), NoMemory>
    ensures ok { OnOk result (out.new.items ≡ out.old.items ++ two_text a b) }
    ensures grew { take (length out.old.items) out.new.items ≡ out.old.items }
{
    put_decimal(out, a)?;
    put(out, b" ")?;
    put_decimal(out, b)?;
    Ok(())
}

#[tactic(auto, unfolding(sl_defs::specs::Schedules::three_text), using(crate::proofs::Texts::joined))]
fn put_three(out: &mut Vec<u8>, a: u64, b: u64, c: u64) -> Result<(), NoMemory>
    ensures ok { OnOk result (out.new.items ≡ out.old.items ++ three_text a b c) }
    ensures grew { take (length out.old.items) out.new.items ≡ out.old.items }
{
    put_decimal(out, a)?;
    put(out, b" ")?;
    put_two(out, b, c)?;
    Ok(())
}

#[tactic(auto, using(crate::proofs::Texts::joined))]
fn put_event(event: &Event, out: &mut Vec<u8>) -> Result<(), NoMemory>
    ensures ok { OnOk result (out.new.items ≡ out.old.items ++ event_text event.now) }
    ensures grew { take (length out.old.items) out.new.items ≡ out.old.items }
{
    match event {
        Event::Call { client, datagram } => {
            put(out, b"call ")?;
            put_call(out, *client, datagram.as_slice())
        }
        Event::Give(k) => put_word_and_number(out, b"give ", *k),
        Event::Copy(k) => put_word_and_number(out, b"copy ", *k),
        Event::Drop(k) => put_word_and_number(out, b"drop ", *k),
        Event::Tick => put(out, b"tick"),
        Event::Stop { actor, image } => {
            put(out, b"stop ")?;
            put_two(out, u64::from(*actor), *image)
        }
        Event::Start(actor) => put_word_and_number(out, b"start ", u64::from(*actor)),
        Event::Fuse {
            actor,
            after,
            image,
        } => {
            put(out, b"fuse ")?;
            put_three(out, u64::from(*actor), *after, *image)
        }
        Event::Fail { actor, after } => {
            put(out, b"fail ")?;
            put_two(out, u64::from(*actor), *after)
        }
    }
}

#[tactic(auto, using(crate::proofs::Texts::joined))]
fn put_line(line: &Line, out: &mut Vec<u8>) -> Result<(), NoMemory>
    ensures ok { OnOk result (out.new.items ≡ out.old.items ++ line_text line.now) }
    ensures grew { take (length out.old.items) out.new.items ≡ out.old.items }
{
    match line {
        Line::Volume(setup) => {
            put(out, b"volume ")?;
            put_setup(out, setup)
        }
        Line::At(moment) => {
            put(out, b"at ")?;
            put_moment(out, *moment)
        }
        Line::Happens(event) => put_event(event, out),
        Line::Flow(most) => put_word_and_number(out, b"flow ", u64::from(*most)),
        Line::Remark(bytes) => {
            put(out, b"=")?;
            put(out, bytes.as_slice())
        }
    }
}

/// Appends a line's text, without an end of line.
pub fn write_line(line: &Line, out: &mut Vec<u8>) -> Result<(), NoMemory>
    ensures ok { OnOk result (out.new.items ≡ out.old.items ++ line_text line.now) }
    ensures err { OnErr result (out.new.items ≡ out.old.items) }
{
    let before = out.len();
    match put_line(line, out) {
        Ok(()) => Ok(()),
        Err(e) => {
            out.truncate(before);
            Err(e)
        }
    }
}
