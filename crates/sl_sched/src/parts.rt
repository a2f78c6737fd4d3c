//! What stands behind the first word of a line. Of parts that spell nothing of the kind, nothing is said.
ghost use Rattle.std.specs.Prelude.{◌≡◌, ◌^◌, ◌<◌, ℕ, List, IfOk, decimal};
ghost use Rattle.sl_defs.specs.declared.setup.Setup.{Setup};
ghost use Rattle.sl_defs.specs.declared.setup.Time.{Time};
ghost use Rattle.sl_defs.specs.declared.setup.Policy.{Policy};
ghost use Rattle.sl_defs.specs.Schedules.{FitsCall, FitsMoment, FitsPolicy, FitsSetup, FitsThree, FitsTwo, call_text, moment_text, policy_number, policy_word, setup_text, three_text, two_text};

use sl_text::{cut, hex_bytes, number_u8, number_u32, number_u64};
use sl_types::{Bytes, NoMemory, Policy, Setup, Time};
use std::alloc::Global;

fn policy_of(word: &[u8], number: &[u8]) -> Policy
    ensures { (p : Policy) → FitsPolicy p → word.now ≡ policy_word p → number.now ≡ decimal (policy_number p) → result ≡ p }
{
    if word == b"switch".as_slice() {
        Policy::Switch(number_u8(number))
    } else {
        Policy::Hash
    }
}

/// A volume, its policy and the counts of its servers.
pub fn setup_of(text: &[u8]) -> Setup
    ensures { (s : Setup) → FitsSetup s → text.now ≡ setup_text s → result ≡ s }
{
    let (volume, rest) = cut(text);
    let (word, rest) = cut(rest);
    let (policy, rest) = cut(rest);
    let (dirs, rest) = cut(rest);
    let (small, nodes) = cut(rest);
    Setup {
        volume: number_u64(volume),
        policy: policy_of(word, policy),
        dirs: number_u8(dirs),
        small: number_u8(small),
        nodes: number_u8(nodes),
    }
}

/// Seconds and nanoseconds.
pub fn moment_of(text: &[u8]) -> Time
    ensures { (t : Time) → FitsMoment t → text.now ≡ moment_text t → result ≡ t }
{
    let (sec, nsec) = cut(text);
    Time {
        sec: number_u32(sec),
        nsec: number_u32(nsec),
    }
}

/// A client and its datagram.
pub fn call_of(alloc: Global, text: &[u8]) -> Result<(u32, Bytes), NoMemory>
    ensures { (client : ℕ) (datagram : List ℕ) → FitsCall client datagram → text.now ≡ call_text client datagram
        → IfOk result (λ x. (x.0 ≡ client) × (x.1 ≡ datagram)) }
{
    let (client, hex) = cut(text);
    let client = number_u32(client);
    match hex_bytes(alloc, hex) {
        Ok(datagram) => Ok((client, datagram)),
        Err(e) => Err(e),
    }
}

/// An actor and a number.
pub fn two_of(text: &[u8]) -> (u8, u64)
    ensures { (a b : ℕ) → FitsTwo a b → text.now ≡ two_text a b → (result.0 ≡ a) × (result.1 ≡ b) }
{
    let (actor, number) = cut(text);
    (number_u8(actor), number_u64(number))
}

/// An actor and two numbers.
pub fn three_of(text: &[u8]) -> (u8, u64, u64)
    ensures { (a b c : ℕ) → FitsThree a b c → text.now ≡ three_text a b c → (result.0 ≡ a) × (result.1 ≡ b) × (result.2 ≡ c) }
{
    let (actor, rest) = cut(text);
    let (first, second) = cut(rest);
    (number_u8(actor), number_u64(first), number_u64(second))
}
