//! What is counted in a history in which nothing is lost, stops or fails.
ghost use Rattle.std.specs.Prelude.{◌≡◌, ◌↔◌, ◌-◌, ◌^◌, ◌≤◌, ◌&&◌, ◌∷◌, [], map, min, not, true};
ghost use Rattle.std.specs.List.{count_by, list_any};
ghost use Rattle.sl_history.specs.Completing as completing;
ghost use Rattle.sl_past.specs.Words.{happening_of, remark_of};
ghost use Rattle.sl_recall.specs.Disturbing.{is_disturbed_turn};

use sl_defs::Event;
use sl_past::{Happening, Remark, Turn};

fn is_call(happening: &Happening) -> bool
    ensures { result ≡ completing.is_call (happening_of happening.now) }
{
    matches!(happening, Happening::Happens(Event::Call { .. }))
}

fn is_tick(happening: &Happening) -> bool
    ensures { result ≡ completing.is_tick (happening_of happening.now) }
{
    matches!(happening, Happening::Happens(Event::Tick))
}

fn is_copy(happening: &Happening) -> bool
    ensures { result ≡ completing.is_copy (happening_of happening.now) }
{
    matches!(happening, Happening::Happens(Event::Copy(_)))
}

fn is_given(happening: &Happening) -> bool
    ensures { result ≡ completing.is_given (happening_of happening.now) }
{
    matches!(
        happening,
        Happening::Happens(Event::Give(_) | Event::Copy(_))
    )
}

fn disturbs(happening: &Happening) -> bool
    ensures { result ≡ completing.disturbs (happening_of happening.now) }
{
    matches!(
        happening,
        Happening::Happens(
            Event::Drop(_)
                | Event::Stop { .. }
                | Event::Start(_)
                | Event::Fuse { .. }
                | Event::Fail { .. }
        )
    )
}

/// Whether the remark is that an actor went down.
fn is_down(remark: &Remark) -> bool
    ensures { result ≡ not (completing.no_one_down (remark_of remark.now ∷ [])) }
{
    matches!(remark, Remark::Down(_))
}

/// Whether no actor went down.
fn no_one_down(remarks: &[Remark]) -> bool
    ensures { result ≡ completing.no_one_down (map remark_of remarks.now) }
{
    for remark in remarks {
        if is_down(remark) {
            return false;
        }
    }
    true
}

/// Whether something is lost, stops or fails in the turn.
fn is_disturbed_turn(turn: &Turn) -> bool
    ensures { result ≡ is_disturbed_turn turn.now }
{
    disturbs(turn.happening()) || !no_one_down(turn.remarks())
}

/// Whether something is lost, stops or fails in a turn.
fn is_disturbed(history: &[Turn]) -> bool
    ensures { result ≡ list_any is_disturbed_turn history.now }
{
    history.iter().any(|turn| is_disturbed_turn(turn))
}

/// Whether nothing is lost, stops or fails.
pub(crate) fn is_undisturbed(history: &[Turn]) -> bool
    ensures { result ≡ completing.is_undisturbed history.now }
{
    !is_disturbed(history)
}

/// So many frames are given at most; a number that passes the end of its type is as good as the last one.
fn most_frames(calls: u64, ticks: u64, copies: u64) -> u64
    ensures { result ≡ min (completing.most_frames calls ticks copies) (2 ^ 64 - 1) }
{
    let pairs = calls.saturating_mul(calls.saturating_add(1));
    let waits = calls.saturating_mul(ticks);
    256_u64
        .saturating_mul(calls)
        .saturating_add(2)
        .saturating_add(2_u64.saturating_mul(pairs))
        .saturating_add(80_u64.saturating_mul(waits))
        .saturating_add(2_u64.saturating_mul(ticks))
        .saturating_add(4_u64.saturating_mul(copies))
}

/// How many calls came.
fn calls(history: &[Turn]) -> u64
    ensures { result ≡ count_by (λ t. completing.is_call t.happening) history.now }
{
    history
        .iter()
        .filter(|turn| is_call(turn.happening()))
        .count() as u64
}

/// How many ticks there were.
fn ticks(history: &[Turn]) -> u64
    ensures { result ≡ count_by (λ t. completing.is_tick t.happening) history.now }
{
    history
        .iter()
        .filter(|turn| is_tick(turn.happening()))
        .count() as u64
}

/// How many frames were copied.
fn copies(history: &[Turn]) -> u64
    ensures { result ≡ count_by (λ t. completing.is_copy t.happening) history.now }
{
    history
        .iter()
        .filter(|turn| is_copy(turn.happening()))
        .count() as u64
}

/// How many frames were given.
fn given(history: &[Turn]) -> u64
    ensures { result ≡ count_by (λ t. completing.is_given t.happening) history.now }
{
    history
        .iter()
        .filter(|turn| is_given(turn.happening()))
        .count() as u64
}

/// Whether no more frames were given than may be.
pub(crate) fn is_bounded(history: &[Turn]) -> bool
    ensures { (result ≡ true) ↔ (completing.count completing.is_given history.now ≤ completing.most_frames (completing.count completing.is_call history.now) (completing.count completing.is_tick history.now) (completing.count completing.is_copy history.now)) }
{
    given(history) <= most_frames(calls(history), ticks(history), copies(history))
}
