//! Transcripts, read as histories.
ghost use Rattle.std.specs.Prelude.{◌≡◌, ◌++◌, ℕ, List, All, Err, IfOk};
ghost use Rattle.std.specs.Option.{option_copied};
ghost use Rattle.sl_defs.specs.Histories as histories;
ghost use Rattle.sl_defs.specs.Histories.{line_of, turn_text};
ghost use Rattle.sl_defs.specs.Schedules.{FitsLine, FitsSetup, IsLine, line_text};
ghost use Rattle.sl_history.specs.Turns as turns;
ghost use Rattle.sl_history.specs.Turns.{printed_turn};
ghost use Rattle.sl_past.specs.Fronts.{BeginsWithTurn, FitsOpening};
ghost use Rattle.sl_past.specs.Transcripts.{FitsTurn, HasRightMoments, IsTranscriptOf, IsTurnAt, moment_then, volume_then};
ghost use Rattle.sl_past.specs.Words.{happening_of};

use crate::fault::TranscriptFault;
use crate::happening::Happening;
use crate::lines::cut_line;
use crate::notes::read_remarks;
use crate::turn::Turn;
use sl_defs::{Line, Setup, Time};
use sl_sched::read_line;
use sl_types::LineFault;
use std::alloc::Global;

/// The opening of a volume.
fn opens(setup: Setup) -> Happening
    ensures is { happening_of result ≡ histories.Opens setup }
    ensures fits { FitsSetup setup }
{
    Happening::Opens(setup)
}

/// What happens by this line, where the volume is this or isn't known yet.
fn read_happening(
    alloc: Global,
    line: &[u8],
    volume: Option<&Setup>,
) -> Result<Happening, TranscriptFault>
    ensures found { IfOk result (λ happening. IsLine (option_copied volume.entry) (line_of (happening_of happening)) × (line.now ≡ line_text (line_of (happening_of happening)))) }
    ensures fits { IfOk result (λ happening. FitsOpening (happening_of happening)) }
    ensures bad { result ≡ Err TranscriptFault.Bad → (happening : histories.Happening) → FitsLine (line_of happening)
        → IsLine (option_copied volume.entry) (line_of happening) → line.now ≡ line_text (line_of happening) → ⊥ }
{
    match read_line(alloc, line, volume) {
        Ok(Line::Volume(setup)) => Ok(opens(setup)),
        Ok(Line::At(moment)) => Ok(Happening::Reaches(moment)),
        Ok(Line::Happens(event)) => Ok(Happening::Happens(event)),
        Ok(Line::Flow(_) | Line::Remark(_)) | Err(LineFault::Bad) => Err(TranscriptFault::Bad),
        Err(LineFault::NoMemory) => Err(TranscriptFault::NoMemory),
    }
}

/// The moment of what happens, behind what happened at this one.
fn moment_after(happening: &Happening, before: Time) -> Time
    ensures { result ≡ moment_then (happening_of happening.now) before }
{
    match happening {
        Happening::Reaches(moment) => *moment,
        Happening::Opens(_) | Happening::Happens(_) => before,
    }
}

/// The volume behind what happens, where it was this.
fn volume_after(happening: &Happening, before: Option<Setup>) -> Option<Setup>
    ensures { result ≡ volume_then (happening_of happening.now) before }
{
    match happening {
        Happening::Opens(setup) => Some(*setup),
        Happening::Reaches(_) | Happening::Happens(_) => before,
    }
}

/// The turn at the front of the text, and what is left behind it, where the volume and the moment before are these.
fn read_turn<'a>(
    alloc: Global,
    text: &'a [u8],
    volume: Option<&Setup>,
    moment: Time,
) -> Result<(Turn, &'a [u8]), TranscriptFault>
    ensures found { IfOk result (λ x. IsTurnAt (option_copied volume.entry) x.0 × (text.now ≡ turn_text (printed_turn x.0) ++ x.1.now)) }
    ensures moment { IfOk result (λ x. x.0.moment ≡ moment_then x.0.happening moment) }
    ensures rest { IfOk result (λ x. (t : turns.Turn) (rest : List ℕ) → BeginsWithTurn (option_copied volume.entry) text.now t rest
        → (volume_then x.0.happening (option_copied volume.entry) ≡ volume_then t.happening (option_copied volume.entry)) × (x.1.now ≡ rest)) }
    ensures bad { result ≡ Err TranscriptFault.Bad → (t : turns.Turn) (rest : List ℕ) → BeginsWithTurn (option_copied volume.entry) text.now t rest → ⊥ }
{
    let Some((line, behind)) = cut_line(text) else {
        return Err(TranscriptFault::Bad);
    };
    let happening = read_happening(alloc, line, volume)?;
    let (remarks, rest) = read_remarks(alloc, behind)?;
    let moment = moment_after(&happening, moment);
    Ok((Turn::new(happening, moment, remarks), rest))
}

/// The history of which the text is the transcript, the newest turn first. Each turn has the moment that is set when it
/// happens.
pub fn read_history(alloc: Global, text: &[u8]) -> Result<Vec<Turn>, TranscriptFault>
    // What is read is a history in which each turn may stand in its place, and the text is its transcript.
    ensures found { IfOk result (λ history. IsTranscriptOf text.now history.items × HasRightMoments history.items) }
    // It is bad only where the text is the transcript of no such history.
    ensures bad { result ≡ Err TranscriptFault.Bad → (history : turns.History) → All FitsTurn history → IsTranscriptOf text.now history → ⊥ }
{
    let mut turns = Vec::new(alloc);
    let mut volume = None;
    let mut moment = Time { sec: 0, nsec: 0 };
    let mut rest = text;
    while !rest.is_empty() {
        let (turn, behind) = match read_turn(alloc, rest, volume.as_ref(), moment) {
            Ok(parts) => parts,
            Err(fault) => return Err(fault),
        };
        volume = volume_after(turn.happening(), volume);
        moment = turn.moment();
        if turns.push(turn).is_err() {
            return Err(TranscriptFault::NoMemory);
        }
        rest = behind;
    }
    turns.reverse();
    Ok(turns)
}
