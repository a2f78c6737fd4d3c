//! What is said of a text.
ghost use Rattle.std.specs.Prelude.{◌≡◌, IfOk};
ghost use Rattle.sl_model.specs.Perform.{fresh};
ghost use Rattle.sl_history.specs.Completing.{Completed};
ghost use Rattle.sl_history.specs.Fenced.{Fenced};
ghost use Rattle.sl_history.specs.Legal.{Legal};
ghost use Rattle.sl_history.specs.Licensed.{Licensed};
ghost use Rattle.sl_history.specs.Remembering.{Remembers};
ghost use Rattle.sl_history.specs.Wired.{Wired};
ghost use Rattle.sl_referee.specs.declared.fault.RefereeFault.TheVariants as fault;
ghost use Rattle.sl_referee.specs.Stops as referee;
ghost use Rattle.sl_ledger.specs.declared.fault.AuditFault.TheVariants as audit;
ghost use Rattle.sl_ledger.specs.Stops as ledger;
ghost use Rattle.referee.specs.Verdicts.{AreFindings, IsAudited, IsFound, IsJudged, IsVerdict, plain_answer, setup_of};

use sl_defs::{Policy, Setup};
use sl_ledger::AuditFault;
use sl_licence::is_licensed;
use sl_past::{Happening, TranscriptFault, Turn, read_history};
use sl_plain::Volume;
use sl_recall::{is_completed, is_fenced, remembers};
use sl_referee::{RefereeFault, is_legal};
use sl_types::NoMemory;
use sl_wiring::is_wired;
use std::alloc::Global;

/// Whether a claim holds of a history.
#[derive(Clone, Copy, Debug, PartialEq, Eq)]
pub enum Answer {
    Yes,
    No,
    /// To perform a call of the history, a number would have to pass the end of its type.
    Spent,
    /// No packet can hold the reply to a call of the history.
    TooLong,
}

/// What is said of a history, claim by claim.
#[derive(Clone, Copy, Debug, PartialEq, Eq)]
pub struct Findings {
    pub legal: Answer,
    pub licensed: Answer,
    pub wired: Answer,
    pub fenced: Answer,
    pub remembering: Answer,
    pub completed: Answer,
}

/// What is said of a text.
#[derive(Clone, Copy, Debug, PartialEq, Eq)]
pub enum Verdict {
    NoTranscript,
    /// It is the transcript of a history.
    Found(Findings),
}

/// The volume that the history opens; where it opens none, number 0 with one server of each class.
fn setup_of(history: &[Turn]) -> Setup
    ensures { result ≡ setup_of history.now }
{
    for turn in history {
        if let Happening::Opens(setup) = turn.happening() {
            return *setup;
        }
    }
    Setup {
        volume: 0,
        policy: Policy::Switch(0),
        dirs: 1,
        small: 1,
        nodes: 1,
    }
}

/// A claim holds, or doesn't.
fn plainly(holds: bool) -> Answer
    ensures { result ≡ plain_answer holds }
{
    if holds { Answer::Yes } else { Answer::No }
}

/// What a referee found.
fn judged(legal: Result<bool, RefereeFault>) -> Result<Answer, NoMemory>
    ensures { IfOk result (IsJudged legal) }
{
    match legal {
        Ok(holds) => Ok(plainly(holds)),
        Err(RefereeFault::Spent) => Ok(Answer::Spent),
        Err(RefereeFault::TooLong) => Ok(Answer::TooLong),
        Err(RefereeFault::NoMemory) => Err(NoMemory),
    }
}

/// What an audit found.
fn audited(holds: Result<bool, AuditFault>) -> Result<Answer, NoMemory>
    ensures { IfOk result (IsAudited holds) }
{
    match holds {
        Ok(holds) => Ok(plainly(holds)),
        Err(AuditFault::Spent) => Ok(Answer::Spent),
        Err(AuditFault::NoMemory) => Err(NoMemory),
    }
}

/// Whether the history is legal for a server that began with a new volume.
#[tactic(auto, using(crate::proofs::Deciding::judged_is))]
fn legality(alloc: Global, volume: u64, history: &[Turn]) -> Result<Answer, NoMemory>
    ensures { IfOk result (IsFound (Legal (fresh volume) history.now) (referee.StopsIn fault.Spent (fresh volume) history.now) (referee.StopsIn fault.TooLong (fresh volume) history.now)) }
{
    let start = Volume::new(alloc, volume)?;
    judged(is_legal(alloc, start, history))
}

/// Whether the history is licensed for a server that began with a new volume.
#[tactic(auto, using(crate::proofs::Deciding::audited_is))]
fn licence(alloc: Global, volume: u64, history: &[Turn]) -> Result<Answer, NoMemory>
    ensures { IfOk result (IsFound (Licensed (fresh volume) history.now) (ledger.StopsIn audit.Spent (fresh volume) history.now) ⊥) }
{
    let start = Volume::new(alloc, volume)?;
    audited(is_licensed(alloc, start, history))
}

/// Whether the history is wired for a server that began with a new volume.
#[tactic(auto, using(crate::proofs::Deciding::audited_is))]
fn wiring(alloc: Global, setup: Setup, history: &[Turn]) -> Result<Answer, NoMemory>
    ensures { IfOk result (IsFound (Wired setup (fresh setup.volume) history.now) (ledger.StopsIn audit.Spent (fresh setup.volume) history.now) ⊥) }
{
    let start = Volume::new(alloc, setup.volume)?;
    audited(is_wired(alloc, setup, start, history))
}

/// What is said of a history, claim by claim.
#[tactic(auto, using(crate::proofs::Deciding::plain_is))]
fn findings_of(alloc: Global, history: &[Turn]) -> Result<Findings, NoMemory>
    ensures { IfOk result (AreFindings history.now) }
{
    let setup = setup_of(history);
    Ok(Findings {
        legal: legality(alloc, setup.volume, history)?,
        licensed: licence(alloc, setup.volume, history)?,
        wired: wiring(alloc, setup, history)?,
        fenced: plainly(is_fenced(alloc, history)?),
        remembering: plainly(remembers(alloc, history)?),
        completed: plainly(is_completed(alloc, history)?),
    })
}

/// What is to be said of a text, where the server began with a new volume.
pub fn judge(alloc: Global, text: &[u8]) -> Result<Verdict, NoMemory>
    ensures { IfOk result (IsVerdict text.now) }
{
    let history = match read_history(alloc, text) {
        Ok(history) => history,
        Err(TranscriptFault::Bad) => return Ok(Verdict::NoTranscript),
        Err(TranscriptFault::NoMemory) => return Err(NoMemory),
    };
    Ok(Verdict::Found(findings_of(alloc, &history)?))
}
