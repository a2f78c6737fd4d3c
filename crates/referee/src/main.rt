//! `referee` reads a transcript from standard input, and says of its history, a line for each claim, whether it holds for a
//! server that begins with a new volume: `legal`, `licensed`, `wired`, `fenced`, `remembering`, `completed`, each with `yes`
//! or `no`; with `spent` where a call can't be performed since a number would pass the end of its type, and `too long` where
//! no packet can hold a reply. Of a text that is no transcript it says `no transcript`.
#![tactic(auto)]

mod verdict;

use crate::verdict::{Answer, Findings, Verdict, judge};
use std::io;
use std::io::{ErrorKind, Read};

/// The word for an answer.
fn word_of(answer: Answer) -> &'static str {
    match answer {
        Answer::Yes => "yes",
        Answer::No => "no",
        Answer::Spent => "spent",
        Answer::TooLong => "too long",
    }
}

/// Prints a line for each claim.
fn print_findings(rt: HostRuntime, findings: Findings) -> io::Result<()> {
    println!(rt; "legal {}", word_of(findings.legal))?;
    println!(rt; "licensed {}", word_of(findings.licensed))?;
    println!(rt; "wired {}", word_of(findings.wired))?;
    println!(rt; "fenced {}", word_of(findings.fenced))?;
    println!(rt; "remembering {}", word_of(findings.remembering))?;
    println!(rt; "completed {}", word_of(findings.completed))
}

fn main(rt: HostRuntime) -> io::Result<()> {
    let alloc = rt.alloc();
    let mut text = Vec::new(alloc);
    rt.stdin().read_to_end(&mut text)?;
    let Ok(verdict) = judge(alloc, &text) else {
        return Err(io::Error::from(ErrorKind::OutOfMemory));
    };
    match verdict {
        Verdict::NoTranscript => println!(rt; "no transcript"),
        Verdict::Found(findings) => print_findings(rt, findings),
    }
}

#[cfg(test)]
mod tests;
