//! `slice replay`: performs a schedule from standard input, and writes its transcript to standard output.
#![tactic(auto)]

mod lines;
mod memory;
mod perform;
mod printing;
mod run;
mod sink;
mod source;
mod standard;
mod status;

use crate::run::run;
use crate::standard::{StdSink, StdSource};
use crate::status::Status;
use std::io::ErrorKind;
use std::process::ExitCode;
use std::rt::Env;
use std::{env, io};

/// Writes a status's text to standard error, and gives its number.
fn report(rt: &impl Eprint, outcome: Status) -> io::Result<u8> {
    match outcome {
        Status::Done => Ok(0),
        Status::ReadFault => {
            eprintln!(rt; "slice: read fault")?;
            Ok(1)
        }
        Status::WriteFault => {
            eprintln!(rt; "slice: write fault")?;
            Ok(2)
        }
        Status::BadLine(k) => {
            eprintln!(rt; "slice: bad line {k}")?;
            Ok(3)
        }
        Status::NoMemory => {
            eprintln!(rt; "slice: no memory")?;
            Ok(4)
        }
        Status::BadWords => {
            eprintln!(rt; "slice: bad words")?;
            Ok(5)
        }
        Status::TooLong => {
            eprintln!(rt; "slice: too long")?;
            Ok(8)
        }
        Status::Unbuilt(k) => {
            eprintln!(rt; "slice: not built at line {k}")?;
            Ok(9)
        }
        Status::Spent => {
            eprintln!(rt; "slice: count spent")?;
            Ok(12)
        }
    }
}

/// The words behind the program's name, or the status of a run that has none to go by: a word that isn't UTF-8 is
/// no word of a command.
fn words_of<R: Env + AllocGlobal>(rt: &R) -> Result<Vec<String>, Status> {
    let mut words = Vec::new(rt.alloc());
    let args = match env::args(rt) {
        Ok(args) => args,
        Err(fault) => {
            return Err(if fault.kind() == ErrorKind::OutOfMemory {
                Status::NoMemory
            } else {
                Status::BadWords
            });
        }
    };
    for word in args.skip(1) {
        if words.push(word).is_err() {
            return Err(Status::NoMemory);
        }
    }
    Ok(words)
}

fn main(rt: HostRuntime) -> io::Result<ExitCode> {
    let mut source = StdSource {
        reader: rt.stdin(),
        faults: 0,
    };
    let mut sink = StdSink {
        writer: rt.stdout(),
        faults: 0,
    };
    let outcome = match words_of(&rt) {
        Ok(words) => run(rt.alloc(), &words, &mut source, &mut sink),
        Err(outcome) => outcome,
    };
    Ok(ExitCode::from(report(&rt, outcome)?))
}

#[cfg(test)]
mod tests;
