//! Performs a table of cases on the plain server, and prints each row that is answered otherwise than it says. The
//! table stands on standard input, a row a line, and single spaces part a row's words. Each call is performed on a copy
//! of the volume, with which the case goes on.
//!
//! | Row | What it says |
//! |---|---|
//! | `: TITLE` | a case begins, on a new volume of number 7, and this is what it shows |
//! | `CALL = STATUS` | the call is answered with this status |
//! | `CALL = STATUS BYTES` | and the reply's results are these bytes, in hexadecimal |
//! | `times N CALL = STATUS` | the call is performed N times, and answered so each time; from here on without copies |
//! | `at SEC.NSEC` | the moment of the calls from here on, at first 0.0 |
//! | `by UID GID` | their caller, at first 0 0 |
//! | `full` | no fileid is left for a new object |
//! | `kept` | unstable writes are made stable at once |
//! | `flush FILEID` | a file's unstable writes are made stable |
//! | `restart VERIFIER` | all unstable writes are forgotten, and this is the write verifier |
//! | `# REMARK`, an empty row | nothing |
//!
//! A call is a procedure and its arguments:
//!
//! | Call | Arguments |
//! |---|---|
//! | `null` | |
//! | `getattr`, `readlink`, `fsstat`, `fsinfo`, `pathconf` | HANDLE |
//! | `setattr` | HANDLE, `guard=SEC.NSEC` or nothing, ATTRIBUTES |
//! | `access` | HANDLE BITS |
//! | `read`, `commit` | HANDLE OFFSET COUNT |
//! | `write` | HANDLE OFFSET COUNT, `unstable`, `datasync` or `filesync`, BYTES |
//! | `lookup`, `remove`, `rmdir` | HANDLE NAME |
//! | `create` | HANDLE NAME, `unchecked` or `guarded` and ATTRIBUTES, or `exclusive` and a verifier |
//! | `mkdir` | HANDLE NAME ATTRIBUTES |
//! | `symlink` | HANDLE NAME PATH ATTRIBUTES |
//! | `mknod` | HANDLE NAME KIND, of a device MAJOR MINOR, and ATTRIBUTES |
//! | `rename` | HANDLE NAME HANDLE NAME |
//! | `link` | HANDLE, and HANDLE NAME of the new name |
//! | `readdir` | HANDLE COOKIE VERIFIER COUNT |
//! | `readdirplus` | HANDLE COOKIE VERIFIER DIRCOUNT MAXCOUNT |
//!
//! A HANDLE is a kind and a fileid, as `dir1` of the root, or `far1` for another volume's root. New objects have the
//! fileids 2, 3 and on. Kinds are `reg`, `dir`, `blk`, `chr`, `lnk`, `sock` and `fifo`. NAME, PATH, BYTES and other
//! handles are the word itself, or `x*3` for `xxx`, `hex:00` for a zero byte, or `%` for the number of the round in a
//! row of `times`. ATTRIBUTES are words as `mode=420`, `uid=1`, `gid=1`, `size=10`, `atime=5.6` and `mtime=now`.
#![tactic(auto)]

mod calls;
mod case;
mod rows;
mod statuses;
mod words;

use crate::case::Case;
use crate::rows::{Finding, found};
use std::alloc::Global;
use std::io;
use std::io::ErrorKind;

/// How many there were.
#[derive(Drop)]
struct Counts {
    cases: u64,
    rows: u64,
    wrong: u64,
}

impl Counts {
    fn add(&mut self, finding: &Finding) {
        self.rows = self.rows.saturating_add(1);
        if !matches!(finding, Finding::AsSaid) {
            self.wrong = self.wrong.saturating_add(1);
        }
    }
}

fn new_case(alloc: Global) -> io::Result<Case> {
    match Case::new(alloc) {
        Ok(case) => Ok(case),
        Err(_) => Err(ErrorKind::OutOfMemory.into()),
    }
}

// Performs a row, and prints it below the case's title where the answer is another.
fn perform(
    alloc: Global,
    rt: &impl Print,
    case: &mut Case,
    title: &str,
    row: &str,
) -> io::Result<Finding> {
    let Ok(finding) = found(alloc, case, row.as_bytes()) else {
        return Err(ErrorKind::OutOfMemory.into());
    };
    if !matches!(finding, Finding::AsSaid) {
        println!(rt; "{title}\n{row}: {finding:?}")?;
    }
    Ok(finding)
}

fn main(rt: HostRuntime) -> io::Result<()> {
    let mut case = new_case(rt.alloc())?;
    let mut title = String::new(rt.alloc());
    let mut counts = Counts {
        cases: 0,
        rows: 0,
        wrong: 0,
    };
    for line in rt.lines(rt.alloc()) {
        let line = line?;
        let row = line.as_str();
        if row.starts_with(": ") {
            case = new_case(rt.alloc())?;
            counts.cases = counts.cases.saturating_add(1);
            title = line;
        } else if !row.is_empty() && !row.starts_with("# ") {
            let finding = perform(rt.alloc(), &rt, &mut case, title.as_str(), row)?;
            counts.add(&finding);
        }
    }
    println!(rt;
        "{} cases of {} rows, {} answered otherwise",
        counts.cases, counts.rows, counts.wrong
    )
}
