//! `journal_bench append SHELF SIZE BEFORE COUNT` and `journal_bench open SHELF SIZE COUNT`: how long the calls of a
//! journal take.
//!
//! `append` makes a journal, appends BEFORE records of SIZE bytes, and then COUNT more, and prints how many microseconds
//! these took. `open` makes a journal of COUNT records of SIZE bytes, opens it again, and prints how many microseconds
//! that took. SHELF is `memory`, or a folder in which the disk is a file. With no words it does nothing.
#![tactic(auto)]

ghost use Rattle.std.specs.Prelude.{◌<◌, ◌^◌, length};

use sl_defs::{Policy, Setup};
use sl_disk::{FileShelf, MemShelf, Shelf};
use sl_journal::Journal;
use std::io::ErrorKind;
use std::process::ExitCode;
use std::rt::{Clock, Env};
use std::time::Instant;
use std::{env, io};

/// The disk of the journal.
const DISK: u8 = 16;

const SETUP: Setup = Setup {
    volume: 1,
    policy: Policy::Hash,
    dirs: 1,
    small: 1,
    nodes: 1,
};

/// Why nothing was measured.
#[derive(Drop)]
enum Trouble {
    /// The words ask for nothing that it does.
    Words,
    /// A call of the journal failed.
    Journal,
    /// Memory ran out.
    Memory,
    /// The clock gave no time.
    Clock,
}

/// What is to be measured.
#[derive(Drop)]
enum Task {
    /// So many appends, behind so many others.
    Append { before: u64, count: u64 },
    /// An opening of a journal of so many records.
    Open { count: u64 },
}

/// A task, on which shelf, with records of which size in bytes.
#[derive(Drop)]
struct Plan {
    task: Task,
    shelf: String,
    size: u32,
}

/// Appends the same record so many times.
fn append_all<V: Shelf>(
    shelf: &mut V,
    journal: &mut Journal,
    payload: &[u8],
    count: u64,
) -> Result<(), Trouble>
    requires { length payload.now < 2 ^ 32 }
{
    for _ in 0..count {
        if journal.append(shelf, payload).is_err() {
            return Err(Trouble::Journal);
        }
    }
    Ok(())
}

/// How many microseconds the appends took.
fn time_appends<R: Clock, V: Shelf>(
    rt: &R,
    shelf: &mut V,
    journal: &mut Journal,
    payload: &[u8],
    count: u64,
) -> Result<u128, Trouble>
    requires { length payload.now < 2 ^ 32 }
{
    let start = Instant::now(rt).map_err(|_| Trouble::Clock)?;
    append_all(shelf, journal, payload, count)?;
    let took = start.elapsed(rt).map_err(|_| Trouble::Clock)?;
    Ok(took.as_micros())
}

/// How many microseconds an opening took, which has to find so many records.
fn time_opening<R: Clock + AllocGlobal, V: Shelf>(
    rt: &R,
    shelf: &mut V,
    count: u64,
) -> Result<u128, Trouble> {
    let start = Instant::now(rt).map_err(|_| Trouble::Clock)?;
    let Ok((_, records)) = Journal::open(rt.alloc(), shelf, DISK, &SETUP) else {
        return Err(Trouble::Journal);
    };
    let took = start.elapsed(rt).map_err(|_| Trouble::Clock)?;
    if records.len() as u64 == count {
        Ok(took.as_micros())
    } else {
        Err(Trouble::Journal)
    }
}

/// Does the task on a new journal, and says how many microseconds it took.
fn measure<R: Clock + AllocGlobal, V: Shelf>(
    rt: &R,
    shelf: &mut V,
    task: &Task,
    size: u32,
) -> Result<u128, Trouble> {
    let alloc = rt.alloc();
    let Ok(payload) = vec![in alloc; 90; size as usize] else {
        return Err(Trouble::Memory);
    };
    let Ok((mut journal, _)) = Journal::open(alloc, shelf, DISK, &SETUP) else {
        return Err(Trouble::Journal);
    };
    match task {
        Task::Append { before, count } => {
            append_all(shelf, &mut journal, &payload, *before)?;
            time_appends(rt, shelf, &mut journal, &payload, *count)
        }
        Task::Open { count } => {
            append_all(shelf, &mut journal, &payload, *count)?;
            time_opening(rt, shelf, *count)
        }
    }
}

/// The number that a word spells.
fn number(word: Option<String>) -> Result<u64, Trouble> {
    match word {
        Some(word) => word.parse::<u64>().map_err(|_| Trouble::Words),
        None => Err(Trouble::Words),
    }
}

/// What the words behind the program's name ask for; nothing where there are none.
fn plan_of<R: Env + AllocGlobal>(rt: &R) -> Result<Option<Plan>, Trouble> {
    let mut words = match env::args(rt) {
        Ok(words) => words.skip(1),
        Err(fault) if fault.kind() == ErrorKind::OutOfMemory => return Err(Trouble::Memory),
        Err(_) => return Err(Trouble::Words),
    };
    let Some(name) = words.next() else {
        return Ok(None);
    };
    let Some(shelf) = words.next() else {
        return Err(Trouble::Words);
    };
    let size = u32::try_from(number(words.next())?).map_err(|_| Trouble::Words)?;
    let task = match name.as_str() {
        "append" => Task::Append {
            before: number(words.next())?,
            count: number(words.next())?,
        },
        "open" => Task::Open {
            count: number(words.next())?,
        },
        _ => return Err(Trouble::Words),
    };
    Ok(Some(Plan { task, shelf, size }))
}

/// Measures what the words ask for, in microseconds.
fn run(rt: HostRuntime) -> Result<Option<u128>, Trouble> {
    let alloc = rt.alloc();
    let Some(plan) = plan_of(&rt)? else {
        return Ok(None);
    };
    let (task, size) = (plan.task, plan.size);
    if plan.shelf.as_str() == "memory" {
        let mut shelf = MemShelf::new(alloc).map_err(|_| Trouble::Memory)?;
        return Ok(Some(measure(&rt, &mut shelf, &task, size)?));
    }
    let mut shelf = FileShelf::new(alloc, rt, plan.shelf);
    Ok(Some(measure(&rt, &mut shelf, &task, size)?))
}

fn main(rt: HostRuntime) -> io::Result<ExitCode> {
    let trouble = match run(rt) {
        Ok(None) => return Ok(ExitCode::from(0)),
        Ok(Some(took)) => {
            println!(rt; "{took}")?;
            return Ok(ExitCode::from(0));
        }
        Err(trouble) => trouble,
    };
    match trouble {
        Trouble::Words => eprintln!(rt;
            "journal_bench: wants append SHELF SIZE BEFORE COUNT, or open SHELF SIZE COUNT"
        )?,
        Trouble::Journal => eprintln!(rt; "journal_bench: a call of the journal failed")?,
        Trouble::Memory => eprintln!(rt; "journal_bench: no memory")?,
        Trouble::Clock => eprintln!(rt; "journal_bench: no clock")?,
    }
    Ok(ExitCode::from(1))
}
