//! `journal_keeper append FOLDER COUNT` and `journal_keeper count FOLDER`: a journal whose process may end at any moment.
//!
//! `append` opens the journal of a folder, in which the disk is a file, and adds COUNT records behind those that are
//! there. Each record tells its number, which is printed once it was acknowledged. `count` opens the journal and prints
//! how many records it has. Both look first whether each record is the right one. With no words it does nothing.
#![tactic(auto)]

mod keeping;
mod numbered;
mod trouble;

use crate::keeping::{append_all, count};
use crate::trouble::Trouble;
use sl_disk::FileShelf;
use std::process::ExitCode;
use std::rt::Env;
use std::{env, io};

/// What is to be done in a folder.
#[derive(Drop)]
enum Task {
    /// So many records are added.
    Append(u64),
    /// The records are counted.
    Count,
}

/// A task, and the folder of its journal.
#[derive(Drop)]
struct Plan {
    task: Task,
    folder: String,
}

/// The number that a word spells.
fn number(word: Option<String>) -> Result<u64, Trouble> {
    match word {
        Some(word) => word.parse::<u64>().map_err(|_| Trouble::Words),
        None => Err(Trouble::Words),
    }
}

/// What the words behind the program's name ask for; nothing where there are none.
fn plan_of<R: Env + AllocGlobal>(rt: &R) -> Result<Option<Plan>, Trouble> {
    let mut words = env::args(rt).map_err(|_| Trouble::Words)?.skip(1);
    let Some(task) = words.next() else {
        return Ok(None);
    };
    let Some(folder) = words.next() else {
        return Err(Trouble::Words);
    };
    let task = match task.as_str() {
        "append" => Task::Append(number(words.next())?),
        "count" => Task::Count,
        _ => return Err(Trouble::Words),
    };
    Ok(Some(Plan { task, folder }))
}

/// Does what the words ask for.
fn run(rt: HostRuntime) -> Result<(), Trouble> {
    let Some(plan) = plan_of(&rt)? else {
        return Ok(());
    };
    let mut shelf = FileShelf::new(rt.alloc(), rt, plan.folder);
    match plan.task {
        Task::Append(count) => append_all(&rt, &mut shelf, count),
        Task::Count => {
            let found = count(rt.alloc(), &mut shelf)?;
            println!(rt; "{found}").map_err(|_| Trouble::Print)
        }
    }
}

fn main(rt: HostRuntime) -> io::Result<ExitCode> {
    let trouble = match run(rt) {
        Ok(()) => return Ok(ExitCode::from(0)),
        Err(trouble) => trouble,
    };
    match trouble {
        Trouble::Words => eprintln!(rt;
            "journal_keeper: wants append FOLDER COUNT, or count FOLDER"
        )?,
        Trouble::Journal(fault) => eprintln!(rt; "journal_keeper: the journal answers {fault:?}")?,
        Trouble::Wrong => eprintln!(rt; "journal_keeper: a record is not the right one")?,
        Trouble::Memory => eprintln!(rt; "journal_keeper: no memory")?,
        Trouble::Print => eprintln!(rt; "journal_keeper: cannot print")?,
    }
    Ok(ExitCode::from(1))
}
