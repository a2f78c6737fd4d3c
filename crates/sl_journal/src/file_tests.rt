//! Journals over a folder of files.
ghost use Rattle.std.specs.Prelude.{◌<◌, ◌^◌, length};

use super::*;
use crate::tests::SETUP;
use sl_disk::{FileShelf, Shelf};
use std::test::Fail;
use std::{env, fs};

/// A new folder.
fn new_folder(rt: HostRuntime, name: &str) -> Result<String, Fail> {
    let alloc = rt.alloc();
    let folder = env::temp_dir(&rt)?;
    let id = std::process::id(rt.process());
    let path = format!(in alloc; "{}/sl_journal_{name}_{id}", folder.display())?;
    fs::create_dir(&rt, path.as_str())?;
    Ok(path)
}

/// How the journal in a folder is found by a shelf that holds no file open yet.
fn found(rt: HostRuntime, path: &String) -> Result<Result<Records, JournalFault>, Fail> {
    let mut shelf = FileShelf::new(rt.alloc(), rt, path.clone()?);
    match Journal::open(rt.alloc(), &mut shelf, 16, &SETUP) {
        Ok((_, records)) => Ok(Ok(records)),
        Err(fault) => Ok(Err(fault)),
    }
}

/// Adds a record to the journal in a folder.
fn add(rt: HostRuntime, path: &String, payload: &[u8]) -> Result<(), Fail>
    requires { length payload.now < 2 ^ 32 }
{
    let mut shelf = FileShelf::new(rt.alloc(), rt, path.clone()?);
    let (mut journal, _) = Journal::open(rt.alloc(), &mut shelf, 16, &SETUP)?;
    journal.append(&mut shelf, payload)?;
    Ok(())
}

#[test]
fn a_journal_in_files_is_found_again(rt: HostRuntime) -> Result<(), Fail> {
    let alloc = rt.alloc();
    let path = new_folder(rt, "again")?;
    let long = vec![in alloc; 7; 70000]?;
    let mut shelf = FileShelf::new(alloc, rt, path.clone()?);
    let (mut journal, records) = Journal::open(alloc, &mut shelf, 16, &SETUP)?;
    assert_eq!(rt; records.len(), 0);
    journal.append(&mut shelf, b"one")?;
    journal.append(&mut shelf, b"")?;
    journal.append(&mut shelf, &long)?;
    drop(shelf);
    add(rt, &path, b"four")?;
    let wanted = [
        b"one".to_vec(alloc)?,
        Vec::new(alloc),
        long,
        b"four".to_vec(alloc)?,
    ];
    let records = found(rt, &path)??;
    assert_eq!(rt; records.len(), wanted.len());
    for (record, payload) in records.as_slice().iter().zip(wanted.iter()) {
        assert!(rt; record.as_slice() == payload.as_slice());
    }
    fs::remove_dir_all(&rt, path.as_str())?;
    Ok(())
}

/// The second record's gate stands at byte 29, and the closed gate behind it at byte 37. A process that ends while it
/// writes a record leaves that record's gate closed, and a part of the record behind it or none.
#[test]
fn a_torn_last_record_is_left_out(rt: HostRuntime) -> Result<(), Fail> {
    let path = new_folder(rt, "torn")?;
    add(rt, &path, b"one")?;
    for size in 30..39 {
        add(rt, &path, b"two")?;
        let mut shelf = FileShelf::new(rt.alloc(), rt, path.clone()?);
        assert!(rt; shelf.len(16) == Ok(38));
        shelf.write_at(16, 29, &[0])?;
        shelf.cut(16, size)?;
        drop(shelf);
        let records = found(rt, &path)??;
        assert_eq!(rt; records.len(), 1, "cut to {size} bytes");
        assert!(rt; records.as_slice()[0].as_slice() == b"one".as_slice());
    }
    fs::remove_dir_all(&rt, path.as_str())?;
    Ok(())
}

/// A record that was acknowledged isn't passed over where its bytes are gone.
#[test]
fn a_cut_record_behind_an_open_gate_is_no_journal(rt: HostRuntime) -> Result<(), Fail> {
    let path = new_folder(rt, "cut")?;
    add(rt, &path, b"one")?;
    add(rt, &path, b"two")?;
    let mut shelf = FileShelf::new(rt.alloc(), rt, path.clone()?);
    for size in [37, 36, 33, 30, 29] {
        shelf.cut(16, size)?;
        assert!(rt;
            found(rt, &path)?.err() == Some(JournalFault::NotAJournal),
            "{size} bytes"
        );
    }
    fs::remove_dir_all(&rt, path.as_str())?;
    Ok(())
}
