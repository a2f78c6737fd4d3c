ghost use Rattle.std.specs.Prelude.{◌≤◌};

use super::*;
use sl_defs::{Policy, Setup};
use sl_disk::{Arm, MemShelf, Shelf};
use std::alloc::Global;
use std::process::Abort;
use std::test::Fail;

pub(crate) const SETUP: Setup = Setup {
    volume: 7,
    policy: Policy::Switch(3),
    dirs: 4,
    small: 2,
    nodes: 1,
};

const HEAD: [u8; 20] = [
    b'S', b'L', b'J', b'1', 16, 0, 3, 4, 2, 1, 0, 0, 0, 0, 0, 0, 0, 0, 0, 7,
];

/// How many records the bytes stand for; none where they have no reading.
fn count(rt: &impl Abort, alloc: Global, bytes: &[u8]) -> Option<usize> {
    match read_journal(alloc, bytes, &HEAD) {
        Ok(records) => Some(records.len()),
        Err(fault) => {
            assert_eq!(rt; fault, JournalFault::NotAJournal);
            None
        }
    }
}

/// What a read of disk 16 gives.
fn bytes_of(alloc: Global, shelf: &mut MemShelf) -> Result<Vec<u8>, Fail> {
    let mut bytes = vec![in alloc; 0; 256]?;
    let some = shelf.read(16, 0, &mut bytes)?;
    bytes.truncate(some);
    Ok(bytes)
}

#[test]
fn a_journal_is_laid_out_so(rt: HostRuntime) -> Result<(), Fail> {
    let alloc = rt.alloc();
    let mut shelf = MemShelf::new(alloc)?;
    let (mut journal, records) = Journal::open(alloc, &mut shelf, 16, &SETUP)?;
    assert_eq!(rt; records.len(), 0);
    journal.append(&mut shelf, b"ab")?;
    let bytes = bytes_of(alloc, &mut shelf)?;
    assert_eq!(rt; bytes.len(), 29);
    let (first, behind) = bytes.split_at(1);
    let (head, record) = behind.split_at(20);
    assert_eq!(rt; first, [1].as_slice());
    assert_eq!(rt; head, HEAD.as_slice());
    assert_eq!(rt; record, [1, 0, 0, 0, 2, b'a', b'b', 0].as_slice());
    Ok(())
}

#[test]
fn what_is_cut_off_has_no_reading(rt: HostRuntime) -> Result<(), Fail> {
    let alloc = rt.alloc();
    let mut shelf = MemShelf::new(alloc)?;
    let (mut journal, _) = Journal::open(alloc, &mut shelf, 16, &SETUP)?;
    journal.append(&mut shelf, b"a")?;
    journal.append(&mut shelf, b"")?;
    journal.append(&mut shelf, b"bcd")?;
    let bytes = bytes_of(alloc, &mut shelf)?;
    for size in 0..bytes.len() {
        let wanted = if size <= 1 { Some(0) } else { None };
        let (front, _) = bytes.split_at(size);
        assert_eq!(rt; count(&rt, alloc, front), wanted, "{size} bytes");
    }
    assert_eq!(rt; count(&rt, alloc, &bytes), Some(3));
    let (mut other, _) = Journal::open(alloc, &mut shelf, 17, &SETUP)?;
    other.append(&mut shelf, b"z")?;
    let mut copy = vec![in alloc; 0; 64]?;
    let some = shelf.read(17, 0, &mut copy)?;
    copy.truncate(some);
    assert_eq!(rt; count(&rt, alloc, &copy), None);
    Ok(())
}

/// Opens a journal and adds two records, with a stop or a fault inside the call of this number, and opens it again.
fn stopped_at(rt: &impl Abort, alloc: Global, call: u64, how: Arm) -> Result<(), Fail>
    requires { 1 ≤ call }
{
    let mut shelf = MemShelf::new(alloc)?;
    shelf.arm(16, call, how);
    let mut known = 0;
    if let Ok((mut journal, _)) = Journal::open(alloc, &mut shelf, 16, &SETUP) {
        if journal.append(&mut shelf, b"one").is_ok() {
            known = 1;
            if journal.append(&mut shelf, b"two").is_ok() {
                known = 2;
            }
        }
        if let Err(fault) = journal.append(&mut shelf, b"") {
            assert!(rt; journal.append(&mut shelf, b"") == Err(fault));
        }
    }
    let (_, records) = Journal::open(alloc, &mut shelf, 16, &SETUP)?;
    let found = records.len();
    assert!(rt;
        known <= found && found <= known + 1,
        "{found} records after {known}"
    );
    Ok(())
}

#[test]
fn a_stop_inside_any_call_leaves_what_was_acknowledged(rt: HostRuntime) -> Result<(), Fail> {
    for call in 1..20 {
        for image in 0..8 {
            stopped_at(&rt, rt.alloc(), call, Arm::Stop(image))?;
        }
        stopped_at(&rt, rt.alloc(), call, Arm::Fail)?;
    }
    Ok(())
}

/// Fresh disks that are longer than what a making writes: what stands behind is left, and doesn't count.
#[test]
fn a_longer_fresh_disk_is_written_over(rt: HostRuntime) -> Result<(), Fail> {
    let alloc = rt.alloc();
    let mut shelf = MemShelf::new(alloc)?;
    let mut old = vec![in alloc; 1; 40]?;
    old[0] = 0;
    shelf.write_at(16, 0, &old)?;
    let (_, records) = Journal::open(alloc, &mut shelf, 16, &SETUP)?;
    assert_eq!(rt; records.len(), 0);
    let bytes = bytes_of(alloc, &mut shelf)?;
    assert_eq!(rt; bytes.len(), 40);
    let (first, behind) = bytes.split_at(1);
    let (head, rest) = behind.split_at(20);
    assert_eq!(rt; first, [1].as_slice());
    assert_eq!(rt; head, HEAD.as_slice());
    let (gate, rest) = rest.split_at(1);
    assert_eq!(rt; gate, [0].as_slice());
    assert_eq!(rt; rest, [1; 18].as_slice());
    let (mut journal, _) = Journal::open(alloc, &mut shelf, 16, &SETUP)?;
    journal.append(&mut shelf, b"ab")?;
    shelf.crash(16, 0)?;
    let (_, records) = Journal::open(alloc, &mut shelf, 16, &SETUP)?;
    assert_eq!(rt; records.len(), 1);
    Ok(())
}

/// How an opening's calls left a disk.
#[derive(Clone, Copy, Debug, PartialEq, Eq)]
struct Seen {
    size: u64,
    first: u8,
}

fn look(shelf: &mut MemShelf) -> Result<Seen, Fail> {
    let mut first = [9];
    shelf.read(16, 0, &mut first)?;
    Ok(Seen {
        size: shelf.len(16)?,
        first: first[0],
    })
}

/// The device calls of opening a disk of the one byte 7, which isn't synced: the sync, the length, the read, then the
/// making, which writes a closed byte, the head and the open byte, each with a sync behind it. The call of this number
/// fails; beside it stands what a read then gives, and what a stop leaves that takes back what isn't synced.
#[test]
fn an_opening_calls_in_order(rt: HostRuntime) -> Result<(), Fail> {
    let old = Seen { size: 1, first: 7 };
    let closed = Seen { size: 1, first: 0 };
    let headed = Seen { size: 22, first: 0 };
    let open = Seen { size: 22, first: 1 };
    let none = Seen { size: 0, first: 9 };
    let wanted = [
        (old, none),
        (old, old),
        (old, old),
        (old, old),
        (closed, old),
        (closed, closed),
        (headed, closed),
        (headed, headed),
        (open, headed),
        (open, open),
    ];
    for call in 1..11 {
        let (reads, left) = wanted[call as usize - 1];
        let mut shelf = MemShelf::new(rt.alloc())?;
        shelf.write_at(16, 0, &[7])?;
        shelf.arm(16, call, Arm::Fail);
        let opened = Journal::open(rt.alloc(), &mut shelf, 16, &SETUP).is_ok();
        assert_eq!(rt; opened, call == 10, "call {call}");
        if opened {
            assert!(rt; shelf.len(16).is_err());
        }
        assert_eq!(rt; look(&mut shelf)?, reads, "call {call}");
        shelf.crash(16, 0)?;
        assert_eq!(rt; look(&mut shelf)?, left, "call {call}");
    }
    Ok(())
}

/// How many device calls an opening makes: the sync and the length, a read where there is something, four writes and
/// syncs of a making, and two more where the first byte isn't closed.
#[test]
fn an_opening_makes_so_many_calls(rt: HostRuntime) -> Result<(), Fail> {
    let alloc = rt.alloc();
    let mut made = HEAD.to_vec(alloc)?;
    made.insert(0, 1)?;
    let mut longer = made.clone()?;
    made.push(0)?;
    longer.extend_from_slice(&[1, 0, 0, 0, 1, b'a', 1, 0, 0, 0, 0, 0])?;
    let table = [
        (Vec::new(alloc), 8),
        (b"\x07".to_vec(alloc)?, 9),
        (b"\0".to_vec(alloc)?, 7),
        (b"\0\x01".to_vec(alloc)?, 7),
        (made, 3),
        (longer, 3),
    ];
    for (bytes, calls) in table.iter() {
        for call in 1..11 {
            let mut shelf = MemShelf::new(alloc)?;
            shelf.write_at(16, 0, bytes)?;
            shelf.arm(16, call, Arm::Fail);
            let opened = Journal::open(alloc, &mut shelf, 16, &SETUP).is_ok();
            assert_eq!(rt; opened, call > *calls, "call {call} of {bytes:?}");
        }
    }
    Ok(())
}

/// What an opening finds. Where memory is refused it says so, and the next opening has it.
fn found(rt: &impl Abort, alloc: Global, shelf: &mut MemShelf) -> Result<(Journal, Records), Fail> {
    match Journal::open(alloc, shelf, 16, &SETUP) {
        Ok(found) => Ok(found),
        Err(fault) => {
            assert_eq!(rt; fault, JournalFault::NoMemory);
            Ok(Journal::open(alloc, shelf, 16, &SETUP)?)
        }
    }
}

/// Any one allocation may be refused, as by `rt try --test --fail-alloc N`: the call that it is refused says so, and so
/// does each later append of that journal. The next opening has what was acknowledged, and at most one record more.
#[test]
fn refused_memory_is_told(rt: HostRuntime) -> Result<(), Fail> {
    let alloc = rt.alloc();
    let Ok(mut shelf) = MemShelf::new(alloc) else {
        return Ok(());
    };
    let mut known = 0;
    for payload in [b"one", b"two", b"six"] {
        let (mut journal, records) = found(&rt, alloc, &mut shelf)?;
        let before = records.len();
        assert!(rt; before == known || before == known.saturating_add(1));
        known = before;
        match journal.append(&mut shelf, payload) {
            Ok(()) => known = known.saturating_add(1),
            Err(fault) => {
                assert_eq!(rt; fault, JournalFault::NoMemory);
                assert!(rt; journal.append(&mut shelf, payload) == Err(fault));
            }
        }
    }
    let (_, records) = found(&rt, alloc, &mut shelf)?;
    assert!(rt; records.len() == known || records.len() == known.saturating_add(1));
    Ok(())
}
