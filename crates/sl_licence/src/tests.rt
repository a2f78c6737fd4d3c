use super::*;
use sl_defs::{Bytes, Choice, Event, NoMemory, Time};
use sl_past::{Happening, Remark, Turn, read_history};
use sl_plain::Volume;
use std::alloc::Global;

/// The volume is opened, and a call comes before the proxy is welcomed.
const EARLY: &[u8] = b"volume 1 switch 0 1 1 1
call 0 000000090000000000000002000186a3000000030000000100000000000000000000000000000000000000040000000a
= early 1
";

/// The same, but the call isn't dropped.
const ADMITTED: &[u8] = b"volume 1 switch 0 1 1 1
call 0 000000090000000000000002000186a3000000030000000100000000000000000000000000000000000000040000000a
";

/// The opening of a volume: Hello, Welcome, and the write verifier.
const OPENING: &[u8] = b"volume 1 switch 0 1 1 1
= sent 1 00010100000000010000000000000000000000000000000000000000000000000000000000000000000000000000000000000000
give 1
= sent 2 01000200000000010000000000000000000000000000000000000000000000000000000000000000000000000000000000000000
give 2
= verf 0000000100000000
";

/// A second write verifier, though no one ended since the first.
const RENEWED: &[u8] = b"volume 1 switch 0 1 1 1
= verf 0000000100000000
tick
= verf 0000000200000000
";

/// The same, but a data server ended in between.
const LOST: &[u8] = b"volume 1 switch 0 1 1 1
= verf 0000000100000000
stop 32 0
= verf 0000000200000000
";

/// A flush of a file that has no unstable writes.
const FLUSHED: &[u8] = b"volume 1 switch 0 1 1 1
tick
= flush 2
";

/// Whether the history of a transcript is licensed, for a server that began with volume 1.
fn is_licensed_text(alloc: Global, text: &[u8]) -> Option<bool> {
    let Ok(history) = read_history(alloc, text) else {
        return None;
    };
    let Ok(volume) = Volume::new(alloc, 1) else {
        return None;
    };
    is_licensed(alloc, volume, &history).ok()
}

#[test]
fn a_call_before_the_welcome_is_dropped(rt: HostRuntime) {
    assert_eq!(rt; is_licensed_text(rt.alloc(), EARLY), Some(true));
    assert_eq!(rt; is_licensed_text(rt.alloc(), ADMITTED), Some(false));
}

#[test]
fn an_opening_is_licensed(rt: HostRuntime) {
    assert_eq!(rt; is_licensed_text(rt.alloc(), OPENING), Some(true));
}

#[test]
fn a_write_verifier_changes_where_an_end_may_lose_writes(rt: HostRuntime) {
    assert_eq!(rt; is_licensed_text(rt.alloc(), RENEWED), Some(false));
    assert_eq!(rt; is_licensed_text(rt.alloc(), LOST), Some(true));
}

#[test]
fn nothing_unstable_is_not_flushed(rt: HostRuntime) {
    assert_eq!(rt; is_licensed_text(rt.alloc(), FLUSHED), Some(false));
}

/// The moment of all calls.
const NOON: Time = Time { sec: 1, nsec: 0 };

/// No object is made, and nothing is kept.
const NOTHING: Choice = Choice {
    fileid: 0,
    kept: false,
};

/// An unstable WRITE is made stable at once.
const KEPT: Choice = Choice {
    fileid: 0,
    kept: true,
};

/// The front of a super-user's call in volume 1, up to the handle that it begins with.
fn front(procedure: u32, fileid: u32, kind: u32) -> [u32; 24] {
    [
        9,
        0,
        2,
        100_003,
        3,
        procedure,
        1,
        20,
        0,
        0,
        0,
        0,
        0,
        0,
        0,
        32,
        0x534c_4831,
        0,
        0,
        1,
        0,
        fileid,
        kind,
        0,
    ]
}

/// A name of four letters, another for each of 4096 files.
fn letters(file: u32) -> u32 {
    0x6161_6161 + file % 16 + file / 16 % 16 * 0x100 + file / 256 % 16 * 0x1_0000
}

fn put_words(out: &mut Vec<u8>, words: &[u32]) -> Result<(), NoMemory> {
    for word in words {
        for byte in word.to_be_bytes() {
            let Ok(()) = out.push(byte) else {
                return Err(NoMemory);
            };
        }
    }
    Ok(())
}

/// CREATE of the file in the root, under its letters.
fn create(alloc: Global, file: u32) -> Result<Bytes, NoMemory> {
    let mut packet = Vec::new(alloc);
    put_words(&mut packet, &front(8, 1, 2))?;
    put_words(&mut packet, &[4, letters(file), 0, 0, 0, 0, 0, 0, 0])?;
    Ok(Bytes::new(packet))
}

/// An unstable WRITE of one byte to the file.
fn write(alloc: Global, file: u32) -> Result<Bytes, NoMemory> {
    let mut packet = Vec::new(alloc);
    put_words(&mut packet, &front(7, file, 1))?;
    put_words(&mut packet, &[0, 0, 1, 0, 1, 0])?;
    Ok(Bytes::new(packet))
}

/// The notes of a call that takes effect as it comes, and has its reply.
fn notes(alloc: Global, arrival: u64, choice: Choice) -> Result<Vec<Remark>, NoMemory> {
    let mut remarks = Vec::new(alloc);
    let did = Remark::Did {
        arrival,
        at: NOON,
        choice,
    };
    let replied = Remark::Replied {
        arrival,
        event: arrival,
        bytes: Bytes::new(Vec::new(alloc)),
    };
    if remarks.push(did).is_err() || remarks.push(replied).is_err() {
        return Err(NoMemory);
    }
    Ok(remarks)
}

/// One call more. All turns but the first are events.
fn call(
    alloc: Global,
    history: &mut Vec<Turn>,
    datagram: Bytes,
    choice: Choice,
) -> Result<(), NoMemory> {
    let remarks = notes(alloc, history.len() as u64, choice)?;
    let happening = Happening::Happens(Event::Call {
        client: 0,
        datagram,
    });
    match history.insert(0, Turn::new(happening, NOON, remarks)) {
        Ok(()) => Ok(()),
        Err(_) => Err(NoMemory),
    }
}

/// A new file, and a WRITE to it.
fn add_file(
    alloc: Global,
    history: &mut Vec<Turn>,
    file: u32,
    choice: Choice,
) -> Result<(), NoMemory> {
    let made = Choice {
        fileid: u64::from(file),
        kept: false,
    };
    call(alloc, history, create(alloc, file)?, made)?;
    call(alloc, history, write(alloc, file)?, choice)
}

/// That so many files have unstable writes, and that the WRITE to one more is kept.
fn crowded(alloc: Global, others: u16) -> Result<Vec<Turn>, NoMemory> {
    let Ok(mut history) = read_history(alloc, OPENING) else {
        return Err(NoMemory);
    };
    for other in 0..others {
        add_file(alloc, &mut history, 3 + u32::from(other), NOTHING)?;
    }
    add_file(alloc, &mut history, 2, KEPT)?;
    Ok(history)
}

/// Whether that is licensed.
fn is_licensed_crowd(alloc: Global, others: u16) -> Option<bool> {
    let Ok(history) = crowded(alloc, others) else {
        return None;
    };
    let Ok(volume) = Volume::new(alloc, 1) else {
        return None;
    };
    is_licensed(alloc, volume, &history).ok()
}

#[test]
fn a_write_is_kept_where_many_files_have_unstable_writes(rt: HostRuntime) {
    assert_eq!(rt; is_licensed_crowd(rt.alloc(), 1024), Some(true));
}

#[test]
fn a_write_is_not_kept_where_fewer_have(rt: HostRuntime) {
    assert_eq!(rt; is_licensed_crowd(rt.alloc(), 1023), Some(false));
}
