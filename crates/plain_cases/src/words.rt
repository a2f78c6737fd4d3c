//! The words of a row.
use sl_text::{behind, hex_bytes, number_u32, number_u64, put, put_decimal};
use sl_types::{Bytes, Fh, Handle, Kind, Name, NoMemory, Sattr, SetTime, Time};
use std::alloc::Global;

/// The volume that the calls are performed on.
pub const VOLUME: u64 = 7;

const KINDS: [(&[u8], Kind); 7] = [
    (b"reg", Kind::Reg),
    (b"dir", Kind::Dir),
    (b"blk", Kind::Blk),
    (b"chr", Kind::Chr),
    (b"lnk", Kind::Lnk),
    (b"sock", Kind::Sock),
    (b"fifo", Kind::Fifo),
];

const NOTHING_SET: Sattr = Sattr {
    mode: None,
    uid: None,
    gid: None,
    size: None,
    atime: SetTime::Keep,
    mtime: SetTime::Keep,
};

// What stands before the first of these bytes, and what stands behind it.
fn parted(text: &[u8], separator: u8) -> (&[u8], &[u8]) {
    for (i, byte) in text.iter().enumerate() {
        if *byte == separator {
            return (&text[..i], &text[i + 1..]);
        }
    }
    (text, &text[text.len()..])
}

/// The words of a row, which are parted by spaces, and the round in which they are read.
#[derive(Drop)]
pub struct Words<'a> {
    rest: &'a [u8],
    round: u64,
}

impl<'a> Words<'a> {
    /// The words of this text.
    pub fn of(rest: &'a [u8], round: u64) -> Words<'a> {
        Words { rest, round }
    }

    /// The words that are left.
    pub fn rest(&self) -> &'a [u8] {
        self.rest
    }

    /// The next word, which is empty where none is left.
    pub fn word(&mut self) -> &'a [u8] {
        let (word, rest) = parted(self.rest, b' ');
        self.rest = rest;
        word
    }

    /// The number of 64 bits that the next word spells.
    pub fn number_u64(&mut self) -> u64 {
        number_u64(self.word())
    }

    /// The number of 32 bits that the next word spells.
    pub fn number_u32(&mut self) -> u32 {
        number_u32(self.word())
    }

    /// The next word as a time, as in `5.6` of seconds and nanoseconds.
    pub fn time(&mut self) -> Time {
        time_of(self.word())
    }

    /// The bytes of the next word: `%` is the number of the round, `x*3` is `xxx`, `hex:00` is a zero byte, and all
    /// else is itself.
    pub fn bytes(&mut self, alloc: Global) -> Result<Bytes, NoMemory> {
        let word = self.word();
        if let Some(digits) = behind(word, b"hex:") {
            return hex_bytes(alloc, digits);
        }
        let mut out = Vec::new(alloc);
        match word {
            [b'%'] => put_decimal(&mut out, self.round)?,
            [byte, b'*', count @ ..] => {
                for _i in 0..number_u64(count) {
                    put(&mut out, &[*byte])?;
                }
            }
            _ => put(&mut out, word)?,
        }
        Ok(Bytes::new(out))
    }

    /// The name whose bytes the next word says.
    pub fn name(&mut self, alloc: Global) -> Result<Name, NoMemory> {
        let bytes = self.bytes(alloc)?;
        Ok(Name::new(bytes))
    }

    /// The handle that the next word says: `dir1` is that of the directory of fileid 1, `far1` that of another
    /// volume's, and all else is its bytes.
    pub fn handle(&mut self, alloc: Global) -> Result<Fh, NoMemory> {
        let Some(handle) = handle_of(self.rest) else {
            let bytes = self.bytes(alloc)?;
            return Ok(Fh::new(bytes));
        };
        self.word();
        match Vec::from_slice(alloc, &handle.bytes()) {
            Ok(bytes) => Ok(Fh::new(Bytes::new(bytes))),
            Err(_) => Err(NoMemory),
        }
    }

    /// What is set by the words up to `=`.
    pub fn attributes(&mut self) -> Sattr {
        let mut attributes = NOTHING_SET;
        for _i in 0..6 {
            if behind(self.rest, b"= ").is_none() {
                attributes = with(attributes, self.word());
            }
        }
        attributes
    }

    /// The guard, where the next word gives one.
    pub fn guard(&mut self) -> Option<Time> {
        behind(self.rest, b"guard=")?;
        let word = self.word();
        behind(word, b"guard=").map(time_of)
    }
}

fn time_of(text: &[u8]) -> Time {
    let (sec, nsec) = parted(text, b'.');
    Time {
        sec: number_u32(sec),
        nsec: number_u32(nsec),
    }
}

fn set_time_of(text: &[u8]) -> SetTime {
    if text == b"now".as_slice() {
        return SetTime::Server;
    }
    SetTime::Client(time_of(text))
}

// The attributes, and what one word sets.
fn with(attributes: Sattr, word: &[u8]) -> Sattr {
    let (name, value) = parted(word, b'=');
    let mut attributes = attributes;
    if name == b"mode".as_slice() {
        attributes.mode = Some(number_u32(value));
    } else if name == b"uid".as_slice() {
        attributes.uid = Some(number_u32(value));
    } else if name == b"gid".as_slice() {
        attributes.gid = Some(number_u32(value));
    } else if name == b"size".as_slice() {
        attributes.size = Some(number_u64(value));
    } else if name == b"atime".as_slice() {
        attributes.atime = set_time_of(value);
    } else if name == b"mtime".as_slice() {
        attributes.mtime = set_time_of(value);
    }
    attributes
}

// The handle that the first word names, if it names one.
fn handle_of(text: &[u8]) -> Option<Handle> {
    let (word, _) = parted(text, b' ');
    if let Some(fileid) = behind(word, b"far") {
        return Some(Handle {
            volume: VOLUME + 1,
            fileid: number_u64(fileid),
            kind: Kind::Dir,
        });
    }
    for (name, kind) in KINDS.iter() {
        if let Some(fileid) = behind(word, name) {
            return Some(Handle {
                volume: VOLUME,
                fileid: number_u64(fileid),
                kind: *kind,
            });
        }
    }
    None
}
