//! A shelf of files.
ghost use Rattle.std.specs.Prelude.{◌≡◌, ◌<◌, ◌≤◌, length, IfOk};
ghost use Rattle.std.proofs.Common.{lit<};
ghost use Rattle.sl_disk.specs.Blind.{blind, Blames, not_modelled};

use crate::shelf::{Arm, Shelf, ShelfFault};
use std::alloc::Global;
use std::fs::{File, OpenOptions};
use std::io;
use std::os::unix::fs::FileExt;
use std::rt::Files;

/// Why a file gave no answer.
#[derive(Drop)]
enum Trouble {
    Device,
    Memory,
}

impl From<io::Error> for Trouble {
    fn from(error: io::Error) -> Trouble {
        match error.kind() {
            io::ErrorKind::OutOfMemory => Trouble::Memory,
            _ => Trouble::Device,
        }
    }
}

/// The file of a disk.
#[derive(Drop)]
struct Opened {
    disk: u8,
    file: File,
}

/// A folder with one file for each disk, which are opened as they are asked for.
#[derive(Drop)]
struct Folder<R: Files<File = File> + Drop> {
    rt: R,
    path: String,
    opened: Vec<Opened>,
}

/// A folder with one file for each disk, the word `disk` followed by its number.
///
/// It hands each call to the operating system, and a sync is an `fsync`. What a file holds can't be known, so it
/// tells nothing but its counts. It ignores `arm` and `crash`.
#[derive(Drop)]
pub struct FileShelf<R: Files<File = File> + Drop> {
    folder: Folder<R>,
    faults: [u64; 64],
}

impl<R: Files<File = File> + Drop> FileShelf<R> {
    /// The shelf in this folder, which has to be there. A file is opened, or made, at the first call of its disk.
    pub fn new(alloc: Global, rt: R, path: String) -> FileShelf<R> {
        FileShelf {
            folder: Folder {
                rt,
                path,
                opened: Vec::new(alloc),
            },
            faults: [0; 64],
        }
    }
}

impl<R: Files<File = File> + Drop> Folder<R> {
    /// Opens the file of a disk, or makes it. The folder is synced too, so that the file is found again.
    fn open(&self, disk: u8) -> Result<File, Trouble> {
        let alloc = *self.opened.allocator();
        let path = &self.path;
        let name = format!(in alloc; "{path}/disk{disk}").map_err(|_| Trouble::Memory)?;
        let file = OpenOptions::new()
            .read(true)
            .write(true)
            .create(true)
            .open(&self.rt, name.as_str())?;
        File::open(&self.rt, path.as_str())?.sync_all()?;
        Ok(file)
    }

    /// The file of a disk.
    fn file(&mut self, disk: u8) -> Result<&File, Trouble> {
        let place = match self.opened.iter().position(|opened| opened.disk == disk) {
            Some(place) => place,
            None => {
                let file = self.open(disk)?;
                self.opened
                    .push(Opened { disk, file })
                    .map_err(|_| Trouble::Memory)?;
                self.opened.len() - 1
            }
        };
        match self.opened.get(place) {
            Some(opened) => Ok(&opened.file),
            None => Err(Trouble::Device),
        }
    }

    fn len(&mut self, disk: u8) -> Result<u64, Trouble> {
        Ok(self.file(disk)?.metadata()?.len())
    }

    fn read(&mut self, disk: u8, at: u64, into: &mut [u8]) -> Result<usize, Trouble>
        ensures { IfOk result (λ n. n ≤ length into.old) }
    {
        fill(self.file(disk)?, at, into)
    }

    fn write_at(&mut self, disk: u8, at: u64, bytes: &[u8]) -> Result<(), Trouble> {
        Ok(self.file(disk)?.write_all_at(bytes, at)?)
    }

    fn cut(&mut self, disk: u8, size: u64) -> Result<(), Trouble> {
        let file = self.file(disk)?;
        if size < file.metadata()?.len() {
            file.set_len(size)?;
        }
        Ok(())
    }

    fn sync(&mut self, disk: u8) -> Result<(), Trouble> {
        Ok(self.file(disk)?.sync_all()?)
    }
}

/// Reads until the buffer is full or the file ends.
fn fill(file: &File, at: u64, into: &mut [u8]) -> Result<usize, Trouble>
    ensures { IfOk result (λ n. n ≤ length into.old) }
{
    let mut done = 0;
    for _ in 0..u64::MAX {
        if done >= into.len() {
            break;
        }
        match file.read_at(&mut into[done..], at.saturating_add(done as u64)) {
            Ok(0) => break,
            Ok(some) => done += some,
            Err(error) if error.kind() == io::ErrorKind::Interrupted => {}
            Err(error) => return Err(error.into()),
        }
    }
    Ok(done)
}

/// Makes an answer of an outcome, and counts a fault of the device.
fn answer<T: Drop>(
    faults: &mut [u64; 64],
    disk: u8,
    outcome: Result<T, Trouble>,
) -> Result<T, ShelfFault>
    requires { disk < 64 }
    ensures blames { Blames disk faults.old faults.new result }
    ensures same { IfOk result (λ x. outcome ≡ Ok x) }
{
    match outcome {
        Ok(value) => Ok(value),
        Err(Trouble::Memory) => Err(ShelfFault::NoMemory),
        Err(Trouble::Device) => {
            faults[disk as usize] = faults[disk as usize].saturating_add(1);
            Err(ShelfFault::Failed)
        }
    }
}

#[tactic(auto, using(crate::proofs::Blaming::blind_called, crate::proofs::Blaming::blind_elapses))]
impl<R: Files<File = File> + Drop> Shelf for FileShelf<R> {
    ghost now = { λ s. blind s.faults };

    ghost shows = { λ s d modelled. not_modelled modelled };

    ghost counts_now = { λ s d t c le now. now };

    ghost only_now = { λ s d c left. left };

    ghost counts_together = { λ s t f le now. now 0 (lit< tt) };

    ghost only_together = { λ s f left d below. absurd left };

    ghost each_of_them = { λ s t f left d below. absurd left };

    fn len(&mut self, disk: u8) -> Result<u64, ShelfFault> {
        let outcome = self.folder.len(disk);
        answer(&mut self.faults, disk, outcome)
    }

    fn read(&mut self, disk: u8, at: u64, into: &mut [u8]) -> Result<usize, ShelfFault> {
        let outcome = self.folder.read(disk, at, into);
        answer(&mut self.faults, disk, outcome)
    }

    fn write_at(&mut self, disk: u8, at: u64, bytes: &[u8]) -> Result<(), ShelfFault> {
        let outcome = self.folder.write_at(disk, at, bytes);
        answer(&mut self.faults, disk, outcome)
    }

    fn cut(&mut self, disk: u8, size: u64) -> Result<(), ShelfFault> {
        let outcome = self.folder.cut(disk, size);
        answer(&mut self.faults, disk, outcome)
    }

    fn sync(&mut self, disk: u8) -> Result<(), ShelfFault> {
        let outcome = self.folder.sync(disk);
        answer(&mut self.faults, disk, outcome)
    }

    fn arm(&mut self, _disk: u8, _after: u64, _how: Arm) {}

    fn crash(&mut self, _disk: u8, _image: u64) -> Result<(), ShelfFault> {
        Ok(())
    }
}
