//! The counter of a board over files: a file of eight bytes, and the number that is on the disk.
ghost use Rattle.std.specs.Prelude.{◌≡◌, ◌≢◌, ◌+◌, ◌-◌, ◌<◌, ◌^◌, true, false, Ok, Some, None, is_some, is_ok, IsErr, IfOk, IfSome, IfNone, OnErr};

use crate::failed::{BoardFile, FileBoardFailed, FileFault, blame};
use crate::files::{read_at, write_at};
use std::fs::OpenFile;
use std::io;
use std::io::{Read, Seek, Write};

/// How many bytes the counter file has.
pub const COUNTER_BYTES: usize = 8;

/// The counter file, and the number that is on the disk.
#[derive(Drop)]
pub struct Counter<F> {
    /// None where it is missing, which is the number 0.
    file: Option<F>,
    /// None after a write or a sync of it failed.
    number: Option<u64>,
}

/// Writes the number over that of the file, and brings it to the disk. The file keeps its length, so a sync of its data
/// is all that it takes.
fn put<F: Write + Seek + OpenFile>(file: &mut F, number: u64) -> io::Result<()> {
    write_at(file, 0, &number.to_le_bytes())?;
    file.sync_data()
}

impl<F: Read + Write + Seek + OpenFile + Drop> Counter<F> {
    /// The counter in this file. Where it is missing the number is 0, and no file is made for it: it can't be raised.
    pub fn of(file: Option<F>) -> Result<Counter<F>, FileBoardFailed>
        ensures missing { IfNone file (result ≡ Ok (record { file = None; number = Some 0 })) }
        ensures found { IfSome file (λ _. IfOk result (λ c. is_some c.file ≡ true)) }
    {
        match file {
            Some(file) => Counter::of_file(file),
            None => Ok(Counter {
                file: None,
                number: Some(0),
            }),
        }
    }

    /// The same for a file that is there. Its number is written again as it is read: where the sync of an earlier process
    /// failed, the bytes may be in the system's cache alone, and count as written there.
    fn of_file(mut file: F) -> Result<Counter<F>, FileBoardFailed>
        ensures { IfOk result (λ c. is_some c.file ≡ true) }
    {
        let mut bytes = [0; COUNTER_BYTES];
        let read = read_at(&mut file, 0, &mut bytes);
        blame(BoardFile::Counter, FileFault::Unreadable, read)?;
        let written = write_at(&mut file, 0, &bytes);
        blame(BoardFile::Counter, FileFault::Unwritable, written)?;
        blame(BoardFile::Counter, FileFault::Unsynced, file.sync_all())?;
        let number = Some(u64::from_le_bytes(bytes));
        Ok(Counter {
            file: Some(file),
            number,
        })
    }

    /// The number, where it is on the disk.
    pub fn number(&self) -> io::Result<u64>
        ensures some { IfSome self.now.number (λ n. result ≡ Ok n) }
        ensures none { IfNone self.now.number (IsErr result) }
    {
        match self.number {
            Some(number) => Ok(number),
            None => Err(io::ErrorKind::Other.into()),
        }
    }

    /// Raises the number by one, on the disk. After a failure the number isn't known any more; at its type's end it stays,
    /// and nothing is written. It fails where the file is missing.
    pub fn raise(&mut self) -> io::Result<u64>
        ensures raised { IfOk result (λ n. (0 < n) × (self.old.number ≡ Some (n - 1))) }
        ensures known { IfOk result (λ n. self.new.number ≡ Some n) }
        ensures lost { OnErr result (self.old.number ≢ Some (2 ^ 64 - 1)
            → self.new.number ≡ None) }
        ensures full { self.old.number ≡ Some (2 ^ 64 - 1) → self.new.number ≡ self.old.number }
        ensures missing { is_some self.old.file ≡ false → is_ok result ≡ false }
    {
        let Some(next) = self.number()?.checked_add(1) else {
            return Err(io::ErrorKind::InvalidData.into());
        };
        self.number = None;
        let Some(file) = &mut self.file else {
            return Err(io::ErrorKind::NotFound.into());
        };
        put(file, next)?;
        self.number = Some(next);
        Ok(next)
    }
}
