//! Files that an opening makes. What it takes away again are those alone.

use crate::counter::COUNTER_BYTES;
use crate::failed::{BoardFile, FileBoardFailed, FileFault, blame};
use crate::files::{Lock, hold, lengthen};
use std::alloc::Global;
use std::fs::{OpenFile, OpenOptions};
use std::io::Write;
use std::os::unix::fs::{MetadataExt, OpenOptionsExt};
use std::rt::Files;
use std::string::String;
use std::{fs, io};

/// Who may read and write a new file: its owner alone, as it lies beside the key.
const OWNER_ALONE: u32 = 0o600;

/// How many names there are for a file that isn't whole yet.
const NAMES: u32 = u32::MAX;

/// A new file of this path. It fails where something has that name.
fn create<R: Files>(rt: &R, path: &str) -> io::Result<R::File> {
    OpenOptions::new()
        .read(true)
        .write(true)
        .create_new(true)
        .mode(OWNER_ALONE)
        .open(rt, path)
}

/// Whether the path still leads to this open file.
fn leads_to<R: Files>(rt: &R, path: &str, file: &R::File) -> io::Result<bool> {
    let (named, held) = (fs::symlink_metadata(rt, path)?, file.metadata()?);
    Ok(named.dev() == held.dev() && named.ino() == held.ino())
}

/// Removes the file of this path. The library's call holds the path twice in buffers of 4,096 bytes, so it stands in a function
/// that makes this call alone.
#[inline(never)]
fn remove<R: Files>(rt: &R, path: &str) -> io::Result<()> {
    fs::remove_file(rt, path)
}

/// Gives the file of this name another one, where nothing has that. It stands alone for the same reason, with two paths.
#[inline(never)]
fn link<R: Files>(rt: &R, name: &str, path: &str) -> io::Result<()> {
    fs::hard_link(rt, name, path)
}

/// Takes away a file that this call made and no other process holds. What can't be taken away is left.
pub fn take_away<R: Files>(rt: &R, path: &str, file: &R::File) {
    if let Ok(true) = leads_to(rt, path, file) {
        let _ = remove(rt, path);
    }
}

/// Takes a new file of this path for this process. Where the system refuses the lock the file goes. Where another process
/// holds it by then, it stays.
fn hold_new<R: Files>(
    rt: &R,
    role: BoardFile,
    path: &str,
    file: &R::File,
) -> Result<(), FileBoardFailed>
where
    R::File: Lock,
{
    match hold(role, file) {
        Ok(()) => Ok(()),
        Err(why) => {
            if !why.is_in_use() {
                take_away(rt, path, file);
            }
            Err(why)
        }
    }
}

/// Makes a blank image, held by this process. It has its name from the start: until its length is set it is an image of no
/// blocks, which the next opening lengthens.
pub fn make_image<R: Files>(rt: &R, path: &str) -> Result<R::File, FileBoardFailed>
where
    R::File: Lock,
{
    let created = create(rt, path);
    let mut file = blame(BoardFile::Image, FileFault::Unwritable, created)?;
    hold_new(rt, BoardFile::Image, path, &file)?;
    match lengthen(&mut file, 0) {
        Ok(()) => Ok(file),
        Err(error) => {
            take_away(rt, path, &file);
            Err(FileBoardFailed::of(BoardFile::Image, FileFault::Unwritable, error))
        }
    }
}

/// A new file beside this path, held by this process, and its name. A name that is taken is left alone: it may be another
/// board's, or a process that was killed left it.
fn create_beside<R: Files>(
    rt: &R,
    alloc: Global,
    path: &str,
) -> Result<(R::File, String), FileBoardFailed>
where
    R::File: Lock,
{
    let role = BoardFile::Counter;
    for number in 0..NAMES {
        let name = format!(in alloc; "{path}.new{number}")?;
        match create(rt, name.as_str()) {
            Err(error) if error.kind() == io::ErrorKind::AlreadyExists => {}
            created => {
                let file = blame(role, FileFault::Unwritable, created)?;
                hold_new(rt, role, name.as_str(), &file)?;
                return Ok((file, name));
            }
        }
    }
    let error = io::ErrorKind::AlreadyExists.into();
    Err(FileBoardFailed::of(role, FileFault::Unwritable, error))
}

/// Writes the number 0 into the file, brings it to the disk, and gives it this name too, where nothing has that name.
fn put_at<R: Files>(
    rt: &R,
    name: &str,
    file: &mut R::File,
    path: &str,
) -> Result<(), FileBoardFailed> {
    let role = BoardFile::Counter;
    let written = file.write_all(&[0; COUNTER_BYTES]);
    blame(role, FileFault::Unwritable, written)?;
    blame(role, FileFault::Unsynced, file.sync_all())?;
    blame(role, FileFault::Unwritable, link(rt, name, path))
}

/// Makes a counter file of the number 0, held by this process. It has its name only once it is whole and on the disk.
pub fn make_counter<R: Files>(rt: &R, alloc: Global, path: &str) -> Result<R::File, FileBoardFailed>
where
    R::File: Lock,
{
    let (mut file, name) = create_beside(rt, alloc, path)?;
    let put = put_at(rt, name.as_str(), &mut file, path);
    take_away(rt, name.as_str(), &file);
    put?;
    Ok(file)
}
