//! Why files are no board, in words.

use boards::{BoardFile, FileFailure, FileFault};
use std::alloc::{AllocError, Global};
use std::path::Path;

/// What a look at the files finds after an opening failed.
#[derive(Clone, Copy)]
pub struct Found {
    /// The folder of the image is there.
    pub has_folder: bool,
    /// How many bytes the faulty file has, if that can be told.
    pub bytes: Option<u64>,
}

/// The folder that the file is in.
pub fn folder_of(image: &str) -> Path<'_> {
    match Path::new(image).parent() {
        Some(folder) if !folder.as_str().is_empty() => folder,
        _ => Path::new("."),
    }
}

/// The path of a file of the board.
pub fn path_of(alloc: Global, image: &str, file: BoardFile) -> Result<String, AllocError> {
    match file {
        BoardFile::Image => String::from_str(alloc, image),
        BoardFile::Counter => format!(in alloc; "{image}.ctr"),
        BoardFile::Key => format!(in alloc; "{image}.key"),
        BoardFile::Folder => String::from_str(alloc, folder_of(image).as_str()),
    }
}

/// How many bytes a file of the board has to have.
fn bytes_of(file: BoardFile) -> &'static str {
    match file {
        BoardFile::Image => "an image has a multiple of 1024",
        BoardFile::Counter => "a counter has 8",
        BoardFile::Key => "a key and a seed have 64",
        BoardFile::Folder => "a folder has none",
    }
}

/// Writes that the file has another length than it has to have.
fn write_length(text: &mut String, file: BoardFile, bytes: Option<u64>) -> Result<(), AllocError> {
    let wanted = bytes_of(file);
    match bytes {
        Some(bytes) => write!(text, "has {bytes} bytes; {wanted}"),
        None => write!(text, "has a wrong length; {wanted}"),
    }
}

/// Writes what is wrong with the file of this path.
fn write_fault(
    text: &mut String,
    path: &str,
    failure: &FileFailure,
    bytes: Option<u64>,
) -> Result<(), AllocError> {
    match failure.fault {
        FileFault::Missing => {
            write!(
                text,
                "not there; make it with: (umask 077; head -c 64 /dev/urandom > {path})"
            )
        }
        FileFault::NoKeys | FileFault::WrongLength => write_length(text, failure.file, bytes),
        FileFault::InUse => text.push_str("another process has this board"),
        fault => match &failure.said {
            Some(said) => write!(text, "{fault}: {said}"),
            None => write!(text, "{fault}"),
        },
    }
}

/// Why the files of this image are no board: which file, and what is wrong with it.
pub fn file_reason(
    alloc: Global,
    image: &str,
    failure: &FileFailure,
    found: Found,
) -> Result<String, AllocError> {
    if image.is_empty() {
        return String::from_str(alloc, "the name of the image is empty");
    }
    if !found.has_folder {
        let folder = path_of(alloc, image, BoardFile::Folder)?;
        let mut text = folder;
        text.push_str(": there is no such folder")?;
        return Ok(text);
    }
    let path = path_of(alloc, image, failure.file)?;
    let mut text = path.clone()?;
    text.push_str(": ")?;
    write_fault(&mut text, path.as_str(), failure, found.bytes)?;
    Ok(text)
}
