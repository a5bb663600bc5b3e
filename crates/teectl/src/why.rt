//! Why a run ended so, in words.

mod files;
mod refusals;
mod versions;

use crate::why::files::{Found, file_reason, folder_of, path_of};
use crate::why::refusals::refusal_reason;
use app_api::Host;
use boards::{BoardFile, FileFailure};
use reasons::line_reason;
use script::Dialect;
use std::alloc::{AllocError, Global};
use std::fs;
use std::rt::Files;
use tee_base::limits;
use tee_top::Status;
pub use versions::{version_in, with_version};

/// How a run ended, and why, where that is asked for and there is more to say than the status does.
#[derive(Drop)]
pub struct Ended {
    pub status: Status,
    pub why: Option<String>,
}

impl Ended {
    /// It ended with this status, of which no more is said.
    pub fn plain(status: Status) -> Ended {
        Ended { status, why: None }
    }
}

/// What a log has room for.
fn log_reason(alloc: Global) -> Result<String, AllocError> {
    let (entries, bytes) = (limits::MAX_LOG_ENTRIES, limits::MAX_LOG_BYTES);
    format!(in alloc; "a log has room for {entries} entries and for {bytes} bytes of parameters")
}

/// What is said of a status where no file is at fault. The text is what was read, as far as it is known, and of the grammar this was
/// taken.
fn words_for<A>(
    alloc: Global,
    status: &Status,
    text: Option<&[u8]>,
    hosts: &[Host<A>],
    dialect: Dialect,
) -> Result<Option<String>, AllocError> {
    let said = match status {
        Status::BadLine(number) => match text {
            Some(text) => return line_reason(alloc, text, *number, hosts, dialect),
            None => return Ok(None),
        },
        Status::TooLong => {
            let most = limits::MAX_SCRIPT_BYTES;
            format!(in alloc; "a script has at most {most} bytes")?
        }
        Status::BadWords => String::from_str(alloc, "teectl --help tells the words")?,
        Status::ReadFault => String::from_str(
            alloc,
            "standard input can't be read: it may be a folder, or closed",
        )?,
        Status::StoreRefused(why) => String::from_str(alloc, refusal_reason(why))?,
        Status::LogFull(_) => log_reason(alloc)?,
        Status::WriteFault => String::from_str(
            alloc,
            "standard output can't be written: the disk may be full, or the reader of a pipe may have ended",
        )?,
        Status::BoardFault => String::from_str(
            alloc,
            "a read, a write or a sync of the image failed: the disk may be full or faulty",
        )?,
        _ => return Ok(None),
    };
    Ok(Some(said))
}

/// The status with its reason. Where there is no memory for the reason, none is given.
pub fn with_reason<A>(
    alloc: Global,
    status: Status,
    text: Option<&[u8]>,
    hosts: &[Host<A>],
    dialect: Dialect,
) -> Ended {
    let why = words_for(alloc, &status, text, hosts, dialect).unwrap_or(None);
    Ended { status, why }
}

/// What a look at the files finds, after one of them was faulty.
fn look<R: Files>(
    rt: &R,
    alloc: Global,
    image: &str,
    file: BoardFile,
) -> Result<Found, AllocError> {
    let path = path_of(alloc, image, file)?;
    let bytes = match fs::metadata(rt, path.as_str()) {
        Ok(about) => Some(about.len()),
        Err(_) => None,
    };
    let has_folder = fs::metadata(rt, folder_of(image)).is_ok();
    Ok(Found { has_folder, bytes })
}

/// The status of files that are no board, and which file is to blame.
pub fn with_file_reason<R: Files>(
    rt: &R,
    alloc: Global,
    image: &str,
    failure: &FileFailure,
) -> Ended {
    let found = look(rt, alloc, image, failure.file);
    let why = match found {
        Ok(found) => file_reason(alloc, image, failure, found).ok(),
        Err(_) => None,
    };
    Ended {
        status: Status::BoardFault,
        why,
    }
}
