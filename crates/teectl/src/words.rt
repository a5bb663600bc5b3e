//! The words of the command line.

use std::alloc::Global;
use std::rt::Env;
use std::{env, io};
use tee_top::Status;

/// The words behind the program's name. A word that isn't UTF-8 makes the command line faulty.
pub fn words<R: Env + AllocGlobal>(rt: &R, alloc: Global) -> Result<Vec<String>, Status> {
    let args = match env::args(rt) {
        Ok(args) => args,
        Err(error) if matches!(error.kind(), io::ErrorKind::OutOfMemory) => {
            return Err(Status::NoMemory);
        }
        Err(_) => return Err(Status::BadWords),
    };
    let mut words = Vec::new(alloc);
    for word in args.skip(1) {
        if words.push(word).is_err() {
            return Err(Status::NoMemory);
        }
    }
    Ok(words)
}
