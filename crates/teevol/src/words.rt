//! The words of the command line.

use crate::ended::Ended;
use std::alloc::Global;
use std::rt::Env;
use std::{env, io};

/// The words after the program's name.
pub fn words<R: Env + AllocGlobal>(rt: &R, alloc: Global) -> Result<Vec<String>, Ended> {
    let args = match env::args(rt) {
        Ok(args) => args,
        Err(error) if matches!(error.kind(), io::ErrorKind::OutOfMemory) => {
            return Err(Ended::NoMemory);
        }
        Err(_) => return Err(Ended::BadWords),
    };
    let mut words = Vec::new(alloc);
    for word in args.skip(1) {
        if words.push(word).is_err() {
            return Err(Ended::NoMemory);
        }
    }
    Ok(words)
}
