//! `teevol`: tells what the volume of an image holds, and verifies it. It changes nothing.
#![tactic(auto)]

mod blocks;
mod cat;
mod command;
mod ended;
mod info;
mod json;
mod names;
mod regions;
mod texts;
mod verify;
mod words;

use crate::blocks::blocks;
use crate::cat::cat;
use crate::command::{Asked, Look, Work, asked_for};
use crate::ended::{Ended, Told, say_why};
use crate::info::info;
use crate::verify::verify;
use board::Board;
use boards::{FileBoardFailed, MemBoard, copy_of_files};
use inspect::{Opened, Unread, open_volume};
use std::alloc::Global;
use std::io;
use std::process::ExitCode;
use std::string::String;
use tee_base::{StdSink, write_all};

/// Opens the volume of a board.
fn open_board<B: Board + Drop>(alloc: Global, board: B) -> Result<Opened<B>, Ended> {
    match open_volume(alloc, board) {
        Ok(opened) => Ok(opened),
        Err(Unread::Blank) => Err(Ended::Blank),
        Err(Unread::Refused(why)) => Err(Ended::unopened(why)),
    }
}

/// Does what is asked of a volume.
fn look_into<B: Board + Drop>(
    alloc: Global,
    opened: &mut Opened<B>,
    look: Look<'_>,
) -> Result<Told, Ended> {
    match look.work {
        Work::Info => info(alloc, &mut opened.volume, &opened.facts, look.json),
        Work::Verify => verify(alloc, &mut opened.volume, look.json),
        Work::Cat { region, id } => cat(alloc, &mut opened.volume, (region, id), look.json),
        Work::Blocks => Err(Ended::BadWords),
    }
}

/// Opens the volume of a board, and does what is asked of it.
fn open_and_look<B: Board + Drop>(alloc: Global, board: B, look: Look<'_>) -> Result<Told, Ended> {
    let mut opened = open_board(alloc, board)?;
    let told = look_into(alloc, &mut opened, look);
    drop(opened);
    told
}

/// Tells the blocks of a board.
fn look_at_blocks<B: Board + Drop>(alloc: Global, board: B, json: bool) -> Result<Told, Ended> {
    let mut board = board;
    let told = blocks(alloc, &mut board, json);
    drop(board);
    told
}

/// Copies the board of the files.
fn copied(rt: &HostRuntime, alloc: Global, image: &str) -> Result<MemBoard, Ended> {
    match copy_of_files(rt, alloc, image) {
        Ok(board) => Ok(board),
        Err(FileBoardFailed::Failed(failure)) => Err(Ended::NoBoard(failure)),
        Err(FileBoardFailed::NoMemory) => Err(Ended::NoMemory),
    }
}

/// Does what is asked on a copy of the board of the files.
fn look_at(rt: &HostRuntime, alloc: Global, look: Look<'_>) -> Result<Told, Ended> {
    let board = copied(rt, alloc, look.image)?;
    match look.work {
        Work::Blocks => look_at_blocks(alloc, board, look.json),
        _ => open_and_look(alloc, board, look),
    }
}

/// Writes these bytes to standard output, and ends so.
fn print(rt: &HostRuntime, bytes: &[u8], ended: Ended) -> Ended {
    match write_all(&mut StdSink::new(io::writer(rt)), bytes) {
        Ok(()) => ended,
        Err(_) => Ended::WriteFault,
    }
}

/// Does what is asked on a copy of the board of the files, and writes what it finds.
fn show(rt: &HostRuntime, alloc: Global, look: Look<'_>) -> Ended {
    match look_at(rt, alloc, look) {
        Ok(Told { bytes, is_sound }) => print(rt, bytes.as_slice(), Ended::told(is_sound)),
        Err(ended) => ended,
    }
}

/// Does what the words ask for.
fn answer(rt: &HostRuntime, alloc: Global, words: &[String]) -> Ended {
    match asked_for(words) {
        Asked::Help => print(rt, texts::HELP.as_bytes(), Ended::Sound),
        Asked::Version => print(rt, texts::VERSION.as_bytes(), Ended::Sound),
        Asked::Look(look) => show(rt, alloc, look),
        Asked::Nothing => Ended::BadWords,
    }
}

fn main(rt: HostRuntime) -> ExitCode {
    let alloc = rt.alloc();
    let ended = match words::words(&rt, alloc) {
        Ok(words) => answer(&rt, alloc, words.as_slice()),
        Err(ended) => ended,
    };
    say_why(&rt, &ended);
    ExitCode::from(ended.status())
}
