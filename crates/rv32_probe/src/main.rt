//! `rv32_probe IMAGE` runs a flat image on the processor of `rv32`, so that it can be compared with others, and timed, from outside.
//!
//! The image begins at 0x10000, and is all the memory that there is. Its calls are two of Linux: one writes bytes to the standard output, the
//! other ends the run.
#![tactic(auto)]

use anyhow::Result;
use rv32::{BASE, Halt, Machine, Memory};
use std::io::Write;
use std::process::ExitCode;
use std::{env, fs, io};

/// The status of a faulty command line.
const USAGE: u8 = 64;

/// The status where the image doesn't end the run itself.
const STOPPED: u8 = 70;

/// How many instructions are made before the machine is looked at.
const BUDGET: u32 = 1_000_000;

/// How often it is looked at.
const PIECES: u32 = 1_000_000;

/// The registers of a call by the calling convention: three arguments, and the number of the call.
const A0: usize = 10;

const A1: usize = 11;

const A2: usize = 12;

const A7: usize = 17;

/// The numbers of the two calls.
const WRITE: u32 = 64;

const EXIT: u32 = 93;

/// What comes of a call.
enum Served {
    GoesOn,
    Exits(u8),
    Stops(Halt),
}

/// Serves a call.
fn serve<W: Write>(machine: &mut Machine, out: &mut W) -> io::Result<Served> {
    match machine.registers[A7] {
        WRITE => {
            let size = machine.registers[A2];
            match machine.memory.slice(machine.registers[A1], size) {
                Some(bytes) => out.write_all(bytes)?,
                None => return Ok(Served::Stops(Halt::Outside)),
            }
            machine.registers[A0] = size;
            Ok(Served::GoesOn)
        }
        EXIT => Ok(Served::Exits((machine.registers[A0] % 0x100) as u8)),
        _ => Ok(Served::Stops(Halt::Call)),
    }
}

/// Runs the machine to its end.
fn run<W: Write>(machine: &mut Machine, out: &mut W) -> io::Result<Served> {
    for _ in 0..PIECES {
        let served = match machine.run(BUDGET) {
            Halt::Budget => Served::GoesOn,
            Halt::Call => serve(machine, out)?,
            stop => Served::Stops(stop),
        };
        match served {
            Served::GoesOn => {}
            end => return Ok(end),
        }
    }
    Ok(Served::Stops(Halt::Budget))
}

fn main(rt: HostRuntime) -> Result<ExitCode> {
    let words: Vec<String> = env::args(&rt)?.collect(rt.alloc())?;
    if words.len() != 2 {
        drop(words);
        eprintln!(rt; "usage: rv32_probe IMAGE")?;
        return Ok(ExitCode::from(USAGE));
    }
    let image = fs::read(&rt, words[1].as_str())?;
    drop(words);
    let mut machine = Machine {
        registers: [0; 32],
        pc: BASE,
        memory: Memory::from_vec(image),
    };
    match run(&mut machine, &mut rt.stdout())? {
        Served::Exits(status) => Ok(ExitCode::from(status)),
        Served::Stops(stop) => {
            let pc = machine.pc;
            eprintln!(rt; "rv32_probe: {stop:?} at {pc}")?;
            Ok(ExitCode::from(STOPPED))
        }
        Served::GoesOn => Ok(ExitCode::from(STOPPED)),
    }
}
