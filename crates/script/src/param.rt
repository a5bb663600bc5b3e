//! Words into parameters.

ghost use Rattle.std.specs.Prelude.{◌≡◌, ◌^◌, ◌<◌, ◌≤◌, ◌*◌, Some, List, ℕ, map, replicate, IfOk};
ghost use Rattle.std.specs.List.{slice_split};
ghost use Rattle.script.specs.Parameters.{Gives, IsSmall, fill_parameter, hex_of, parameter_at, parameter_of, parameter_of_four};
ghost use Rattle.script.specs.Parameters.{parameter_of_one, parameter_of_parts, parameter_of_three, parameter_of_two, parameters_of};
ghost use Rattle.script.specs.Parameters.{part_with, plain_parameter};
ghost use Rattle.script.specs.Numbers.{number32_of};
ghost use Rattle.tee_base.specs.declared.limits.TheConstants.{MAX_ASK_BYTES};

use crate::number::number32;
use crate::words::{LineError, parts_of};
use app_api::{Param, Params};
use std::alloc::Global;
use tee_base::{Bytes, limits};

/// A parameter, and how many bytes were filled in for it.
#[derive(Drop)]
pub struct Parameter {
    pub param: Param,
    pub fill: u32,
}

/// The four parameters of a line, and how many bytes were filled in for them.
#[derive(Drop)]
pub struct Parameters {
    pub params: Params,
    pub fills: u32,
}

/// Bytes in hexadecimal digits of either case, two for each.
pub fn hex_bytes(alloc: Global, digits: &[u8]) -> Result<Bytes, LineError>
    ensures { Gives result (hex_of digits.now) }
{
    match hex::decode(alloc, digits) {
        Ok(bytes) => Ok(Bytes::from_vec(bytes)),
        Err(hex::FromHexError::OutOfMemory) => Err(LineError::NoMemory),
        Err(_) => Err(LineError::Bad),
    }
}

/// A parameter for which no byte was filled in.
fn plain(param: Param) -> Parameter
    ensures { result ≡ plain_parameter param }
{
    Parameter { param, fill: 0 }
}

/// A parameter of one part: none, or a value output.
#[tactic(auto, unfolding(crate::specs::Parameters::parameter_of_one))]
fn param_of_one(kind: &[u8]) -> Result<Parameter, LineError>
    ensures value { Gives result (parameter_of_one kind.now) }
    ensures small { IfOk result IsSmall }
{
    match kind {
        b"-" => Ok(plain(Param::Nothing)),
        b"vo" => Ok(plain(Param::ValueOut)),
        _ => Err(LineError::Bad),
    }
}

/// A parameter of two parts: memory that is read, read and written, or written, or a whole block of shared memory.
#[tactic(auto, unfolding(crate::specs::Parameters::parameter_of_two))]
fn param_of_two(alloc: Global, kind: &[u8], size: &[u8]) -> Result<Parameter, LineError>
    ensures value { Gives result (parameter_of_two kind.now size.now) }
    ensures small { IfOk result IsSmall }
{
    match kind {
        b"mi" => Ok(plain(Param::MemIn(hex_bytes(alloc, size)?))),
        b"mio" => Ok(plain(Param::MemInOut(hex_bytes(alloc, size)?))),
        b"mo" => Ok(plain(Param::MemOut(number32(size)?))),
        b"sw" => Ok(plain(Param::Whole(number32(size)?))),
        _ => Err(LineError::Bad),
    }
}

/// A parameter of three parts: a value, or memory of which each byte is the same.
#[tactic(auto, unfolding(crate::specs::Parameters::parameter_of_three))]
fn param_of_three(alloc: Global, kind: &[u8], a: &[u8], b: &[u8]) -> Result<Parameter, LineError>
    ensures value { Gives result (parameter_of_three kind.now a.now b.now) }
    ensures small { IfOk result IsSmall }
{
    match kind {
        b"vi" => Ok(plain(Param::ValueIn(number32(a)?, number32(b)?))),
        b"vio" => Ok(plain(Param::ValueInOut(number32(a)?, number32(b)?))),
        b"mf" => fill(alloc, number32(a)?, hex_bytes(alloc, b)?),
        _ => Err(LineError::Bad),
    }
}

/// Memory of `size` bytes, each of them the one byte that is given.
fn fill(alloc: Global, size: u32, byte: Bytes) -> Result<Parameter, LineError>
    ensures value { Gives result (fill_parameter (Some size) (Some byte)) }
    ensures small { IfOk result IsSmall }
{
    match byte.as_slice() {
        [byte] if size <= limits::MAX_ASK_BYTES => {
            let bytes = vec![in alloc; *byte; size as usize]?;
            Ok(Parameter {
                param: Param::MemIn(Bytes::from_vec(bytes)),
                fill: size,
            })
        }
        _ => Err(LineError::Bad),
    }
}

/// A part of a block: the number of the block, where the part begins, and how many bytes it has.
fn part(way: u8, block: &[u8], at: &[u8], size: &[u8]) -> Result<Parameter, LineError>
    ensures value { Gives result
        (part_with way (number32_of block.now) (number32_of at.now) (number32_of size.now)) }
    ensures small { IfOk result IsSmall }
{
    Ok(plain(Param::Part {
        block: number32(block)?,
        way,
        at: number32(at)?,
        size: number32(size)?,
    }))
}

/// A parameter of four parts: a part of a block, as an input, as an output, or both.
#[tactic(auto, unfolding(crate::specs::Parameters::parameter_of_four))]
fn param_of_four(kind: &[u8], a: &[u8], b: &[u8], c: &[u8]) -> Result<Parameter, LineError>
    ensures value { Gives result (parameter_of_four kind.now a.now b.now c.now) }
    ensures small { IfOk result IsSmall }
{
    match kind {
        b"si" => part(1, a, b, c),
        b"so" => part(2, a, b, c),
        b"sio" => part(3, a, b, c),
        _ => Err(LineError::Bad),
    }
}

/// A parameter by its parts.
fn param_of_parts(alloc: Global, parts: &[&[u8]]) -> Result<Parameter, LineError>
    ensures small { IfOk result IsSmall }
    ensures value { Gives result (parameter_of_parts (map (λ part. part.now) parts.now)) }
{
    match parts {
        [kind] => param_of_one(kind),
        [kind, a] => param_of_two(alloc, kind, a),
        [kind, a, b] => param_of_three(alloc, kind, a, b),
        [kind, a, b, c] => param_of_four(kind, a, b, c),
        _ => Err(LineError::Bad),
    }
}

/// The parameter that a word stands for.
fn param(alloc: Global, word: &[u8]) -> Result<Parameter, LineError>
    ensures small { IfOk result IsSmall }
    ensures value { Gives result (parameter_of word.now) }
{
    let parts = parts_of(alloc, word, b':')?;
    param_of_parts(alloc, parts.as_slice())
}

/// The parameter of this index. One that is left out is none.
fn param_at(alloc: Global, words: &[&[u8]], index: usize) -> Result<Parameter, LineError>
    ensures value { Gives result (parameter_at (map (λ word. word.now) words.now) index) }
    ensures small { IfOk result IsSmall }
{
    match words.get(index) {
        None => Ok(plain(Param::Nothing)),
        Some(word) => param(alloc, word),
    }
}

/// The parameters of a line: at most four words.
#[tactic(auto, unfolding(crate::specs::Parameters::parameters_of))]
pub fn params_of(alloc: Global, words: &[&[u8]]) -> Result<Parameters, LineError>
    ensures value { Gives result (parameters_of (map (λ word. word.now) words.now)) }
    ensures small { IfOk result (λ all. all.fills ≤ 4 * MAX_ASK_BYTES) }
{
    if words.len() > 4 {
        return Err(LineError::Bad);
    }
    let a = param_at(alloc, words, 0)?;
    let b = match param_at(alloc, words, 1) {
        Ok(b) => b,
        Err(error) => {
            drop(a);
            return Err(error);
        }
    };
    let c = match param_at(alloc, words, 2) {
        Ok(c) => c,
        Err(error) => {
            drop(a);
            drop(b);
            return Err(error);
        }
    };
    let d = match param_at(alloc, words, 3) {
        Ok(d) => d,
        Err(error) => {
            drop(a);
            drop(b);
            drop(c);
            return Err(error);
        }
    };
    Ok(Parameters {
        params: Params {
            p0: a.param,
            p1: b.param,
            p2: c.param,
            p3: d.param,
        },
        fills: a.fill + b.fill + c.fill + d.fill,
    })
}
