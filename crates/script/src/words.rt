//! Cutting a text into the parts between separators and a line into its words, and why a line is not read.

ghost use Rattle.std.specs.Prelude.{◌≡◌, ◌==◌, IfOk, map, nat_lt};
ghost use Rattle.std.specs.List.{filter, list_all, slice_split};
ghost use Rattle.std.specs.Str.Lines.{strip_carriage_return};
ghost use Rattle.script.specs.Lines.{all_ascii, is_some_word, words_of};
ghost use Rattle.script.specs.declared.words.LineError.TheVariants.{NoMemory};

use std::alloc::{AllocError, AllocFailed, Global};

/// Why a line is not read.
#[derive(Clone, Copy)]
pub enum LineError {
    /// It is outside the grammar.
    Bad,
    NoMemory,
}

impl From<AllocError> for LineError {
    ghost from_gives = { λ _ e. e ≡ NoMemory };

    fn from(_error: AllocError) -> LineError {
        LineError::NoMemory
    }
}

impl From<tee_base::NoMemory> for LineError {
    ghost from_gives = { λ _ e. e ≡ NoMemory };

    fn from(_error: tee_base::NoMemory) -> LineError {
        LineError::NoMemory
    }
}

impl<T: Drop> From<AllocFailed<T>> for LineError {
    ghost from_gives = { λ _ e. e ≡ NoMemory };

    fn from(_error: AllocFailed<T>) -> LineError {
        LineError::NoMemory
    }
}

/// The parts of a text between the separators, the empty ones too.
pub fn parts_of(alloc: Global, text: &[u8], separator: u8) -> Result<Vec<&[u8]>, AllocError>
    ensures { IfOk result (λ parts. map (λ part. part.now) parts.items
        ≡ slice_split (λ c. c == separator) text.now) }
{
    text.split(|c| *c == separator).collect(alloc)
}

/// The parts that aren't empty.
fn some_of<'a>(alloc: Global, parts: &[&'a [u8]]) -> Result<Vec<&'a [u8]>, AllocError>
    ensures { IfOk result (λ words. map (λ word. word.now) words.items
        ≡ filter is_some_word (map (λ part. part.now) parts.now)) }
{
    let mut words = Vec::new(alloc);
    for part in parts {
        if !part.is_empty() {
            words.push(*part)?;
        }
    }
    Ok(words)
}

/// The words of a line: the parts between spaces that aren't empty.
pub fn words_of(alloc: Global, line: &[u8]) -> Result<Vec<&[u8]>, AllocError>
    ensures { IfOk result (λ words. map (λ word. word.now) words.items ≡ words_of line.now) }
{
    let parts = parts_of(alloc, line, b' ')?;
    some_of(alloc, parts.as_slice())
}

/// Whether each byte is below 128.
pub fn is_ascii(text: &[u8]) -> bool
    ensures { result ≡ all_ascii text.now }
{
    text.iter().all(|c| *c < 128)
}

/// A line without the carriage return before its line feed, if there is one.
pub fn without_return(piece: &[u8]) -> &[u8]
    ensures { result.now ≡ strip_carriage_return piece.now }
{
    match piece {
        [line @ .., b'\r'] => line,
        _ => piece,
    }
}
