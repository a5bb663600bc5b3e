//! The first word of a line that can't stand where it does.

ghost use Rattle.std.specs.Prelude.{◌≤◌, ◌<◌, ℕ, IsTrue};
ghost use Rattle.script.specs.Words.{IsNumber};

use crate::forms::{
    APP_VERBS, BOARD_VERBS, CLIENT, Form, GROUP, KINDS, MAX_32, POSTED_VERBS, Parts, Rest, USER,
    Verbs,
};
use crate::wanted::{APPLICATION, BYTES, END, LOGIN_OR_PARAMETER, Number, PARAMETER, Wanted};
use app_api::Host;
use script::read_number;
use std::alloc::{AllocError, Global};
use std::str;
use tee_base::limits;
use uuid::Uuid;

/// A word that can't stand at this place, counted from 0, or that is missing there, and what may.
#[derive(Clone, Copy)]
pub struct Misfit {
    pub place: usize,
    pub wanted: Wanted,
}

/// What was found of a line: a word that can't stand at its place, or none, or no memory to look further.
type Found = Result<Option<Misfit>, AllocError>;

/// This may stand at this place, and doesn't.
fn wants(place: usize, wanted: Wanted) -> Option<Misfit> {
    Some(Misfit { place, wanted })
}

/// Whether the word is a number from `low` to `high`.
fn is_within(word: &[u8], low: u64, high: u64) -> bool
    ensures within { IsTrue result → (n : ℕ) × IsNumber word.now n × (low ≤ n) × (n ≤ high) }
    ensures all { (n : ℕ) → IsNumber word.now n → low ≤ n → n ≤ high → IsTrue result }
{
    match read_number(word) {
        Some(value) => low <= value && value <= high,
        None => false,
    }
}

/// Whether the word is this number.
fn is_number(word: &[u8], number: &Number) -> bool {
    is_within(word, number.low, number.high)
}

/// Whether each byte is written in two hexadecimal digits.
fn is_hex(digits: &[u8]) -> bool {
    for digit in digits {
        if !digit.is_ascii_hexdigit() {
            return false;
        }
    }
    digits.len() % 2 == 0
}

/// The identifier that the word is a text of.
fn id_of(word: &[u8]) -> Option<Uuid> {
    match str::from_utf8(word) {
        Ok(text) => Uuid::parse_str(text).ok(),
        Err(_) => None,
    }
}

/// The word of this place, or no bytes where there is none.
fn word_at<'a>(words: &[&'a [u8]], place: usize) -> &'a [u8] {
    match words.get(place) {
        Some(word) => word,
        None => b"",
    }
}

/// Looks for the end of the line at this place.
fn end_misfit(words: &[&[u8]], place: usize) -> Option<Misfit> {
    match words.get(place) {
        Some(_) => wants(place, Wanted::Words(END)),
        None => None,
    }
}

/// Whether these are a size within the limit and a byte.
fn is_fill(size: &[u8], byte: &[u8]) -> bool {
    is_within(size, 0, u64::from(limits::MAX_ASK_BYTES)) && byte.len() == 2 && is_hex(byte)
}

/// Whether each part is a number of 32 bits.
fn are_numbers(parts: &[&[u8]]) -> bool {
    for part in parts {
        if !is_within(part, 0, MAX_32) {
            return false;
        }
    }
    true
}

/// Whether these parts are what stands after a parameter's kind.
fn parts_fit(parts: &[&[u8]], wanted: Parts) -> bool {
    match (wanted, parts) {
        (Parts::Nothing, []) => true,
        (Parts::Numbers(count), _) => parts.len() == count && are_numbers(parts),
        (Parts::Memory, [bytes]) => is_hex(bytes),
        (Parts::Fill, [size, byte]) => is_fill(size, byte),
        _ => false,
    }
}

/// What is wanted of a parameter of this kind with these parts after it, if it is none. Of an unknown kind that is `unknown`.
fn wanted_after(kind: &[u8], parts: &[&[u8]], unknown: &'static str) -> Option<&'static str> {
    for known in KINDS {
        if known.word == kind {
            return if parts_fit(parts, known.parts) {
                None
            } else {
                Some(known.wanted)
            };
        }
    }
    Some(unknown)
}

/// What is wanted in place of this word, if it is no parameter.
fn parameter_wanted(
    alloc: Global,
    word: &[u8],
    unknown: &'static str,
) -> Result<Option<&'static str>, AllocError> {
    let parts: Vec<&[u8]> = word.split(|c| *c == b':').collect(alloc)?;
    match parts.split_first() {
        Some((kind, others)) => Ok(wanted_after(kind, others, unknown)),
        None => Ok(Some(unknown)),
    }
}

/// Looks for parameters from this place on, and the end of the line after them. At the first place `first` may stand.
fn parameters_misfit(alloc: Global, words: &[&[u8]], place: usize, first: &'static str) -> Found {
    let mut unknown = first;
    let mut place = place;
    for _ in 0..limits::PARAMETERS {
        let Some(word) = words.get(place) else {
            return Ok(None);
        };
        if let Some(wanted) = parameter_wanted(alloc, word, unknown)? {
            return Ok(wants(place, Wanted::Words(wanted)));
        }
        unknown = PARAMETER;
        place = place.saturating_add(1);
    }
    Ok(end_misfit(words, place))
}

/// What may stand after the front of a login, and whether it does.
#[derive(Clone, Copy)]
struct LoginPart {
    fits: bool,
    wanted: Wanted,
}

/// What stands after the front of a login, where the word begins as one.
fn login_part(word: &[u8]) -> Option<LoginPart> {
    if let Some(digits) = word.strip_prefix(b"user:") {
        return Some(LoginPart {
            fits: is_number(digits, USER),
            wanted: Wanted::Number(USER),
        });
    }
    if let Some(digits) = word.strip_prefix(b"group:") {
        return Some(LoginPart {
            fits: is_number(digits, GROUP),
            wanted: Wanted::Number(GROUP),
        });
    }
    match word.strip_prefix(b"app:") {
        Some(text) => Some(LoginPart {
            fits: id_of(text).is_some(),
            wanted: Wanted::Words(APPLICATION),
        }),
        None => None,
    }
}

/// Looks for a login, if there is one, and for parameters from this place on.
fn opener_misfit(alloc: Global, words: &[&[u8]], place: usize) -> Found {
    match login_part(word_at(words, place)) {
        Some(LoginPart { fits: true, .. }) => {
            parameters_misfit(alloc, words, place.saturating_add(1), PARAMETER)
        }
        Some(LoginPart { wanted, .. }) => Ok(wants(place, wanted)),
        None => parameters_misfit(alloc, words, place, LOGIN_OR_PARAMETER),
    }
}

/// Looks for the bytes at this place, and the end of the line after them.
fn bytes_misfit(words: &[&[u8]], place: usize) -> Option<Misfit> {
    match words.get(place) {
        Some(digits) if is_hex(digits) => end_misfit(words, place.saturating_add(1)),
        _ => wants(place, Wanted::Words(BYTES)),
    }
}

/// Looks for these numbers from this place on.
fn numbers_misfit(words: &[&[u8]], place: usize, numbers: &'static [Number]) -> Option<Misfit> {
    for (index, number) in numbers.iter().enumerate() {
        let place = place.saturating_add(index);
        if !is_number(word_at(words, place), number) {
            return wants(place, Wanted::Number(number));
        }
    }
    None
}

/// Looks for what a form has after its verb, from this place on.
fn form_misfit(alloc: Global, words: &[&[u8]], place: usize, form: &'static Form) -> Found {
    if let Some(found) = numbers_misfit(words, place, form.numbers) {
        return Ok(Some(found));
    }
    let place = place.saturating_add(form.numbers.len());
    match form.rest {
        Rest::Nothing => Ok(end_misfit(words, place)),
        Rest::Parameters => parameters_misfit(alloc, words, place, PARAMETER),
        Rest::LoginAndParameters => opener_misfit(alloc, words, place),
        Rest::Bytes => Ok(bytes_misfit(words, place)),
    }
}

/// Looks for one of these verbs at this place, and for what its form has after it.
fn verb_misfit(alloc: Global, words: &[&[u8]], place: usize, verbs: &'static Verbs) -> Found {
    let verb = word_at(words, place);
    for form in verbs.forms {
        if form.verb == verb {
            return form_misfit(alloc, words, place.saturating_add(1), form);
        }
    }
    Ok(wants(place, Wanted::Words(verbs.names)))
}

/// Whether the word is the name of one of the hosts, or a text of its identifier.
fn is_host<A>(hosts: &[Host<A>], word: &[u8]) -> bool {
    let id = id_of(word);
    for host in hosts {
        if host.name.as_slice() == word || id == Some(host.id) {
            return true;
        }
    }
    false
}

/// The first word of a line that can't stand at its place, or the place of one that is missing.
pub fn misfit_of<A>(alloc: Global, hosts: &[Host<A>], words: &[&[u8]]) -> Found {
    let first = word_at(words, 0);
    if first == CLIENT.verb {
        return form_misfit(alloc, words, 1, CLIENT);
    }
    if first == b"board".as_slice() {
        return verb_misfit(alloc, words, 1, BOARD_VERBS);
    }
    if !is_host(hosts, first) {
        return Ok(wants(0, Wanted::Subject));
    }
    if word_at(words, 1) == b"post".as_slice() {
        return verb_misfit(alloc, words, 2, POSTED_VERBS);
    }
    verb_misfit(alloc, words, 1, APP_VERBS)
}
