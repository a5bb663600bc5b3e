//! What the volume of an image holds, as an object of JSON.

use crate::names::name_of;
use crate::regions::{Found, all_leaves, leaves_of};
use inspect::{Facts, slot_of};
use std::alloc::{AllocError, Global};
use store_api::{Listed, Mismatch};

/// Writes what the header and the counter say, and begins the list of regions.
pub fn write_facts(text: &mut String, facts: &Facts) -> Result<(), AllocError> {
    let (behind, slot) = (facts.counter < facts.sequence, slot_of(facts.sequence));
    write!(
        text,
        "{{\"version\":{},\"sequence\":{},\"counter\":{},\"behind\":{behind},\"slot\":{slot},\"regions\":[",
        facts.version, facts.sequence, facts.counter
    )
}

/// A comma, but before the first of a list.
pub fn comma(is_first: bool) -> &'static str {
    if is_first { "" } else { "," }
}

/// Writes an object.
fn write_object(
    alloc: Global,
    text: &mut String,
    comma: &str,
    object: &Listed,
) -> Result<(), AllocError> {
    let id = hex::encode(alloc, object.id.as_slice())?;
    let (kind, length, leaves) = (object.facts.kind, object.facts.length, leaves_of(object));
    write!(
        text,
        "{comma}{{\"id\":\"{id}\",\"kind\":{kind},\"length\":{length},\"leaves\":{leaves}}}"
    )
}

/// Writes the objects of a region.
fn write_objects(alloc: Global, text: &mut String, objects: &[Listed]) -> Result<(), AllocError> {
    write!(text, "\"leaves\":{},\"objects\":[", all_leaves(objects))?;
    for (place, object) in objects.iter().enumerate() {
        write_object(alloc, text, comma(place == 0), object)?;
    }
    text.push_str("]")
}

/// Writes two tags that differ.
pub fn write_tags(alloc: Global, text: &mut String, tags: &Mismatch) -> Result<(), AllocError> {
    let found = hex::encode(alloc, &tags.found)?;
    let kept = hex::encode(alloc, &tags.kept)?;
    write!(text, "\"found\":\"{found}\",\"kept\":\"{kept}\"")
}

/// Writes what is found of a region.
pub fn write_region(
    alloc: Global,
    text: &mut String,
    region: u8,
    found: &Found,
) -> Result<(), AllocError> {
    let (comma, name) = (comma(region == 0), name_of(u64::from(region)));
    write!(text, "{comma}{{\"region\":{region},\"name\":\"{name}\",")?;
    match found {
        Found::Objects(objects) => write_objects(alloc, text, objects.as_slice())?,
        Found::Broken(leaf) => write!(text, "\"broken\":{leaf}")?,
        Found::Damaged(tags) => write_tags(alloc, text, tags)?,
    }
    text.push_str("}")
}
