//! The content of an object.

ghost use Rattle.std.specs.Prelude.{◌<◌};
ghost use Rattle.store_api.specs.Limits.{IsIdentifier};
ghost use Rattle.tee_base.specs.declared.limits.TheConstants.{MAX_HOSTS};

use crate::ended::{Ended, Told};
use crate::names::{name_of, region_of};
use hex::FromHexError;
use object_dir::ObjectDir;
use std::alloc::{AllocError, Global};
use store_api::{AppStore, Facts, Volume};
use tee_base::limits::{MAX_ASK_BYTES, MAX_HOSTS, MAX_IDENTIFIER_BYTES};

/// Where the parts of a content begin, each of which one read gives: no content is longer than both.
const PARTS: [u32; 2] = [0, MAX_ASK_BYTES];

/// Adds a part of an object's content.
fn add_part<S: AppStore>(
    objects: &mut S,
    id: &[u8],
    from: u32,
    content: &mut Vec<u8>,
) -> Result<(), Ended>
    requires { IsIdentifier id.now }
{
    match objects.read(id, from, MAX_ASK_BYTES) {
        Ok(part) => Ok(content.extend_from_slice(part.as_slice())?),
        Err(why) => Err(Ended::unread(why)),
    }
}

/// Adds an object's content, and gives what is told of the object.
fn add_content<S: AppStore>(
    objects: &mut S,
    id: &[u8],
    content: &mut Vec<u8>,
) -> Result<Facts, Ended>
    requires { IsIdentifier id.now }
{
    match objects.find(id) {
        Ok(facts) => {
            for from in PARTS {
                add_part(objects, id, from, content)?;
            }
            Ok(facts)
        }
        Err(why) => Err(Ended::unread(why)),
    }
}

/// Writes an object with its content as an object of JSON.
fn write_json(
    alloc: Global,
    text: &mut String,
    (region, id): (u8, &[u8]),
    facts: &Facts,
    content: &[u8],
) -> Result<(), AllocError> {
    let name = name_of(u64::from(region));
    write!(text, "{{\"region\":{region},\"name\":\"{name}\",")?;
    let id = hex::encode(alloc, id)?;
    let (kind, length) = (facts.kind, facts.length);
    write!(
        text,
        "\"id\":\"{id}\",\"kind\":{kind},\"length\":{length},\"content\":\""
    )?;
    let content = hex::encode(alloc, content)?;
    text.push_str(content.as_str())?;
    text.push_str("\"}\n")
}

/// The content of an object of a region, or an object of JSON with it.
fn content_of<V: Volume>(
    alloc: Global,
    volume: &mut V,
    region: u8,
    id: &[u8],
    json: bool,
) -> Result<Vec<u8>, Ended>
    requires region { region < MAX_HOSTS }
    requires id { IsIdentifier id.now }
{
    let mut content = Vec::new(alloc);
    let mut objects = ObjectDir::of(alloc, volume, region);
    let answer = add_content(&mut objects, id, &mut content);
    drop(objects);
    let facts = answer?;
    if !json {
        return Ok(content);
    }
    let mut text = String::new(alloc);
    write_json(alloc, &mut text, (region, id), &facts, content.as_slice())?;
    Ok(text.into_bytes())
}

/// The bytes of an identifier in hexadecimal digits.
fn id_of(alloc: Global, digits: &str) -> Result<Vec<u8>, Ended> {
    match hex::decode(alloc, digits) {
        Ok(id) => Ok(id),
        Err(FromHexError::OutOfMemory) => Err(Ended::NoMemory),
        Err(_) => Err(Ended::BadId),
    }
}

/// Tells the content of an object, by the words for its region and its identifier.
pub fn cat<V: Volume>(
    alloc: Global,
    volume: &mut V,
    (region, id): (&str, &str),
    json: bool,
) -> Result<Told, Ended> {
    let Some(region) = region_of(region) else {
        return Err(Ended::BadRegion);
    };
    if region as usize >= MAX_HOSTS {
        return Err(Ended::BadRegion);
    }
    let id = id_of(alloc, id)?;
    if id.len() > MAX_IDENTIFIER_BYTES {
        return Err(Ended::BadId);
    }
    let bytes = content_of(alloc, volume, region, id.as_slice(), json)?;
    Ok(Told {
        bytes,
        is_sound: true,
    })
}
