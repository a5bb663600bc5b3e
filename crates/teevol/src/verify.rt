//! What a verification of all tags finds, in text and in JSON.

use crate::ended::{Ended, Told};
use crate::json;
use crate::names::name_of;
use board::Board;
use inspect::{Spot, spot_of};
use std::alloc::{AllocError, Global};
use store_api::Mismatch;
use tree_volume::{TreeVolume, VerifyAnswer};

/// Writes a damaged place with both tags as text.
fn write_damage(
    alloc: Global,
    text: &mut String,
    place: u64,
    tags: &Mismatch,
) -> Result<(), AllocError> {
    match spot_of(place) {
        Spot::Node => write!(text, "damaged at place {place}, a node\n")?,
        Spot::Leaf { region, leaf } => {
            let name = name_of(region);
            write!(
                text,
                "damaged at place {place}, leaf {leaf} of region {name}\n"
            )?
        }
    }
    let found = hex::encode(alloc, &tags.found)?;
    let kept = hex::encode(alloc, &tags.kept)?;
    write!(text, "found {found}\nkept {kept}\n")
}

/// Writes a damaged place with both tags as an object of JSON.
fn write_json_damage(
    alloc: Global,
    text: &mut String,
    place: u64,
    tags: &Mismatch,
) -> Result<(), AllocError> {
    write!(text, "{{\"sound\":false,\"place\":{place},")?;
    if let Spot::Leaf { region, leaf } = spot_of(place) {
        let name = name_of(region);
        write!(
            text,
            "\"region\":{region},\"name\":\"{name}\",\"leaf\":{leaf},"
        )?;
    }
    json::write_tags(alloc, text, tags)?;
    text.push_str("}\n")
}

/// Writes how many places were verified.
fn write_sound(text: &mut String, places: u32, json: bool) -> Result<(), AllocError> {
    if json {
        write!(text, "{{\"sound\":true,\"places\":{places}}}\n")
    } else {
        write!(text, "sound, places {places}\n")
    }
}

/// Writes what a verification found, and says whether all is sound.
fn write_answer(
    alloc: Global,
    text: &mut String,
    answer: Result<u32, VerifyAnswer>,
    json: bool,
) -> Result<bool, Ended> {
    match answer {
        Ok(places) => write_sound(text, places, json)?,
        Err(VerifyAnswer::Wrong { place, mismatch }) if json => {
            write_json_damage(alloc, text, place, &mismatch)?
        }
        Err(VerifyAnswer::Wrong { place, mismatch }) => {
            write_damage(alloc, text, place, &mismatch)?
        }
        Err(_) => return Err(Ended::BoardFault),
    }
    Ok(answer.is_ok())
}

/// Computes all tags of a volume anew, and tells what is found.
pub fn verify<B: Board + Drop>(
    alloc: Global,
    volume: &mut TreeVolume<B>,
    json: bool,
) -> Result<Told, Ended> {
    let answer = volume.verify();
    let mut text = String::new(alloc);
    let is_sound = write_answer(alloc, &mut text, answer, json)?;
    Ok(Told {
        bytes: text.into_bytes(),
        is_sound,
    })
}
