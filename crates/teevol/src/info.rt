//! What the volume of an image holds, as text.

ghost use Rattle.std.specs.Prelude.{◌<◌};
ghost use Rattle.tee_base.specs.declared.limits.TheConstants.{MAX_HOSTS};

use crate::ended::{Ended, Told};
use crate::json;
use crate::names::name_of;
use crate::regions::{Found, all_leaves, found_in, leaves_of};
use inspect::{Facts, slot_of};
use std::alloc::{AllocError, Global};
use store_api::{Listed, Mismatch, Volume};
use tee_base::limits::MAX_HOSTS;

/// Writes what the header and the counter say.
fn write_facts(text: &mut String, facts: &Facts) -> Result<(), AllocError> {
    let behind = if facts.counter < facts.sequence {
        ", one behind: the next opening raises it"
    } else {
        ""
    };
    write!(
        text,
        "version {}\nsequence {}\ncounter {}{behind}\nslot {}\n",
        facts.version,
        facts.sequence,
        facts.counter,
        slot_of(facts.sequence)
    )
}

/// Writes an object.
fn write_object(alloc: Global, text: &mut String, object: &Listed) -> Result<(), AllocError> {
    let id = hex::encode(alloc, object.id.as_slice())?;
    let (kind, length, leaves) = (object.facts.kind, object.facts.length, leaves_of(object));
    write!(
        text,
        "  {id} kind {kind:08x} length {length} leaves {leaves}\n"
    )
}

/// Writes the objects of a region; of one without objects nothing.
fn write_objects(
    alloc: Global,
    text: &mut String,
    name: &str,
    objects: &[Listed],
) -> Result<(), AllocError> {
    if objects.is_empty() {
        return Ok(());
    }
    let (count, leaves) = (objects.len(), all_leaves(objects));
    write!(text, "region {name}: objects {count} leaves {leaves}\n")?;
    for object in objects {
        write_object(alloc, text, object)?;
    }
    Ok(())
}

/// Writes that tags differ in a region.
fn write_damage(
    alloc: Global,
    text: &mut String,
    name: &str,
    tags: &Mismatch,
) -> Result<(), AllocError> {
    let found = hex::encode(alloc, &tags.found)?;
    let kept = hex::encode(alloc, &tags.kept)?;
    write!(text, "region {name}: damaged, found {found} kept {kept}\n")
}

/// Writes what is found of a region.
fn write_region(
    alloc: Global,
    text: &mut String,
    name: &str,
    found: &Found,
) -> Result<(), AllocError> {
    match found {
        Found::Objects(objects) => write_objects(alloc, text, name, objects.as_slice()),
        Found::Broken(leaf) => write!(text, "region {name}: leaf {leaf} breaks a rule\n"),
        Found::Damaged(tags) => write_damage(alloc, text, name, tags),
    }
}

/// What is told so far.
#[derive(Drop)]
struct Telling {
    text: String,
    /// The names of the regions without objects, each after a space.
    empty: String,
    is_sound: bool,
}

impl Telling {
    /// Tells what is found of a region.
    fn add(
        &mut self,
        alloc: Global,
        region: u8,
        found: &Found,
        json: bool,
    ) -> Result<(), AllocError> {
        if !found.is_sound() {
            self.is_sound = false;
        }
        if json {
            return json::write_region(alloc, &mut self.text, region, found);
        }
        let name = name_of(u64::from(region));
        if found.is_empty() {
            write!(&mut self.empty, " {name}")?;
        }
        write_region(alloc, &mut self.text, name, found)
    }

    /// Looks at a region, and tells what is found of it.
    fn look<V: Volume>(
        &mut self,
        alloc: Global,
        volume: &mut V,
        region: u8,
        json: bool,
    ) -> Result<(), Ended>
        requires { region < MAX_HOSTS }
    {
        let found = found_in(alloc, volume, region)?;
        let added = self.add(alloc, region, &found, json);
        drop(found);
        Ok(added?)
    }

    /// Looks at all regions, between the words of a beginning and an end.
    fn look_at_all<V: Volume>(
        &mut self,
        alloc: Global,
        volume: &mut V,
        facts: &Facts,
        json: bool,
    ) -> Result<(), Ended> {
        if json {
            json::write_facts(&mut self.text, facts)?;
        } else {
            write_facts(&mut self.text, facts)?;
        }
        for region in 0..MAX_HOSTS as u8 {
            self.look(alloc, volume, region, json)?;
        }
        self.end(json)?;
        Ok(())
    }

    /// Ends what is told.
    fn end(&mut self, json: bool) -> Result<(), AllocError> {
        if json {
            self.text.push_str("]}\n")
        } else if self.empty.is_empty() {
            Ok(())
        } else {
            write!(&mut self.text, "without objects:{}\n", self.empty.as_str())
        }
    }
}

/// Tells what an opened volume holds.
pub fn info<V: Volume>(
    alloc: Global,
    volume: &mut V,
    facts: &Facts,
    json: bool,
) -> Result<Told, Ended> {
    let mut telling = Telling {
        text: String::new(alloc),
        empty: String::new(alloc),
        is_sound: true,
    };
    telling.look_at_all(alloc, volume, facts, json)?;
    let Telling { text, is_sound, .. } = telling;
    Ok(Told {
        bytes: text.into_bytes(),
        is_sound,
    })
}
