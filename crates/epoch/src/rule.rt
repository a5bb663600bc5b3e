//! The rule by which a board is opened, over what its slots hold.
ghost use Rattle.std.specs.Prelude.{◌≡◌};
ghost use Rattle.epoch.specs.Formats.{accepts};
ghost use Rattle.epoch.specs.Opening.{answer_at, bad_header as bad_header_of, opening_by, without_slot};

use crate::answer::OpenAnswer;
use crate::format::Format;
use crate::header::Header;
use crate::slots::Slot;
use store_api::Mismatch;

/// The header that counts, and its slot.
#[derive(Clone, Copy, Debug, PartialEq, Eq)]
pub struct Found {
    pub header: Header,
    pub slot: u8,
}

/// What both slots and the counter open to.
pub fn judge(
    format: Format,
    first: Slot,
    second: Slot,
    counter: u64,
) -> Result<Option<Found>, OpenAnswer>
    ensures { result ≡ opening_by (accepts format) first second counter }
{
    match first {
        Slot::Bad(tags) => Err(bad_header(0, tags)),
        Slot::Shut => match second {
            Slot::Bad(tags) => Err(bad_header(1, tags)),
            Slot::Shut => no_slot(counter),
            Slot::Good(header) => judge_header(format, 1, header, counter),
        },
        Slot::Good(header) => match second {
            Slot::Bad(tags) => Err(bad_header(1, tags)),
            Slot::Shut => judge_header(format, 0, header, counter),
            Slot::Good(other) => judge_newer(format, header, other, counter),
        },
    }
}

fn bad_header(slot: u8, tags: Mismatch) -> OpenAnswer
    ensures { Err result ≡ bad_header_of slot tags }
{
    let Mismatch { found, kept } = tags;
    OpenAnswer::BadHeader { slot, found, kept }
}

fn no_slot(counter: u64) -> Result<Option<Found>, OpenAnswer>
    ensures { result ≡ without_slot counter }
{
    if counter == 0 {
        Ok(None)
    } else {
        Err(OpenAnswer::NoVolume(counter))
    }
}

/// Of two headers the one with the greater sequence counts, slot 0 on a tie.
fn judge_newer(
    format: Format,
    first: Header,
    second: Header,
    counter: u64,
) -> Result<Option<Found>, OpenAnswer>
    ensures { result ≡ opening_by (accepts format) (Slot.Good first) (Slot.Good second) counter }
{
    if first.sequence < second.sequence {
        judge_header(format, 1, second, counter)
    } else {
        judge_header(format, 0, first, counter)
    }
}

/// The header that counts, beside the accepted versions and the counter.
fn judge_header(
    format: Format,
    slot: u8,
    header: Header,
    counter: u64,
) -> Result<Option<Found>, OpenAnswer>
    ensures { result ≡ answer_at (accepts format) slot header counter }
{
    let sequence = header.sequence;
    if !format.accepts(header.version) {
        Err(OpenAnswer::UnknownVersion(header.version))
    } else if sequence < counter {
        Err(OpenAnswer::Rollback { sequence, counter })
    } else if sequence - counter > 1 {
        Err(OpenAnswer::Ahead { sequence, counter })
    } else {
        Ok(Some(Found { header, slot }))
    }
}
