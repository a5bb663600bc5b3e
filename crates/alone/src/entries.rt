//! Entries that begin, and how they end.

ghost use Rattle.std.specs.Prelude.{◌≡◌, IfOk};
ghost use Rattle.alone.specs.Places.{is_misuse, places_at};
ghost use Rattle.alone.specs.Step.{destroy_begins, entry_begun, first_entry, invoke_begun, start_begun, stop_begun};
ghost use Rattle.alone.specs.Asks.{return_of};

use crate::active_entry::{ActiveEntry, EntryPoint, Waits};
use crate::blocks::give_params;
use crate::delivery::{is_misuse, places_of};
use crate::places::Places;
use crate::reply::Reply;
use app_api::{Call, Entry, Given, Outs, Params};
use object_asks::{Ending, Outcome, Served, panicked};
use op_queue::Begun;
use shared_mem::Blocks;
use std::alloc::Global;
use tee_base::{Code, NoMemory};

/// An entry that begins: it has made no ask, and cancellation is masked.
fn entry_begun(op: Option<u64>, stage: EntryPoint, entry: Entry) -> ActiveEntry
    ensures { result ≡ entry_begun op stage entry }
{
    ActiveEntry {
        op,
        stage,
        waits: Waits::Given(Given::Entry(entry)),
        asks: 0,
        masked: true,
    }
}

/// A start entry that begins, with these parameters.
pub fn start_entry(
    alloc: Global,
    op: Option<u64>,
    session: u8,
    params: Params,
) -> Result<ActiveEntry, NoMemory>
    ensures { IfOk result (λ running. running ≡ start_begun op session params) }
{
    let places = places_of(alloc, &params)?;
    Ok(entry_begun(
        op,
        EntryPoint::Start { session, places },
        Entry::Start { session, params },
    ))
}

/// An invoke entry that begins, with these parameters.
fn invoke_entry(
    alloc: Global,
    op: Option<u64>,
    session: u8,
    command: u32,
    params: Params,
) -> Result<ActiveEntry, NoMemory>
    ensures { IfOk result (λ running. running ≡ invoke_begun op session command params) }
{
    let places = places_of(alloc, &params)?;
    Ok(entry_begun(
        op,
        EntryPoint::Invoke { session, places },
        Entry::Invoke {
            session,
            command,
            params,
        },
    ))
}

/// A stop entry that begins.
fn stop_entry(op: Option<u64>, session: u8) -> ActiveEntry
    ensures { result ≡ stop_begun op session }
{
    entry_begun(op, EntryPoint::Stop { session }, Entry::Stop { session })
}

/// A destroy entry that begins, with the reply that is given when it has returned.
pub fn destroy_entry(op: Option<u64>, reply: Option<Reply>) -> ActiveEntry
    ensures { result ≡ destroy_begins op reply }
{
    entry_begun(op, EntryPoint::Destroy { reply }, Entry::Destroy)
}

/// The first entry of an operation. References become bytes where it is a start or an invoke entry.
pub fn first_entry(
    alloc: Global,
    blocks: &Blocks,
    created: bool,
    begun: Begun,
) -> Result<ActiveEntry, NoMemory>
    ensures { IfOk result (λ running. running
        ≡ first_entry blocks.now created begun.op begun.client begun.session begun.call) }
{
    let op = Some(begun.op);
    let client = begun.client;
    let session = begun.session;
    match begun.call {
        Call::Open { mut params, .. } => {
            if !created {
                let stage = EntryPoint::Create {
                    session,
                    client,
                    params,
                };
                return Ok(entry_begun(op, stage, Entry::Create));
            }
            give_params(blocks, client, &mut params)?;
            start_entry(alloc, op, session, params)
        }
        Call::Invoke {
            command,
            mut params,
            ..
        } => {
            give_params(blocks, client, &mut params)?;
            invoke_entry(alloc, op, session, command, params)
        }
        Call::Close { .. } => Ok(stop_entry(op, session)),
        // No operation is of one of the four calls about shared memory.
        Call::Share { .. } | Call::Fill { .. } | Call::Show { .. } | Call::Unshare { .. } => {
            invoke_entry(alloc, op, session, 0, Params::nothing())
        }
    }
}

/// Whether the outputs are misuse at the entry that returns them.
fn is_misused(stage: &EntryPoint, outs: &Outs) -> bool
    ensures { result ≡ is_misuse (places_at stage.now) outs.now }
{
    match stage {
        EntryPoint::Start { places, .. } | EntryPoint::Invoke { places, .. } => is_misuse(
            places, outs,
        ),
        EntryPoint::Create { .. } | EntryPoint::Stop { .. } | EntryPoint::Destroy { .. } => {
            is_misuse(&Places::none(), outs)
        }
    }
}

/// What comes of the return of an entry.
pub fn returned(stage: &EntryPoint, code: Code, outs: Outs) -> Served
    ensures { result ≡ return_of stage.now code outs }
{
    if is_misused(stage, &outs) {
        return panicked();
    }
    Served::plain(Outcome::Returned(Ending { code, outs }))
}
