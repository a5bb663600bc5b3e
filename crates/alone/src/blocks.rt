//! References of calls: why they are refused, what they become when an entry begins, and where what it gives is delivered.

ghost use Rattle.std.specs.Prelude.{◌≡◌, OnOk};
ghost use Rattle.app_api.specs.Params.{reference_of, references_of};
ghost use Rattle.shared_mem.specs.Blocks.{given_param};
ghost use Rattle.alone.specs.Blocks.{all_delivered, block_outputs, delivered, given_params, is_missing, references_refusal, refusal_of};

use crate::delivery::size;
use crate::reply::{Outputs, Shown};
use app_api::{Param, Params, Reference, References};
use shared_mem::{BlockAnswer, Blocks};
use tee_base::{Bytes, Code, NoMemory};

/// What a parameter is refused with, if it is a reference.
fn refusal_of(blocks: &Blocks, client: u8, param: &Param) -> Option<Code>
    ensures { result ≡ refusal_of blocks.now client (reference_of param.now) }
{
    match blocks.check(client, param) {
        Err(BlockAnswer::Refused(code)) => Some(code),
        // A check takes no memory.
        Ok(()) | Err(BlockAnswer::NoMemory) => None,
    }
}

/// Whether it is that the client has no such block.
fn is_missing(refusal: Option<Code>) -> bool
    ensures { result ≡ is_missing refusal }
{
    match refusal {
        Some(code) => code.0 == Code::ITEM_NOT_FOUND.0,
        None => false,
    }
}

/// What the references of a call are refused with: that one names no block of the client, and then that one doesn't fit its
/// block. It takes no memory.
pub fn references_refusal(blocks: &Blocks, client: u8, params: &Params) -> Option<Code>
    ensures { result ≡ references_refusal blocks.now client (references_of params.now) }
{
    let a = refusal_of(blocks, client, &params.p0);
    let b = refusal_of(blocks, client, &params.p1);
    let c = refusal_of(blocks, client, &params.p2);
    let d = refusal_of(blocks, client, &params.p3);
    if is_missing(a) || is_missing(b) || is_missing(c) || is_missing(d) {
        return Some(Code::ITEM_NOT_FOUND);
    }
    if a.is_some() || b.is_some() || c.is_some() || d.is_some() {
        return Some(Code::BAD_PARAMETERS);
    }
    None
}

/// Makes of a reference the memory that an entry is given, with the bytes of its block as they are now.
fn give_param(blocks: &Blocks, client: u8, param: &mut Param) -> Result<(), NoMemory>
    ensures { OnOk result (param.new ≡ given_param blocks.now client param.old) }
{
    if param.reference().is_some() {
        *param = blocks.resolve(client, param)?;
    }
    Ok(())
}

/// Makes of four parameters those that an entry is given: for references memory with the bytes of their blocks, as they are
/// now. Where memory runs out, some may have been made.
pub fn give_params(blocks: &Blocks, client: u8, params: &mut Params) -> Result<(), NoMemory>
    ensures { OnOk result (params.new ≡ given_params blocks.now client params.old) }
{
    give_param(blocks, client, &mut params.p0)?;
    give_param(blocks, client, &mut params.p1)?;
    give_param(blocks, client, &mut params.p2)?;
    give_param(blocks, client, &mut params.p3)
}

/// What a client is shown of a block.
pub fn block_outputs(bytes: Bytes) -> Outputs
    ensures { result ≡ block_outputs bytes }
{
    let size = size(&bytes);
    let mut outputs = Outputs::nothing();
    outputs.p0 = Shown::Mem { size, bytes };
    outputs
}

/// Writes what is shown at a position into the block that its reference names, if it is one.
fn deliver_one(blocks: &mut Blocks, client: u8, reference: Option<Reference>, shown: &Shown)
    ensures { blocks.new ≡ delivered client reference shown.now blocks.old }
{
    if let (Some(reference), Shown::Mem { bytes, .. }) = (reference, shown) {
        blocks.put_reference(client, &reference, bytes.as_slice());
    }
}

/// Writes what is shown of an entry's outputs into the blocks that the call of its operation refers to, in the order of the
/// parameters. It takes no memory.
pub fn deliver_to_blocks(blocks: &mut Blocks, client: u8, references: References, outputs: &Outputs)
    ensures { blocks.new ≡ all_delivered client references outputs.now blocks.old }
{
    deliver_one(blocks, client, references.p0, &outputs.p0);
    deliver_one(blocks, client, references.p1, &outputs.p1);
    deliver_one(blocks, client, references.p2, &outputs.p2);
    deliver_one(blocks, client, references.p3, &outputs.p3);
}
