//! Where the parameters of an entry lie: the block of four `TEE_Param`, and the buffers after it.

ghost use Rattle.std.specs.Prelude.{◌≡◌, ◌<◌, ◌≤◌, ◌^◌, IfSome};
ghost use Rattle.tee_base.specs.declared.limits.TheConstants.{MAX_ASK_BYTES};
ghost use Rattle.app_api.specs.Params.{size_of, is_oversized};
ghost use Rattle.c_app.specs.Entering as rows;

use app_api::{Param, Params};
use rv32::{BASE, Memory};
use tee_base::limits;

/// The bytes of one `TEE_Param`.
pub const PARAM: u32 = 8;

/// The bytes of the four.
pub const BLOCK: u64 = 32;

/// Each buffer lies at a multiple of it, as the largest types of the calling convention do.
pub const ALIGNMENT: u64 = 16;

/// The greatest address.
const LAST: u64 = 0xffff_ffff;

/// The addresses of the four buffers, and the end of the last.
#[derive(Clone, Copy, Debug)]
pub struct Places {
    pub p0: u64,
    pub p1: u64,
    pub p2: u64,
    pub p3: u64,
    pub end: u64,
}

/// The next address that is a multiple of 16.
fn rounded(address: u64) -> u64
    // No sum comes out of 64 bits.
    requires { address < 2 ^ 40 }
    // The address is rounded up.
    ensures { result ≡ rows.rounded address }
{
    (address + (ALIGNMENT - 1)) / ALIGNMENT * ALIGNMENT
}

/// Whether a memory reference is larger than one may be.
fn is_large(param: &Param) -> bool
    // It has more bytes than an ask may bring.
    ensures { result ≡ is_oversized param.now }
{
    param.size() > limits::MAX_ASK_BYTES as usize
}

fn has_large(params: &Params) -> bool
    // One of the four is too large.
    ensures { result ≡ rows.has_oversized params.now }
{
    is_large(&params.p0) || is_large(&params.p1) || is_large(&params.p2) || is_large(&params.p3)
}

fn places_of(block: u32, params: &Params) -> Places
    // No parameter is too large.
    requires p0 { size_of params.now.p0 ≤ MAX_ASK_BYTES }
    requires p1 { size_of params.now.p1 ≤ MAX_ASK_BYTES }
    requires p2 { size_of params.now.p2 ≤ MAX_ASK_BYTES }
    requires p3 { size_of params.now.p3 ≤ MAX_ASK_BYTES }
    // One buffer after the other, each at a multiple of 16.
    ensures { result ≡ rows.places_of block params.now }
{
    let p0 = u64::from(block) + BLOCK;
    let p1 = rounded(p0 + params.p0.size() as u64);
    let p2 = rounded(p1 + params.p1.size() as u64);
    let p3 = rounded(p2 + params.p2.size() as u64);
    Places {
        p0,
        p1,
        p2,
        p3,
        end: p3 + params.p3.size() as u64,
    }
}

/// The places of the parameters, where they have their place in memory.
pub fn found_places(memory: &Memory, block: u32, params: &Params) -> Option<Places>
    // They lie after the block, and are None where one is too large or the memory ends before.
    ensures value { result ≡ rows.found_places memory.now block params.now }
    // Sizes and addresses fit their types.
    ensures small { IfSome result (rows.AreSmall params.now) }
{
    if has_large(params) {
        return None;
    }
    let places = places_of(block, params);
    if places.end > LAST || places.end.saturating_sub(u64::from(BASE)) > memory.len() as u64 {
        return None;
    }
    Some(places)
}

/// The address of a `TEE_Param` of the block.
pub fn at_block(block: u32, index: u32) -> u32
    // It is one of four.
    requires { index < 4 }
    // Eight bytes for each before it.
    ensures { result ≡ rows.at_block block index }
{
    block.wrapping_add(PARAM * index)
}
