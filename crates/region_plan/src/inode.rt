//! Inode leaves: the first leaf of an object, with all of it but its content.

ghost use Rattle.std.specs.Prelude.{◌≡◌, ◌&&◌, IfOk, IsTrue};
ghost use Rattle.store_api.specs.Limits.{IsIdentifier, IsSecret};
ghost use Rattle.region_plan.specs.Inodes.{IsHead, inode_of, is_inode_leaf as follows_rules};

use crate::bytes::{all_zero, number_at, put};
use std::alloc::Global;
use tee_base::limits::{BLOCK_BYTES, MAX_IDENTIFIER_BYTES, MAX_SECRET_BYTES};
use tee_base::{Bytes, NoMemory};

// Where the parts of an inode leaf begin. The object's kind is first.
pub(crate) const USAGE_AT: usize = 4;

pub(crate) const LENGTH_AT: usize = 8;

pub(crate) const IDENTIFIER_LENGTH_AT: usize = 12;

pub(crate) const SECRET_LENGTH_AT: usize = 13;

pub(crate) const IDENTIFIER_AT: usize = 16;

pub(crate) const SECRET_AT: usize = 80;

pub(crate) const REST_AT: usize = 208;

/// What an inode leaf tells of its object.
#[derive(Debug, Drop)]
pub(crate) struct Inode {
    /// The number of the leaf.
    pub number: u16,
    pub kind: u32,
    pub usage: u32,
    /// Bytes of the content.
    pub length: u32,
    pub id: Bytes,
    pub secret: Bytes,
}

impl Inode {
    ghost use Rattle.std.specs.Prelude.{◌≡◌};

    /// What the leaf says but for the content's length.
    pub fn head(&self) -> Head<'_>
        ensures kind { result.kind ≡ self.now.kind }
        ensures usage { result.usage ≡ self.now.usage }
        ensures id { result.id.now ≡ self.now.id }
        ensures secret { result.secret.now ≡ self.now.secret }
    {
        Head {
            kind: self.kind,
            usage: self.usage,
            id: self.id.as_slice(),
            secret: self.secret.as_slice(),
        }
    }
}

/// What an inode leaf says but for the content's length.
#[derive(Clone, Copy)]
pub(crate) struct Head<'a> {
    pub kind: u32,
    pub usage: u32,
    pub id: &'a [u8],
    pub secret: &'a [u8],
}

/// The bytes of an inode leaf.
pub(crate) fn inode_block(head: Head<'_>, length: u32) -> [u8; BLOCK_BYTES]
    requires id { IsIdentifier head.id.now }
    requires secret { IsSecret head.secret.now }
    ensures { IsHead result head.entry.kind head.entry.usage head.entry.id.now head.entry.secret.now
        length }
{
    let mut block = [0; BLOCK_BYTES];
    put(&mut block, 0, &head.kind.to_le_bytes());
    put(&mut block, USAGE_AT, &head.usage.to_le_bytes());
    put(&mut block, LENGTH_AT, &length.to_le_bytes());
    put(
        &mut block,
        IDENTIFIER_LENGTH_AT,
        &[head.id.len() as u8, head.secret.len() as u8],
    );
    put(&mut block, IDENTIFIER_AT, head.id);
    put(&mut block, SECRET_AT, head.secret);
    block
}

/// Whether the bytes of an inode leaf follow the rules.
pub fn is_inode_leaf(leaf: &[u8; BLOCK_BYTES]) -> bool
    ensures { result ≡ follows_rules leaf.now }
{
    let id = leaf[IDENTIFIER_LENGTH_AT] as usize;
    let secret = leaf[SECRET_LENGTH_AT] as usize;
    if id > MAX_IDENTIFIER_BYTES {
        return false;
    }
    if secret > MAX_SECRET_BYTES {
        return false;
    }
    let reserved = all_zero(&leaf[SECRET_LENGTH_AT + 1..IDENTIFIER_AT]);
    let behind_id = all_zero(&leaf[IDENTIFIER_AT + id..SECRET_AT]);
    let behind_secret = all_zero(&leaf[SECRET_AT + secret..REST_AT]);
    let rest = all_zero(&leaf[REST_AT..]);
    all_true(reserved, behind_id, behind_secret, rest)
}

fn all_true(first: bool, second: bool, third: bool, fourth: bool) -> bool
    ensures { result ≡ (first && (second && (third && fourth))) }
{
    first && second && third && fourth
}

/// What an inode leaf tells.
#[tactic(auto, unfolding(crate::specs::Inodes::is_inode_leaf, crate::specs::Inodes::inode_of, crate::specs::Inodes::length_in, crate::specs::Inodes::identifier_in, crate::specs::Inodes::secret_in))]
pub(crate) fn inode_in(
    alloc: Global,
    number: u16,
    leaf: &[u8; BLOCK_BYTES],
) -> Result<Inode, NoMemory>
    requires { IsTrue (follows_rules leaf.now) }
    ensures inode { IfOk result (λ inode. inode ≡ inode_of number leaf.now) }
    ensures number { IfOk result (λ inode. inode.number ≡ number) }
    ensures id { IfOk result (λ inode. IsIdentifier inode.id) }
    ensures secret { IfOk result (λ inode. IsSecret inode.secret) }
{
    let id = leaf[IDENTIFIER_LENGTH_AT] as usize;
    let secret = leaf[SECRET_LENGTH_AT] as usize;
    Ok(Inode {
        number,
        kind: number_at(leaf, 0),
        usage: number_at(leaf, USAGE_AT),
        length: number_at(leaf, LENGTH_AT),
        id: Bytes::from_slice(alloc, &leaf[IDENTIFIER_AT..IDENTIFIER_AT + id])?,
        secret: Bytes::from_slice(alloc, &leaf[SECRET_AT..SECRET_AT + secret])?,
    })
}
