//! Laws of the definitions.

ghost use Rattle.std.specs.Prelude.{ℕ, ◌≡◌, ◌≤◌, true, List, None, Result, length};
ghost use Rattle.tee_base.specs.declared.codes.Code.{Code};
ghost use Rattle.app_api.specs.declared.param.Param.TheVariants.{MemOut, MemInOut};
ghost use Rattle.shared_mem.specs.Blocks.{block_at, given_for, given_in, takes_bytes};
ghost use Rattle.shared_mem.specs.History.{Happening, block_by, blocks_after};
ghost use Rattle.shared_mem.specs.declared.block.Block.{Block};
ghost use Rattle.app_api.specs.Params.{reference_of};
ghost use Rattle.app_api.specs.declared.reference.Reference.{Reference};

/// Whatever happened to the blocks, the last of it first: a client's block of one number is what happened to it alone makes
/// of it, which is zeros and what was written over them since.
pub fn block_laws()
    ensures { (happened : List Happening) (client number : ℕ)
        → block_at (blocks_after happened) client number ≡ block_by client number happened }
{}

/// What an application was given for a reference says what may be put through it: as many bytes as the output has, or as the
/// input had.
pub fn delivery_laws()
    ensures output { (checked : Result Block Code) (reference : Reference) (room : ℕ)
        (bytes : List ℕ) → given_in reference checked ≡ MemOut room
        → length bytes ≤ room → takes_bytes checked reference bytes ≡ true }
    ensures both { (checked : Result Block Code) (reference : Reference) (input bytes : List ℕ)
        → given_in reference checked ≡ MemInOut input
        → length bytes ≤ length input → takes_bytes checked reference bytes ≡ true }
{}

/// An application is given no reference: what stands for one is memory, or nothing.
pub fn references_are_memory()
    ensures { (blocks : List Block) (client : ℕ) (reference : Reference)
        → reference_of (given_for blocks client reference) ≡ None }
{}
