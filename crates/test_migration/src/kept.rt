//! Which blocks of a board a migration leaves as they are.

ghost use Rattle.std.specs.Prelude.{◌≡◌, ◌<◌, ◌≤◌, false, true};
ghost use Rattle.test_migration.specs.declared.kept.TheConstants.{END, FIRST};

/// The first block behind the two slots.
pub const FIRST: u64 = 4;

/// The first block of the second version.
pub const END: u64 = 8_742;

/// Whether a block is one of the first version's, which nothing ever writes.
pub fn is_kept(block: u64) -> bool
    ensures kept { FIRST ≤ block → block < END → result ≡ true }
    ensures slots { block < FIRST → result ≡ false }
    ensures later { END ≤ block → result ≡ false }
{
    FIRST <= block && block < END
}
