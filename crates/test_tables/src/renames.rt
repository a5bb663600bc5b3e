//! A whole rename: begun and ended in one call.

ghost use Rattle.std.specs.Prelude.{◌≡◌, IsTrue, None, OnErr, OnOk, not};
ghost use Rattle.handle_table.specs.Handles.{is_alone, is_open, rename_ended, rename_started};

use handle_table::HandleTable;
use tee_base::NoMemory;

/// Begins to rename the object of a handle, and ends it as one that took or as one that didn't.
///
/// # Errors
///
/// NoMemory changes nothing.
pub fn rename(
    table: &mut HandleTable,
    instance: u8,
    number: u32,
    to: &[u8],
    took: bool,
) -> Result<(), NoMemory>
    requires no_rename { table.old.pending ≡ None }
    requires alone { IsTrue (is_alone table.old instance number) }
    requires free { IsTrue (not (is_open table.old to.now)) }
    ensures ended { OnOk result
        (table.new ≡ rename_ended (rename_started table.old instance number to.now) took) }
    ensures unchanged { OnErr result (table.new ≡ table.old) }
{
    table.start_rename(instance, number, to)?;
    table.end_rename(took);
    Ok(())
}
