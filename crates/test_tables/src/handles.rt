//! A walk through the calls, with values by hand.

ghost use Rattle.std.specs.Prelude.{◌≡◌, IsTrue, None, OnOk};
ghost use Rattle.handle_table.specs.Handles.{is_alone, no_handles};

use crate::renames::rename;
use handle_table::{Handle, HandleAnswer, HandleTable};
use std::process::Abort;
use std::test::Fail;
use tee_base::Flags;

/// Reads and lets others read.
const READER: Flags = Flags(0x11);

/// Fills an instance's handles, and adds one of another instance.
fn fill(rt: &impl Abort, table: &mut HandleTable) -> Result<(), Fail>
    requires { table.old.pending ≡ None }
{
    for wanted in 1..17u32 {
        assert!(rt; table.add_transient(1)? == wanted);
    }
    assert!(rt; table.is_full(1));
    assert!(rt; table.add_transient(1) == Err(HandleAnswer::Full));
    assert!(rt; table.add_transient(2)? == 1);
    assert!(rt; matches!(table.get(2, 1), Some(Handle::Transient)));
    assert!(rt; table.get(2, 2).is_none());
    Ok(())
}

#[test]
fn numbers_are_the_lowest_of_the_instance(rt: HostRuntime) -> Result<(), Fail> {
    let mut table = HandleTable::new(rt.alloc());
    let filled = fill(&rt, &mut table);
    drop(table);
    filled
}

/// Two instances read an object. The first goes to a place in it, and closes it.
fn share(rt: &impl Abort, table: &mut HandleTable) -> Result<(), Fail>
    requires { table.old ≡ no_handles }
    ensures pending { OnOk result (table.new.pending ≡ None) }
    ensures alone { OnOk result (IsTrue (is_alone table.new 2 1)) }
{
    assert!(rt; table.may_open(b"a", READER));
    assert!(rt; table.add(1, b"a", READER)? == 1);
    assert!(rt; table.may_open(b"a", READER));
    assert!(rt; table.add(2, b"a", READER)? == 1);
    assert!(rt; !table.may_open(b"a", Flags::ACCESS_WRITE_META));
    assert!(rt; table.is_open(b"a") && !table.is_open(b"b"));
    table.seek(1, 1, 7);
    assert!(rt;
        matches!(
            table.get(1, 1),
            Some(Handle::Persistent { position: 7, .. })
        )
    );
    table.close(1, 1);
    assert!(rt; table.get(1, 1).is_none());
    Ok(())
}

/// The second renames it, which doesn't take at first, and closes all its handles.
fn move_to_b(rt: &impl Abort, table: &mut HandleTable) -> Result<(), Fail>
    requires pending { table.old.pending ≡ None }
    requires alone { IsTrue (is_alone table.old 2 1) }
{
    assert!(rt; !table.is_open(b"b"));
    rename(table, 2, 1, b"b", false)?;
    assert!(rt; table.is_open(b"a") && !table.is_open(b"b"));
    assert!(rt; table.may_open(b"b", Flags::ACCESS_WRITE_META));
    rename(table, 2, 1, b"b", true)?;
    assert!(rt; table.is_open(b"b") && !table.is_open(b"a"));
    assert!(rt; table.may_open(b"a", Flags::ACCESS_WRITE_META));
    table.close_all(2);
    assert!(rt; table.may_open(b"b", Flags::ACCESS_WRITE_META));
    Ok(())
}

fn walk(rt: &impl Abort, table: &mut HandleTable) -> Result<(), Fail>
    requires { table.old ≡ no_handles }
{
    share(rt, table)?;
    move_to_b(rt, table)
}

#[test]
fn shares_go_with_the_handles(rt: HostRuntime) -> Result<(), Fail> {
    let mut table = HandleTable::new(rt.alloc());
    let walked = walk(&rt, &mut table);
    drop(table);
    walked
}
