//! Each rule of the format broken once, and the leaf that is told.

use super::memory::{Byte, Memory, OBJECTS, OBJECTS_TWO, set, with};
use region_plan::{Form, content, locate};
use std::alloc::Global;
use std::process::Abort;
use store_api::StoreAnswer;
use tee_base::NoMemory;

/// Bytes that break a rule, and the leaf that breaks it.
type Row = (&'static [Byte], u16);

// Entry 0 is zero. A kind is below 3. A free entry has zeros behind it. An inode names itself, and has index 0; data that names it
// isn't told. Data names an inode.
const MAP: &[Row] = &[
    (&[(0, 0, 2)], 0),
    (&[(0, 1, 1)], 0),
    (&[(0, 28, 3)], 7),
    (&[(0, 29, 1)], 7),
    (&[(0, 30, 1)], 7),
    (&[(0, 21, 4)], 5),
    (&[(0, 22, 1)], 5),
    (&[(0, 37, 8)], 9),
];

// An identifier and a secret that are too long, and bytes that aren't zero: before the identifier, behind it, behind the secret, and
// at the end.
const INODE_LEAVES: &[Row] = &[
    (&[(5, 12, 65)], 5),
    (&[(5, 13, 129)], 5),
    (&[(5, 15, 1)], 5),
    (&[(5, 79, 1)], 5),
    (&[(5, 207, 1)], 5),
    (&[(2, 1023, 1)], 2),
];

// Equal identifiers; an index that is missing, one that is there twice, and one past the end.
const TIES: &[Row] = &[
    (&[(2, 16, 0x61)], 5),
    (&[(5, 9, 8)], 5),
    (&[(0, 44, 2), (0, 45, 5)], 5),
    (&[(5, 8, 0)], 5),
];

/// What is asked for.
#[derive(Clone, Copy)]
enum Ask {
    Object,
    Content,
}

/// What is told where the object `a` is asked for.
#[tactic(auto, using(region_plan::proofs::FormLemmas::most_leaves))]
fn answer_of(alloc: Global, memory: &mut Memory, form: Form, ask: Ask) -> Option<StoreAnswer> {
    match ask {
        Ask::Object => locate(alloc, memory, form, b"a").err(),
        Ask::Content => content(alloc, memory, form, b"a", 0, 4096).err(),
    }
}

/// Two objects in a form.
fn objects(form: Form) -> &'static [Byte] {
    match form {
        Form::One => OBJECTS,
        Form::Two => OBJECTS_TWO,
    }
}

/// Whether the leaf is told.
fn is_told(alloc: Global, form: Form, ask: Ask, row: &Row) -> Result<bool, NoMemory> {
    let mut memory = with(alloc, objects(form))?;
    set(&mut memory, row.0);
    let answer = answer_of(alloc, &mut memory, form, ask);
    drop(memory);
    Ok(matches!(answer, Some(StoreAnswer::Garbled(leaf)) if leaf == row.1))
}

/// What a table is about, the form of the region, what is asked for, and the rows.
type Table = (&'static str, Form, Ask, &'static [Row]);

fn are_told(rt: &impl Abort, alloc: Global, table: &Table) -> Result<(), NoMemory> {
    for (place, row) in table.3.iter().enumerate() {
        assert!(rt;
            is_told(alloc, table.1, table.2, row)?,
            "{}, row {place}",
            table.0
        );
    }
    Ok(())
}

// A byte behind the end of the content, in its last leaf, which only who reads the content finds.
const PAST_THE_END: &[Row] = &[(&[(3, 2, 1)], 3)];

// The same in the second form: the entries 0 to 3 are zero, and the number of each other one is below 2^22.
const MAP_TWO: &[Row] = &[
    (&[(0, 0, 2)], 0),
    (&[(0, 12, 0xF2), (0, 13, 0x2A)], 3),
    (&[(0, 28, 3)], 7),
    (&[(1, 4, 1)], 257),
    (&[(2, 754, 0x40)], 700),
    (&[(0, 38, 0x40)], 9),
    (&[(3, 1021, 0x0B)], 1023),
];

const TIES_TWO: &[Row] = &[
    (&[(6, 16, 0x61)], 700),
    (&[(700, 9, 8)], 700),
    (&[(1, 0, 0xF2), (1, 1, 0x0A)], 700),
    (&[(0, 38, 0x3F)], 700),
];

const PAST_THE_END_TWO: &[Row] = &[(&[(1023, 2, 1)], 1023)];

const TABLES: &[Table] = &[
    ("the map", Form::One, Ask::Object, MAP),
    ("inode leaves", Form::One, Ask::Object, INODE_LEAVES),
    ("what ties leaves", Form::One, Ask::Object, TIES),
    ("bytes past the end", Form::One, Ask::Content, PAST_THE_END),
    ("the map of four leaves", Form::Two, Ask::Object, MAP_TWO),
    (
        "what ties leaves, of four",
        Form::Two,
        Ask::Object,
        TIES_TWO,
    ),
    (
        "bytes past the end, of 1,024",
        Form::Two,
        Ask::Content,
        PAST_THE_END_TWO,
    ),
];

#[test]
fn each_rule(rt: HostRuntime) -> Result<(), NoMemory> {
    for table in TABLES {
        are_told(&rt, rt.alloc(), table)?;
    }
    Ok(())
}
