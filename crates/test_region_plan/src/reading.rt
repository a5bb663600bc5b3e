//! What is told of no object, and of two, and which leaves are read for it.

ghost use Rattle.std.specs.Prelude.{◌≤◌};
ghost use Rattle.region_plan.specs.Layout.{layout};

use super::counted::{Counted, LEAVES};
use super::memory::{Byte, Memory, OBJECTS, OBJECTS_TWO, with};
use region_plan::{Form, LeafSource, content, facts, locate, next_after, secret};
use std::alloc::Global;
use std::process::Abort;
use store_api::{Facts, StoreAnswer};
use tee_base::NoMemory;

/// A question, and what has to be told.
#[derive(Clone, Copy)]
pub enum Row {
    /// The object `a` has its inode in this leaf, or isn't found so.
    Leaf(Result<u16, StoreAnswer>),
    /// The object `a` has these facts.
    Facts(Facts),
    /// The object `a` has this secret.
    Secret(&'static [u8]),
    /// From byte 1,022 on the content of the object `a` is this.
    End(&'static [u8]),
    /// Behind this identifier comes that one, with these facts.
    Next(Option<&'static [u8]>, &'static [u8], Facts),
    /// Behind this identifier comes none.
    Last(Option<&'static [u8]>),
    /// The source is lost from then on.
    Lose,
}

/// Compares the facts.
#[tactic(auto, using(region_plan::proofs::FormLemmas::most_leaves))]
fn has_facts(alloc: Global, memory: &mut Memory, form: Form, want: &Facts) -> bool {
    match facts(alloc, memory, form, b"a") {
        Ok(facts) => facts == *want,
        Err(_) => false,
    }
}

/// Compares the secret.
#[tactic(auto, using(region_plan::proofs::FormLemmas::most_leaves))]
fn has_secret(alloc: Global, memory: &mut Memory, form: Form, want: &[u8]) -> bool {
    match secret(alloc, memory, form, b"a") {
        Ok(secret) => secret.as_slice() == want,
        Err(_) => false,
    }
}

/// Compares the end of the content.
fn ends_so<L: LeafSource>(alloc: Global, leaves: &mut L, form: Form, want: &[u8]) -> bool
    requires { (layout form).leaves ≤ L.keeper.leaves }
{
    match content(alloc, leaves, form, b"a", 1022, 9) {
        Ok(content) => content.as_slice() == want,
        Err(_) => false,
    }
}

/// Compares what comes next.
#[tactic(auto, using(region_plan::proofs::FormLemmas::most_leaves))]
fn is_next(
    alloc: Global,
    memory: &mut Memory,
    form: Form,
    last: Option<&[u8]>,
    want: &[u8],
    facts: &Facts,
) -> bool {
    match next_after(alloc, memory, form, last) {
        Ok(next) => next.id.as_slice() == want && next.facts == *facts,
        Err(_) => false,
    }
}

/// Asks the question of a row, and says whether that is told which has to be.
#[tactic(auto, using(region_plan::proofs::FormLemmas::most_leaves))]
fn is_told(alloc: Global, memory: &mut Memory, form: Form, row: &Row) -> bool {
    match row {
        Row::Leaf(want) => locate(alloc, memory, form, b"a") == *want,
        Row::Facts(want) => has_facts(alloc, memory, form, want),
        Row::Secret(want) => has_secret(alloc, memory, form, want),
        Row::End(want) => ends_so(alloc, memory, form, want),
        Row::Next(last, want, facts) => is_next(alloc, memory, form, *last, want, facts),
        Row::Last(last) => next_after(alloc, memory, form, *last).is_err(),
        Row::Lose => {
            memory.lost = true;
            true
        }
    }
}

/// Asks the questions in order.
pub fn go_through(rt: &impl Abort, alloc: Global, memory: &mut Memory, form: Form, rows: &[Row]) {
    for (place, row) in rows.iter().enumerate() {
        assert!(rt; is_told(alloc, memory, form, row), "row {place}");
    }
}

/// Asks the questions in order, of leaves with these bytes.
fn ask(
    rt: &impl Abort,
    alloc: Global,
    form: Form,
    bytes: &[Byte],
    rows: &[Row],
) -> Result<(), NoMemory> {
    let mut memory = with(alloc, bytes)?;
    go_through(rt, alloc, &mut memory, form, rows);
    drop(memory);
    Ok(())
}

const BLANK: &[Row] = &[
    Row::Leaf(Err(StoreAnswer::NotFound)),
    Row::Last(None),
    Row::Lose,
    Row::Leaf(Err(StoreAnswer::Lost)),
];

#[test]
fn a_blank_region(rt: HostRuntime) -> Result<(), NoMemory> {
    ask(&rt, rt.alloc(), Form::One, &[], BLANK)?;
    ask(&rt, rt.alloc(), Form::Two, &[], BLANK)
}

const FACTS_OF_A: Facts = Facts {
    kind: 8,
    usage: 9,
    secret: 2,
    length: 1026,
};

pub const TWO: &[Row] = &[
    Row::Leaf(Ok(5)),
    Row::Facts(FACTS_OF_A),
    Row::Secret(b"12"),
    Row::End(&[21, 22, 23, 24]),
];

#[test]
fn two_objects(rt: HostRuntime) -> Result<(), NoMemory> {
    ask(&rt, rt.alloc(), Form::One, OBJECTS, TWO)?;
    ask(
        &rt,
        rt.alloc(),
        Form::Two,
        OBJECTS_TWO,
        &[Row::Leaf(Ok(700))],
    )?;
    ask(&rt, rt.alloc(), Form::Two, OBJECTS_TWO, &TWO[1..])
}

const FACTS_OF_B: Facts = Facts {
    kind: 7,
    usage: 0,
    secret: 0,
    length: 0,
};

pub const IN_ORDER: &[Row] = &[
    Row::Next(None, b"a", FACTS_OF_A),
    Row::Next(Some(b"a"), b"b", FACTS_OF_B),
    Row::Last(Some(b"b")),
];

#[test]
fn in_order(rt: HostRuntime) -> Result<(), NoMemory> {
    ask(&rt, rt.alloc(), Form::One, OBJECTS, IN_ORDER)?;
    ask(&rt, rt.alloc(), Form::Two, OBJECTS_TWO, IN_ORDER)
}

// A read takes the map, which is leaf 0, then both inode leaves, 2 and 5, since identifiers stand in them alone, and then
// the leaves of its bytes. Those from 1,022 to 1,025 are the last two of leaf 9 and the first two of leaf 3. That makes
// five reads.
const READ: &[u8] = &[0, 2, 5, 9, 3];

/// Each of those leaves once.
fn once_each() -> [u8; LEAVES] {
    let mut reads = [0; LEAVES];
    for leaf in READ {
        reads[*leaf as usize] = 1;
    }
    reads
}

/// Whether the end of the content is as it should be, and each of those leaves is read once for it, and no other.
#[tactic(auto, using(region_plan::proofs::FormLemmas::most_leaves))]
fn is_read_once(alloc: Global, memory: Memory) -> bool {
    let mut counted = Counted {
        source: memory,
        reads: [0; LEAVES],
    };
    let ends = ends_so(alloc, &mut counted, Form::One, &[21, 22, 23, 24]);
    let reads = counted.reads;
    drop(counted);
    ends && reads == once_each()
}

#[test]
fn each_leaf_is_read_once(rt: HostRuntime) -> Result<(), NoMemory> {
    let memory = with(rt.alloc(), OBJECTS)?;
    assert!(rt; is_read_once(rt.alloc(), memory));
    Ok(())
}
