//! Each pair of flags beside the rule computed plainly, and a few rows by hand.

use crate::ShareIndex;
use tee_base::Flags;

/// Whether two handles conflict, by their bits.
fn conflict_of_two(one: u32, other: u32) -> bool {
    let any = one | other;
    let all = one & other;
    any & 0x4 != 0 || (any & 0x1 != 0 && all & 0x10 == 0) || (any & 0x2 != 0 && all & 0x20 == 0)
}

/// Whether an index in which one handle is noted lets another in where it should, and any on another object.
fn agrees(index: &ShareIndex, noted: u32, new: u32) -> bool {
    index.may_open(b"object", Flags(new)) != conflict_of_two(noted, new)
        && index.may_open(b"objects", Flags(new))
}

#[test]
fn two_handles_on_one_object(rt: HostRuntime) {
    for noted in 0..0x40u32 {
        let mut index = ShareIndex::new(rt.alloc());
        index.note(b"object", Flags(noted)).expect(&rt, "note");
        for new in 0..0x40u32 {
            assert!(rt; agrees(&index, noted, new), "{noted:x} beside {new:x}");
        }
    }
}

#[test]
fn the_last_handle_opens_the_way(rt: HostRuntime) {
    let mut index = ShareIndex::new(rt.alloc());
    index
        .note(b"object", Flags::ACCESS_WRITE_META)
        .expect(&rt, "note");
    assert!(rt; !index.may_open(b"object", Flags(0x11)));
    index.release(b"object", Flags::ACCESS_WRITE_META);
    assert!(rt; index.may_open(b"object", Flags(0x11)));
}

#[test]
fn handles_on_two_objects_are_counted_apart(rt: HostRuntime) {
    let mut index = ShareIndex::new(rt.alloc());
    index.note(b"two", Flags(0x11)).expect(&rt, "note");
    index.note(b"one", Flags(0x11)).expect(&rt, "note");
    index.release(b"one", Flags(0x11));
    assert!(rt; index.may_open(b"one", Flags(0x2)), "none is left");
    assert!(rt; !index.may_open(b"two", Flags(0x2)), "another object");
    index.note(b"two", Flags(0x11)).expect(&rt, "note");
    index.release(b"two", Flags(0x11));
    assert!(rt; !index.may_open(b"two", Flags(0x2)), "one of two is left");
}
