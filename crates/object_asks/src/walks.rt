//! The enumerators of all instances, each read or changed by one scan.

ghost use Rattle.std.specs.Prelude.{◌≡◌, ◌≤◌, ◌++◌, ◌∷◌, [], IfOk, OnErr, count_by, filter, find, not, option_map, position};
ghost use Rattle.tee_base.specs.declared.limits.TheConstants.{MAX_ENUMERATORS};
ghost use Rattle.handle_table.specs.Handles.{change_first};
ghost use Rattle.object_asks.specs.declared.numbered.Walk.TheVariants.{Idle as not_started};
ghost use Rattle.object_asks.specs.Held.{is_list_at, is_list_of};
ghost use Rattle.object_asks.specs.Lists.{free_list, with_walk};

use crate::numbered::{NumberedList, Walk};
use arrayvec::ArrayVec;
use tee_base::limits::MAX_ENUMERATORS;
use tee_base::{NoMemory, find_lowest_free};

/// How many enumerators are of the instance.
pub fn count_of(lists: &[NumberedList], instance: u8) -> usize
    ensures { result ≡ count_by (is_list_of instance) lists.now }
{
    lists.iter().filter(|l| l.instance == instance).count()
}

/// The lowest number of the instance that is free.
fn free_number(lists: &[NumberedList], instance: u8) -> u8
    requires { count_by (is_list_of instance) lists.now ≤ MAX_ENUMERATORS }
    ensures { result ≡ free_list lists.now instance }
{
    let mut taken = ArrayVec::<u8, MAX_ENUMERATORS>::new();
    for list in lists {
        if list.instance == instance {
            taken.push(list.number);
        }
    }
    find_lowest_free(taken.as_slice())
}

/// Adds an enumerator that isn't started, under the lowest free number of its instance.
pub fn add(lists: &mut Vec<NumberedList>, instance: u8) -> Result<u32, NoMemory>
    requires { count_by (is_list_of instance) lists.old.items ≤ MAX_ENUMERATORS }
    ensures ok { IfOk result (λ n. (n ≡ free_list lists.old.items instance)
        × (lists.new.items ≡ lists.old.items
        ++ record { instance = instance; number = n; walk = not_started } ∷ [])) }
    ensures unchanged { OnErr result (lists.new.items ≡ lists.old.items) }
{
    let number = free_number(lists.as_slice(), instance);
    lists.push(NumberedList {
        instance,
        number,
        walk: Walk::Idle,
    })?;
    Ok(u32::from(number))
}

/// How far the instance's enumerator of this number has come.
pub fn walk_of(lists: &[NumberedList], instance: u8, number: u32) -> Option<&Walk>
    ensures { option_map (λ walk. walk.now) result
        ≡ option_map (λ l. l.walk) (find (is_list_at instance number) lists.now) }
{
    lists
        .iter()
        .find(|l| l.is_at(instance, number))
        .map(|l| &l.walk)
}

/// The place of the instance's enumerator of this number.
fn place_of(lists: &[NumberedList], instance: u8, number: u32) -> Option<usize>
    ensures { result ≡ position (is_list_at instance number) lists.now }
{
    lists.iter().position(|l| l.is_at(instance, number))
}

/// The enumerator has come so far.
pub fn set(lists: &mut Vec<NumberedList>, instance: u8, number: u32, walk: Walk)
    ensures { lists.new.items
        ≡ change_first (is_list_at instance number) (with_walk walk) lists.old.items }
{
    if let Some(place) = place_of(lists.as_slice(), instance, number) {
        lists[place].walk = walk;
    }
}

/// Takes out the instance's enumerator of this number.
pub fn take_out(lists: &mut Vec<NumberedList>, instance: u8, number: u32)
    ensures { lists.new.items
        ≡ filter (λ l. not (is_list_at instance number l)) lists.old.items }
{
    lists.retain(|l| !l.is_at(instance, number));
}

/// Takes out all enumerators of the instance.
pub fn take_lists(lists: &mut Vec<NumberedList>, instance: u8)
    ensures { lists.new.items ≡ filter (λ l. not (is_list_of instance l)) lists.old.items }
{
    lists.retain(|l| l.instance != instance);
}
