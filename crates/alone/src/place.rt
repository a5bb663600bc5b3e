//! Where an instance is kept.

ghost use Rattle.std.specs.Prelude.{◌≡◌, IfSome, IfNone, None, find};
ghost use Rattle.alone.specs.InList.{IsPlace};
ghost use Rattle.alone.specs.Machine.{is_number};

use crate::active_entry::Instance;

/// The place of the instance of this number.
pub fn place_of<A>(instances: &[Instance<A>], number: u8) -> Option<usize>
    ensures found { IfSome result (IsPlace number instances.now) }
    ensures none { IfNone result (find (is_number number) instances.now ≡ None) }
{
    for (place, instance) in instances.iter().enumerate() {
        if instance.number == number {
            return Some(place);
        }
    }
    None
}
