//! Laws of the definitions.

ghost use Rattle.std.specs.Prelude.{◌≡◌, ◌↔◌, List, Err, true, false};
ghost use Rattle.ticks_time.specs.Clock.{own_time};
ghost use Rattle.ticks_time.specs.History.{Happening, clock_after, ticks_in, was_set, was_set_since_restart};
ghost use Rattle.ticks_time.specs.declared.time.TimeAnswer.TheVariants.{NotSet, NeedsReset};

/// Whatever happened to a clock, the last of it first: its ticks are all that came, the own time was never set exactly where
/// none was set, and is lost exactly where one was set and a restart came since.
pub fn clock_laws()
    ensures ticks { (happened : List Happening) → (clock_after happened).ticks ≡ ticks_in happened }
    ensures not_set { (happened : List Happening)
        → (own_time (clock_after happened) ≡ Err NotSet) ↔ (was_set happened ≡ false) }
    ensures needs_reset { (happened : List Happening)
        → (own_time (clock_after happened) ≡ Err NeedsReset)
        ↔ ((was_set happened ≡ true) × (was_set_since_restart happened ≡ false)) }
{}
