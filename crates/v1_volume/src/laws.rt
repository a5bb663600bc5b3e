//! What follows from the definitions alone, proved on functions that do nothing.
ghost use Rattle.std.specs.Prelude.{◌≡◌, ℕ, List, Ok};
ghost use Rattle.store_api.specs.Stores.{Store};
ghost use Rattle.epoch.specs.Formats.{IsFormatOf};
ghost use Rattle.epoch.specs.Forms.{IsFramed};
ghost use Rattle.region_plan.specs.Layout.{layout};
ghost use Rattle.region_plan.specs.Regions.{region_of};
ghost use Rattle.region_plan.specs.declared.form.Form.TheVariants.{One, Two};
ghost use Rattle.v1_volume.specs.Laws.{KeepsStores};
ghost use Rattle.v1_volume.specs.Renumbering.{converted_leaf};
ghost use Rattle.v1_volume.specs.Versions.{volume_form};

use crate::versions::VERSIONS;

/// Where leaves of the first form stand for a store, the leaves of the second form that they become stand for the same one.
pub fn convert_laws()
    ensures { (leaves : ℕ → List ℕ) (store : Store) → region_of (layout One) leaves ≡ Ok store
        → region_of (layout Two) (converted_leaf leaves) ≡ Ok store }
{}

/// Leaves and damage of either version rest on no block but those of their ways, and an opening that takes the versions accepts
/// both. What an image of the first version holds stands, region by region, for the stores that its regions stand for.
pub fn version_laws()
    ensures framed { IsFramed volume_form }
    ensures format { IsFormatOf volume_form VERSIONS }
    ensures stores { KeepsStores }
{}
