//! Two of the passes of a runtime.

ghost use Rattle.std.specs.Prelude.{◌≡◌, ◌<◌, Some, slice_get, vec_len};

use app_api::Application;
use shared_tee::Pass;
use store_api::Volume;

/// The passes at two places. The others are dropped.
pub fn pair_of<V: Volume, A: Application>(
    passes: Vec<Pass<V, A>>,
    first: usize,
    second: usize,
) -> (Pass<V, A>, Pass<V, A>)
    requires order { first < second }
    requires there { second < vec_len passes }
    ensures first { slice_get passes.items first ≡ Some result.0 }
    ensures second { slice_get passes.items second ≡ Some result.1 }
{
    let mut rest = passes;
    let behind = rest.remove(second);
    let before = rest.remove(first);
    (before, behind)
}
