//! All applications side by side, over one volume.

ghost use Rattle.std.specs.Prelude.{◌≤◌, vec_len};
ghost use Rattle.tee_base.specs.declared.limits.TheConstants.{MAX_HOSTS};
ghost use Rattle.tee_core.specs.Sides.{AreBooted, AreBooted-prop, ServeAs, ServeAs-prop};

use crate::directories::Directories;
use app_side::AppSide;
use std::alloc::Global;
use std::marker::PhantomData;
use store_api::Volume;
use tree_volume::TreeVolume;

/// The kind of volume in use. Its form is `form_in_use` of this crate's definitions.
pub type VolumeInUse<B> = TreeVolume<B>;

/// Applications over the volume in use. Another volume takes its place by this line.
pub type Tee<B, A> = TeeOver<B, VolumeInUse<B>, A>;

/// The running applications, in the order of their hosts, each with its objects in the region of its index.
#[derive(Drop)]
pub struct TeeOver<B, V: Volume, A> {
    pub(crate) alloc: Global,
    pub(crate) volume: V,
    pub(crate) sides: Vec<AppSide<A>>,
    pub(crate) kept: Directories,
    /// How often the power was lost.
    pub(crate) boots: u32,
    pub(crate) board: PhantomData<B>,
    ghost few: { vec_len sides ≤ MAX_HOSTS },
    ghost served: { ServeAs V.keeper volume sides.items } by { ServeAs-prop V.keeper volume sides.items },
    ghost booted: { AreBooted boots sides.items } by { AreBooted-prop boots sides.items },
}
