//! What an opening takes of the form of a volume.
ghost use Rattle.std.specs.Prelude.{◌≡◌};
ghost use Rattle.epoch.specs.Formats.{accepts as is_accepted};

/// Which versions an opening accepts, from the oldest to the newest, and how many blocks a volume has.
#[derive(Clone, Copy, Debug)]
pub struct Format {
    pub oldest: u32,
    pub newest: u32,
    pub blocks: u64,
}

impl Format {
    /// Whether a header of this version is accepted.
    pub fn accepts(&self, version: u32) -> bool
        ensures { result ≡ is_accepted self.now version }
    {
        !(version < self.oldest || self.newest < version)
    }
}
