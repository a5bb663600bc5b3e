// What a value has to mean to lie in a cell.
ghost use Rattle.std.specs.Prelude.{◌≡◌, List, length};

/// A value whose meaning is a list of parts and a trail, which is a list that only grows.
pub trait Parted {
    type Part;

    type Entry;

    ghost parts_of: { Self → List Self.Part };

    ghost trail_of: { Self → List Self.Entry };

    /// How many parts the value has.
    fn parts(&self) -> u32
        ensures { result ≡ length (parts_of self.now) };
}
