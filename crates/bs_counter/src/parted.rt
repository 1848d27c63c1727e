//! Values that name the part they belong to.
ghost use Rattle.std.specs.Prelude.{◌≡◌, ℕ};

/// The outcome of a part, which knows the part's number.
pub trait Parted {
    ghost part_of: { Self → ℕ };

    /// The number of the part.
    fn part(&self) -> usize
        ensures { result ≡ part_of self.now };
}
