//! Rows that have an id.
ghost use Rattle.std.specs.Prelude.{◌≡◌, ℕ};

/// A row that has an id.
pub trait HasId: Drop {
    ghost id: { Self → ℕ };

    /// The id of the row.
    fn id(&self) -> u32
        ensures value { result ≡ id self.now };
}
