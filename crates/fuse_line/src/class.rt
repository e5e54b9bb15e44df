//! Which items only some passes may push.
ghost use Rattle.std.specs.Prelude.{◌≡◌, Bool};

/// What tells of each item whether it is an inner one, which no door may push.
pub trait Class {
    /// Whether the item is an inner one.
    ghost is_inner: { Self → Bool };

    /// Whether this item is an inner one.
    fn inner(&self) -> bool
        ensures { result ≡ is_inner self.now };
}
