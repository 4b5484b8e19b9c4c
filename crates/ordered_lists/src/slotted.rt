//! Numbers of keys, at which filters mark them.
ghost use Rattle.std.specs.Prelude.{◌≡◌, ℤ};
ghost use Rattle.std.specs.declared.cmp.Ordering.TheVariants.{Equal};

/// What has a number, at which a filter marks it. Keys that tie have the same one; `Numbered`, which tells where in a
/// list a number stands, says nothing of ties.
pub trait Slotted: Ord {
    ghost number: { Self → ℤ };

    /// The number.
    fn number(&self) -> i64
        ensures { result ≡ number self.now };

    ghost tied: { (a b : Self) → Self.cmp a b ≡ Equal → number a ≡ number b };
}
