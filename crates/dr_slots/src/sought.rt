ghost use Rattle.std.specs.Prelude.{◌≡◌, ℕ, true, false};

/// What is looked for among things that stand at places, from 0.
pub trait Sought {
    // It stands at a place.
    ghost stands: { Self → ℕ → Type 0 };

    /// Whether it stands at a place; not where nothing stands there.
    fn stands_at(&self, place: usize) -> bool
        ensures yes { result ≡ true → stands self.now place }
        ensures no { result ≡ false → stands self.now place → ⊥ };
}
