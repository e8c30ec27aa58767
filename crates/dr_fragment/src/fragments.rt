ghost use Rattle.std.specs.Prelude.{◌≡◌, ◌++◌, ◌∷◌, [], OnOk, OnErr, length};

use crate::shared_fragment::SharedFragment;
use std::alloc::{AllocError, Global};
use std::marker::Model;

/// Shared fragments in order. A contract sees the list of the fragments.
#[derive(Drop)]
pub struct Fragments(Vec<SharedFragment>);

impl Model for Fragments {
    ghost use Rattle.std.specs.Prelude.{List};
    ghost use Rattle.dr_fragment.specs.declared.fragment.Fragment.{Fragment};

    ghost Value = { List Fragment };

    ghost view = { λ f. f.0.items };
}

impl Fragments {
    /// No fragment.
    pub fn new(alloc: Global) -> Fragments
        ensures { result ≡ [] }
    {
        Fragments(Vec::new(alloc))
    }

    /// The fragments as a slice.
    pub fn as_slice(&self) -> &[SharedFragment]
        ensures { result.now ≡ self.now }
    {
        self.0.as_slice()
    }

    /// How many fragments there are.
    pub fn len(&self) -> usize
        ensures { result ≡ length self.now }
    {
        self.0.len()
    }

    /// Adds a fragment at the end. An error leaves the list as it was.
    pub fn push(&mut self, fragment: SharedFragment) -> Result<(), AllocError>
        ensures ok { OnOk result (self.new ≡ self.old ++ fragment ∷ []) }
        ensures err { OnErr result (self.new ≡ self.old) }
    {
        self.0.push(fragment)?;
        Ok(())
    }
}
