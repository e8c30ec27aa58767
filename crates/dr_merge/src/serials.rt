ghost use Rattle.std.specs.Prelude.{◌≡◌, ◌++◌, ◌∷◌, [], OnOk, OnErr};

use std::alloc::{AllocError, Global};
use std::marker::Model;

/// The serials of sealed ranges, in order. A contract sees the list of the numbers.
#[derive(Drop)]
pub struct Serials(Vec<u64>);

impl Model for Serials {
    ghost use Rattle.std.specs.Prelude.{ℕ, List};

    ghost Value = { List ℕ };

    ghost view = { λ s. s.0.items };
}

impl Serials {
    /// No serial.
    pub fn new(alloc: Global) -> Serials
        ensures { result ≡ [] }
    {
        Serials(Vec::new(alloc))
    }

    /// The serials as a slice.
    pub fn as_slice(&self) -> &[u64]
        ensures { result.now ≡ self.now }
    {
        self.0.as_slice()
    }

    /// Adds a serial at the end. An error leaves the list as it was.
    pub fn push(&mut self, serial: u64) -> Result<(), AllocError>
        ensures ok { OnOk result (self.new ≡ self.old ++ serial ∷ []) }
        ensures err { OnErr result (self.new ≡ self.old) }
    {
        self.0.push(serial)?;
        Ok(())
    }
}
