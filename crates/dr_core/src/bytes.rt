ghost use Rattle.std.specs.Prelude.{◌≡◌};

use std::marker::Model;

/// Bytes in order, as the text of an answer in UTF-8. A contract sees the list of the bytes.
#[derive(Debug, Drop)]
pub struct Bytes(Vec<u8>);

impl Model for Bytes {
    ghost use Rattle.std.specs.Prelude.{ℕ, List};

    ghost Value = { List ℕ };

    ghost view = { λ b. b.0.items };
}

impl Bytes {
    /// The bytes of a list.
    pub fn from_vec(bytes: Vec<u8>) -> Bytes
        ensures { result ≡ bytes.items }
    {
        Bytes(bytes)
    }

    /// The bytes as a slice.
    pub fn as_slice(&self) -> &[u8]
        ensures { result.now ≡ self.now }
    {
        self.0.as_slice()
    }

    /// The list of the bytes. It takes no memory.
    pub fn into_vec(self) -> Vec<u8>
        ensures { result.items ≡ self }
    {
        let Bytes(list) = self;
        list
    }
}
