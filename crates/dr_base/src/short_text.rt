ghost use Rattle.std.specs.Prelude.{◌≡◌, ◌<◌, length, IsSome, IfSome, ◌↔◌, ◌≤◌};

use std::marker::Model;
use std::str::from_utf8_unchecked;

/// How many bytes a text has at most that lies in the value itself.
pub const SHORT: usize = 14;

/// A text of at most 14 bytes, which lie in the value itself. A contract sees it as its bytes in UTF-8.
#[derive(Debug, Drop)]
pub struct ShortText {
    len: u8,
    bytes: [u8; SHORT],
}

impl Model for ShortText {
    ghost use Rattle.std.specs.Prelude.{ℕ, List, ◌≡◌, ◌≤◌, length, take, IsUtf8};

    ghost Value = { List ℕ };

    ghost view = { λ s. take s.len s.bytes };

    ghost invariant = { λ s. (s.len ≤ 14) × (length s.bytes ≡ 14) × ∥ IsUtf8 (take s.len s.bytes) ∥₁ };
}

impl ShortText {
    /// The text, where it is short enough.
    pub fn of(text: &str) -> Option<ShortText>
        ensures short { IsSome result ↔ (length text.now ≤ 14) }
        ensures text { IfSome result (λ short. short ≡ text.now) }
    {
        let given = text.as_bytes();
        if given.len() > SHORT {
            return None;
        }
        let mut bytes = [0; SHORT];
        bytes[..given.len()].copy_from_slice(given);
        Some(ShortText {
            len: given.len() as u8,
            bytes,
        })
    }

    /// An equal text.
    pub fn copy(&self) -> ShortText
        ensures { result ≡ self.now }
    {
        ShortText {
            len: self.len,
            bytes: self.bytes,
        }
    }

    /// The text as Rust's text.
    pub fn as_str(&self) -> &str
        ensures { result.now ≡ self.now }
    {
        unsafe { from_utf8_unchecked(&self.bytes[..self.len as usize]) }
    }
}
