ghost use Rattle.std.specs.Prelude.{◌≡◌, ◌||◌, [], ℕ, List, Bool, OnOk, OnErr, bytes_eq};
ghost use Rattle.std.specs.List.{list_any};
ghost use Rattle.dr_patterns.specs.Literals.{IsLiteral, AreLiteral};

use dr_base::Text;
use dr_dict::TextSet;
use std::alloc::{AllocError, Global};
use std::marker::Model;

// Texts of which another is to be one, found by hashing. A contract sees the list.
#[derive(Drop)]
pub struct Words {
    texts: TextSet,
    // None of them has as many bytes.
    bound: usize,
}

impl Model for Words {
    ghost use Rattle.std.specs.Prelude.{ℕ, List, ◌<◌, length};
    ghost use Rattle.std.specs.List.{AllByRecursion};

    ghost Value = { List (List ℕ) };

    ghost view = { λ w. w.texts };

    ghost invariant = { λ w. AllByRecursion (λ t. length t < w.bound) w.texts };
}

impl Words {
    // No text. It takes no memory yet.
    pub fn new(alloc: Global) -> Words
        ensures { result ≡ [] }
    {
        Words {
            texts: TextSet::new(alloc),
            bound: 0,
        }
    }

    // Adds a text. The only error is that memory ran out. It takes expected time by the bytes of the text.
    pub fn add(&mut self, text: &Text) -> Result<(), AllocError>
        ensures any { OnOk result ((test : List ℕ → Bool) → list_any test self.new ≡ (list_any test self.old || test text.now)) }
        ensures literal { OnOk result (IsLiteral text.now → AreLiteral self.old → AreLiteral self.new) }
        ensures err { OnErr result (self.new ≡ self.old) }
    {
        let bytes = text.as_str().len();
        if bytes >= self.bound {
            self.bound = bytes + 1;
        }
        self.texts.add(text)?;
        Ok(())
    }

    // Whether a text is one of them. It takes no memory, and expected time by the bytes of the text, but constant time where the
    // text has more bytes than each of them.
    pub fn contain(&self, text: &str) -> bool
        ensures { result ≡ list_any (bytes_eq text.now) self.now }
    {
        if text.len() >= self.bound {
            return false;
        }
        self.texts.contains(text)
    }
}
