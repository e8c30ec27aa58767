ghost use Rattle.std.specs.Prelude.{◌≡◌, IfOk};
ghost use Rattle.std.specs.Str.{chars};

use crate::letters::letters_of;
use crate::pattern_shape::PatternShape;
use std::alloc::{AllocError, Global};
use std::marker::Model;

/// A pattern of `like` that is asked of many texts, with its characters and its shape. A contract sees the characters.
#[derive(Drop)]
pub struct LikePattern<'a> {
    text: &'a str,
    letters: Vec<char>,
    shape: PatternShape,
}

impl<'a> Model for LikePattern<'a> {
    ghost use Rattle.std.specs.Prelude.{◌≡◌, List, ℕ};
    ghost use Rattle.std.specs.Str.{chars};

    ghost Value = { List ℕ };

    ghost view = { λ p. chars p.text.now };

    ghost invariant = { λ p. p.letters.items ≡ chars p.text.now };
}

impl<'a> LikePattern<'a> {
    /// The pattern that a text spells. The only error is that memory ran out. It takes time by the bytes of the text, and memory by four bytes
    /// for each character.
    pub fn of(alloc: Global, text: &'a str) -> Result<LikePattern<'a>, AllocError>
        ensures { IfOk result (λ p. p ≡ chars text.now) }
    {
        let letters = letters_of(alloc, text)?;
        let shape = PatternShape::of_pattern(text);
        Ok(LikePattern {
            text,
            letters,
            shape,
        })
    }

    // The text that spells it.
    pub(crate) fn text(&self) -> &'a str
        ensures { chars result.now ≡ self.now }
    {
        self.text
    }

    // Its characters.
    pub(crate) fn letters(&self) -> &[char]
        ensures { result.now ≡ self.now }
    {
        self.letters.as_slice()
    }

    // Its shape.
    pub(crate) fn shape(&self) -> &PatternShape {
        &self.shape
    }
}
