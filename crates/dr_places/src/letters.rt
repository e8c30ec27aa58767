ghost use Rattle.std.specs.Prelude.{◌≡◌, ◌<◌, ℕ, true, length, get_or, IfOk, OnOk};
ghost use Rattle.std.specs.Str.{chars};
ghost use Rattle.dr_places.specs.Digits.{AreCharacters};

use dr_like::split_first;
use std::alloc::{AllocError, Global};

// The characters of a text.
pub fn letters_of(alloc: Global, text: &str) -> Result<Vec<char>, AllocError>
    ensures letters { IfOk result (λ v. v.items ≡ chars text.now) }
    ensures characters { IfOk result (λ v. AreCharacters v.items) }
{
    text.chars().collect(alloc)
}

// Makes a list that of the characters of a text. It takes memory where the list has no room for them.
pub fn put_letters_of(letters: &mut Vec<char>, text: &str) -> Result<(), AllocError>
    ensures { OnOk result (letters.new.items ≡ chars text.now) }
{
    letters.clear();
    let mut left = text;
    while let Some((letter, more)) = split_first(left) {
        letters.push(letter)?;
        left = more;
    }
    Ok(())
}

// Whether every character is below a number.
pub fn are_below(letters: &[char], bound: usize) -> bool
    ensures { result ≡ true → (k : ℕ) → k < length letters.now → get_or letters.now k 0 < bound }
{
    for k in 0..letters.len() {
        if letters[k] as usize >= bound {
            return false;
        }
    }
    true
}
