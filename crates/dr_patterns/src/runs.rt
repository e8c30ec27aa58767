ghost use Rattle.std.specs.Prelude.{◌≡◌, ◌==◌, ◌&&◌, true, ℕ, List, IfOk};
ghost use Rattle.std.specs.Str.{chars};
ghost use Rattle.dr_patterns.specs.Fitting.{fits_text};
ghost use Rattle.dr_patterns.specs.Runs.{runs_are_apart};

use dr_base::Text;
use dr_like::split_first;
use std::alloc::{AllocError, Global};

/// A pattern of `like` that the same texts fit, in which no `%` follows another one, since a run behind a run is one run. So no text is
/// asked more often than a pattern has other letters. The only error is that memory ran out. It takes time and memory by the bytes of
/// the pattern.
pub fn runs_joined(alloc: Global, pattern: &str) -> Result<Text, AllocError>
    ensures same { IfOk result (λ p. (text : List ℕ) → fits_text p text ≡ fits_text pattern.now text) }
    ensures apart { IfOk result (λ p. runs_are_apart (chars p) ≡ true) }
{
    let mut joined = String::new(alloc);
    let mut in_run = false;
    let mut left = pattern;
    while let Some((letter, more)) = split_first(left) {
        if !is_again(letter, in_run) {
            joined.push(letter)?;
        }
        in_run = letter == '%';
        left = more;
    }
    let text = Text::from_string(alloc, joined)?;
    Ok(text)
}

// Whether a letter of a pattern is a run behind a run.
fn is_again(letter: char, in_run: bool) -> bool
    ensures { result ≡ (letter == 37 && in_run) }
{
    letter == '%' && in_run
}
