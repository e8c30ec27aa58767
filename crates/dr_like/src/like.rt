ghost use Rattle.std.specs.Prelude.{◌≡◌};
ghost use Rattle.std.specs.Str.{chars};
ghost use Rattle.dr_like.specs.Like.{fits as fits_of, behind_some_run};
ghost use Rattle.dr_like.specs.Letters.{Lacks};

use crate::letters::{is_empty, split_at_letter, split_last};
use crate::pieces::{behind_piece, letter_fits, walk};
use crate::walked::Walked;

/// Whether the whole text fits a pattern (Apache Druid documentation, query filters: like): `%` is any run of characters,
/// `_` is one Unicode scalar value, every other character is itself.
///
/// It takes no memory, and time by the bytes of the pattern and those of the text together. What can cost more is a piece
/// between two `%` that has a `_` behind its first other character: it is tried at each place where that character stands, the
/// letter first that didn't fit at the place before, so at worst it takes its own bytes times those of the text.
pub fn fits(pattern: &str, text: &str) -> bool
    ensures { result ≡ fits_of (chars pattern.now) (chars text.now) }
{
    let Some((piece, more)) = split_at_letter(pattern, '%') else {
        return fits_whole(pattern, text);
    };
    match walk(piece, text) {
        Walked::Behind(rest) => fits_behind_run(more, rest),
        Walked::Differs(_) | Walked::TextEnds => false,
    }
}

/// Whether the whole text fits a pattern without a run.
fn fits_whole(pattern: &str, text: &str) -> bool
    requires { Lacks 37 (chars pattern.now) }
    ensures { result ≡ fits_of (chars pattern.now) (chars text.now) }
{
    match walk(pattern, text) {
        Walked::Behind(rest) => is_empty(rest),
        Walked::Differs(_) | Walked::TextEnds => false,
    }
}

/// Whether what is left of the text behind some run fits the pattern: each of its pieces is looked for behind the one before,
/// and the last, which no run follows, at the end of the text.
fn fits_behind_run(pattern: &str, text: &str) -> bool
    ensures { result ≡ behind_some_run (fits_of (chars pattern.now)) (chars text.now) }
{
    let mut left = pattern;
    let mut rest = text;
    while let Some((piece, more)) = split_at_letter(left, '%') {
        let Some(behind) = behind_piece(piece, rest) else {
            return false;
        };
        left = more;
        rest = behind;
    }
    fits_end(left, rest)
}

/// Whether the end of the text fits a pattern without a run. As many characters as the pattern has are compared, from the
/// last one on.
fn fits_end(pattern: &str, text: &str) -> bool
    requires { Lacks 37 (chars pattern.now) }
    ensures { result ≡ behind_some_run (fits_of (chars pattern.now)) (chars text.now) }
{
    let mut left = pattern;
    let mut rest = text;
    while let Some((more, letter)) = split_last(left) {
        let Some((front, found)) = split_last(rest) else {
            return false;
        };
        if !letter_fits(letter, found) {
            return false;
        }
        left = more;
        rest = front;
    }
    true
}
