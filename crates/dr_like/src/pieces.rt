ghost use Rattle.std.specs.Prelude.{◌≡◌, ◌==◌, false, ◌∷◌, IsNone, drop, length, MatchOption, IfSome};
ghost use Rattle.std.specs.Str.{chars};
ghost use Rattle.dr_like.specs.Like.{letter_fits as letter_fits_of};
ghost use Rattle.dr_like.specs.Letters.{Lacks};
ghost use Rattle.dr_like.specs.Left.{IsWalked};
ghost use Rattle.dr_like.specs.Over.{IsOver};
ghost use Rattle.dr_like.specs.Pieces.{is_first, IsNowhere, IsBehindFirst, IsSameSearch};

use crate::letters::{is_empty, split_at_letter, split_before, split_first};
use crate::over::Over;
use crate::walked::Walked;

/// What follows the first place of a text that a piece of a pattern fits, where a run follows the piece; none where it fits
/// nowhere. No later place is better.
pub fn behind_piece<'t>(piece: &str, text: &'t str) -> Option<&'t str>
    requires { Lacks 37 (chars piece.now) }
    ensures { MatchOption result (IsNowhere (chars piece.now) (chars text.now)) (λ r. IsBehindFirst (chars piece.now) (chars text.now) (chars r.now)) }
{
    let Some((begun, from)) = past_gaps(piece, text) else {
        return None;
    };
    let (literal, gap) = split_before(begun, '_');
    if is_empty(gap) {
        return behind_literal(literal, from);
    }
    let Some((letter, others)) = split_first(begun) else {
        return Some(from);
    };
    behind_gapped(letter, others, from)
}

/// The piece without the `_` that it begins with, and the text without as many characters; none where it has fewer.
fn past_gaps<'p, 't>(piece: &'p str, text: &'t str) -> Option<(&'p str, &'t str)>
    requires { Lacks 37 (chars piece.now) }
    ensures search { MatchOption result (IsNowhere (chars piece.now) (chars text.now)) (λ p. IsSameSearch (chars piece.now) (chars text.now) (chars p.0.now) (chars p.1.now)) }
    ensures lacks { IfSome result (λ p. Lacks 37 (chars p.0.now)) }
    ensures first { IfSome result (λ p. is_first 95 (chars p.0.now) ≡ false) }
{
    let mut left = piece;
    let mut rest = text;
    while let Some((letter, more)) = split_first(left) {
        if letter != '_' {
            return Some((left, rest));
        }
        let Some((_, behind)) = split_first(rest) else {
            return None;
        };
        left = more;
        rest = behind;
    }
    Some((left, rest))
}

/// The same as `behind_piece`, of a piece without `_`.
fn behind_literal<'t>(literal: &str, text: &'t str) -> Option<&'t str>
    requires run { Lacks 37 (chars literal.now) }
    requires gap { Lacks 95 (chars literal.now) }
    ensures { MatchOption result (IsNowhere (chars literal.now) (chars text.now)) (λ r. IsBehindFirst (chars literal.now) (chars text.now) (chars r.now)) }
{
    let Some(at) = text.find(literal) else {
        return None;
    };
    let (_, here) = text.split_at(at);
    let (_, behind) = here.split_at(literal.len());
    Some(behind)
}

/// The same as `behind_piece`, of a piece in two parts: its first letter, which is no `_`, and the others. It is tried where the
/// first letter stands, and no longer once the text is too short for it. At each place the letter comes first that missed at the
/// place before.
fn behind_gapped<'t>(letter: char, others: &str, text: &'t str) -> Option<&'t str>
    requires run { Lacks 37 (letter ∷ chars others.now) }
    requires gap { (letter == 95) ≡ false }
    ensures { MatchOption result (IsNowhere (letter ∷ chars others.now) (chars text.now)) (λ r. IsBehindFirst (letter ∷ chars others.now) (chars text.now) (chars r.now)) }
{
    let mut rest = text;
    let mut missed: Option<Over<'t>> = None;
    while let Some((front, behind)) = split_at_letter(rest, letter) {
        match compare(others, behind, past(missed, front)) {
            Walked::Behind(end) => return Some(end),
            Walked::TextEnds => return None,
            Walked::Differs(over) => {
                rest = behind;
                missed = Some(over.next());
            }
        }
    }
    None
}

/// The letter that missed, once its piece stands behind all characters of a text.
fn past<'t>(missed: Option<Over<'t>>, front: &str) -> Option<Over<'t>>
    ensures { MatchOption missed.entry (IsNone result) (λ m. IfSome result (λ o. (o.letter ≡ m.letter) × (chars o.ahead.now ≡ drop (length (chars front.now)) (chars m.ahead.now)))) }
{
    match missed {
        Some(over) => Some(over.past(front)),
        None => None,
    }
}

/// Compares a piece of a pattern with the start of a text, the letter first that missed at another place.
fn compare<'t>(piece: &str, text: &'t str, missed: Option<Over<'t>>) -> Walked<'t>
    requires lacks { Lacks 37 (chars piece.now) }
    requires missed { IfSome missed (λ o. IsOver (chars piece.now) (chars text.now) o.letter (chars o.ahead.now)) }
    ensures { IsWalked (chars piece.now) (chars text.now) result }
{
    match missed {
        Some(over) => {
            if over.misses() {
                Walked::Differs(over)
            } else {
                walk(piece, text)
            }
        }
        None => walk(piece, text),
    }
}

/// Compares a piece of a pattern with the start of a text, character by character.
pub fn walk<'t>(piece: &str, text: &'t str) -> Walked<'t>
    requires { Lacks 37 (chars piece.now) }
    ensures { IsWalked (chars piece.now) (chars text.now) result }
{
    let mut left = piece;
    let mut rest = text;
    while let Some((letter, more)) = split_first(left) {
        let Some((found, behind)) = split_first(rest) else {
            return Walked::TextEnds;
        };
        if !letter_fits(letter, found) {
            return Walked::Differs(Over {
                letter,
                ahead: rest,
            });
        }
        left = more;
        rest = behind;
    }
    Walked::Behind(rest)
}

/// Whether a character fits a letter of a pattern that is no run.
pub fn letter_fits(letter: char, found: char) -> bool
    ensures { result ≡ letter_fits_of letter found }
{
    letter == '_' || letter == found
}
