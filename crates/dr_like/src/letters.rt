ghost use Rattle.std.specs.Prelude.{◌≡◌, ◌∷◌, ◌++◌, [], MatchOption, IfSome};
ghost use Rattle.std.specs.Str.{chars, IsUtf8};
ghost use Rattle.dr_like.specs.Like.{is_empty as is_empty_of};
ghost use Rattle.dr_like.specs.Letters.{Lacks};

/// The first character of a text, and what follows it; none of the empty text. It takes constant time.
pub fn split_first(text: &str) -> Option<(char, &str)>
    ensures parts { MatchOption result (chars text.now ≡ []) (λ p. chars text.now ≡ p.0 ∷ chars p.1.now) }
    ensures utf8 { IfSome result (λ p. IsUtf8 p.1.now) }
{
    let mut letters = text.chars();
    match letters.next() {
        Some(first) => Some((first, letters.as_str())),
        None => None,
    }
}

/// The last character of a text, and what stands before it; none of the empty text. It takes constant time.
pub fn split_last(text: &str) -> Option<(&str, char)>
    ensures parts { MatchOption result (chars text.now ≡ []) (λ p. chars text.now ≡ chars p.0.now ++ p.1 ∷ []) }
    ensures utf8 { IfSome result (λ p. IsUtf8 p.0.now) }
{
    let mut letters = text.chars();
    match letters.next_back() {
        Some(last) => Some((letters.as_str(), last)),
        None => None,
    }
}

/// What stands before the first place of a character, and what follows it; none where the text has no such character. It takes time by
/// the bytes of the text up to there.
pub fn split_at_letter(text: &str, letter: char) -> Option<(&str, &str)>
    ensures parts { MatchOption result (Lacks letter (chars text.now)) (λ p. Lacks letter (chars p.0.now) × (chars text.now ≡ chars p.0.now ++ letter ∷ chars p.1.now)) }
    ensures utf8 { IfSome result (λ p. IsUtf8 p.0.now × IsUtf8 p.1.now) }
{
    let (front, more) = text.split_once(letter)?;
    Some((front, more))
}

/// What stands before the first place of a character, and the text from there on; the whole text where it has none.
pub fn split_before(text: &str, letter: char) -> (&str, &str)
    ensures parts { chars text.now ≡ chars result.0.now ++ chars result.1.now }
    ensures lacks { Lacks letter (chars result.0.now) }
{
    match text.find(letter) {
        Some(at) => text.split_at(at),
        None => (text, ""),
    }
}

/// Whether a text has no character.
pub fn is_empty(text: &str) -> bool
    ensures { result ≡ is_empty_of (chars text.now) }
{
    split_first(text).is_none()
}
