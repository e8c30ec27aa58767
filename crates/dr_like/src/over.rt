ghost use Rattle.std.specs.Prelude.{◌≡◌, drop, length};
ghost use Rattle.std.specs.Str.{chars};
ghost use Rattle.dr_like.specs.Over.{is_missed};

use crate::letters::split_first;
use crate::pieces::letter_fits;

/// A letter of a piece of a pattern, and the text from the character on that it stands over while the piece stands at some place.
#[derive(Clone, Copy)]
pub struct Over<'t> {
    pub letter: char,
    pub ahead: &'t str,
}

impl<'t> Over<'t> {
    /// Whether the letter doesn't fit the character that it stands over, or stands over none.
    pub fn misses(&self) -> bool
        ensures { result ≡ is_missed self.now.letter (chars self.now.ahead.now) }
    {
        match split_first(self.ahead) {
            Some((found, _)) => !letter_fits(self.letter, found),
            None => true,
        }
    }

    /// The same once the piece stands one character further on.
    pub fn next(self) -> Over<'t>
        ensures letter { result.letter ≡ self.entry.letter }
        ensures ahead { chars result.ahead.now ≡ drop 1 (chars self.entry.ahead.now) }
    {
        Over {
            letter: self.letter,
            ahead: without_first(self.ahead),
        }
    }

    /// The same once the piece stands behind all characters of a text.
    pub fn past(self, front: &str) -> Over<'t>
        ensures letter { result.letter ≡ self.entry.letter }
        ensures ahead { chars result.ahead.now ≡ drop (length (chars front.now)) (chars self.entry.ahead.now) }
    {
        let mut left = front;
        let mut over = self;
        while let Some((_, more)) = split_first(left) {
            left = more;
            over = over.next();
        }
        over
    }
}

// A text without its first character; the empty one where it has none.
fn without_first(text: &str) -> &str
    ensures { chars result.now ≡ drop 1 (chars text.now) }
{
    match split_first(text) {
        Some((_, more)) => more,
        None => "",
    }
}
