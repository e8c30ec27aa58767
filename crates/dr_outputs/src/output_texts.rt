ghost use Rattle.std.specs.Prelude.{◌≡◌};
ghost use Rattle.dr_outputs.specs.Numbered.{text_at as text_at_of};
ghost use Rattle.dr_outputs.specs.Numbered.{texts_by};

use dr_base::Text;
use std::marker::Model;

/// The dimension values of a group, one for each dimension of the query: the texts of those dimensions that differ, and of each
/// dimension the number of its text among these, from 0. A contract sees the list of the values.
#[derive(Drop)]
pub struct OutputTexts<'a> {
    texts: &'a [Text],
    numbers: &'a [usize],
}

impl<'a> Model for OutputTexts<'a> {
    ghost use Rattle.std.specs.Prelude.{ℕ, List};
    ghost use Rattle.dr_outputs.specs.Numbered.{texts_by};

    ghost Value = { List (List ℕ) };

    ghost view = { λ o. texts_by o.numbers.now o.texts.now };
}

impl<'a> OutputTexts<'a> {
    /// The texts of these numbers, from 0; the empty text where there is none. Nothing is copied.
    pub fn new(texts: &'a [Text], numbers: &'a [usize]) -> OutputTexts<'a>
        ensures { result ≡ texts_by numbers.now texts.now }
    {
        OutputTexts { texts, numbers }
    }

    /// The value of a dimension by its place in the query, from 0; the empty text where there is none. It takes constant time.
    pub fn at(&self, place: usize) -> &str
        ensures { result.now ≡ text_at_of place self.now }
    {
        let Some(number) = self.numbers.get(place) else {
            return "";
        };
        text_at(self.texts, *number)
    }
}

/// The text of a number, from 0; the empty text where there is none. It takes constant time.
pub fn text_at(texts: &[Text], number: usize) -> &str
    ensures { result.now ≡ text_at_of number texts.now }
{
    match texts.get(number) {
        Some(text) => text.as_str(),
        None => "",
    }
}
