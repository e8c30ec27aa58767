ghost use Rattle.std.specs.Prelude.{◌≡◌, ◌<◌, ◌≤◌, ◌∷◌, [], true, length, map, get_or};
ghost use Rattle.dr_image.specs.Words.{word};
ghost use Rattle.dr_image.specs.Pieces.{pieces, ends_fit};

use crate::words::number;

// Whether ends don't fall, and the last one is where all of it ends.
pub(crate) fn do_ends_fit(ends: &[[u8; 4]], last: usize) -> bool
    ensures { result ≡ ends_fit 0 (map word ends.now) last }
{
    let mut start = 0;
    for end in ends {
        let end = number(end);
        if end < start {
            return false;
        }
        start = end;
    }
    start == last
}

// Where a piece begins and ends.
fn span(ends: &[[u8; 4]], last: usize, place: usize) -> (usize, usize)
    requires within { place < length ends.now }
    requires fit { ends_fit 0 (map word ends.now) last ≡ true }
    ensures start { result.0 ≡ get_or (0 ∷ map word ends.now) place 0 }
    ensures end { result.1 ≡ get_or (map word ends.now) place 0 }
    ensures rises { result.0 ≤ result.1 }
    ensures inside { result.1 ≤ last }
{
    let end = number(&ends[place]);
    if place == 0 {
        (0, end)
    } else {
        (number(&ends[place - 1]), end)
    }
}

// The text at a place.
pub(crate) fn text_piece<'a>(ends: &[[u8; 4]], texts: &'a [u8], place: usize) -> &'a [u8]
    requires within { place < length ends.now }
    requires fit { ends_fit 0 (map word ends.now) (length texts.now) ≡ true }
    ensures { result.now ≡ get_or (pieces 0 (map word ends.now) texts.now) place [] }
{
    let (start, end) = span(ends, texts.len(), place);
    &texts[start..end]
}

// The row list at a place.
pub(crate) fn list_piece<'a>(ends: &[[u8; 4]], rows: &'a [[u8; 4]], place: usize) -> &'a [[u8; 4]]
    requires within { place < length ends.now }
    requires fit { ends_fit 0 (map word ends.now) (length rows.now) ≡ true }
    ensures { result.now ≡ get_or (pieces 0 (map word ends.now) rows.now) place [] }
{
    let (start, end) = span(ends, rows.len(), place);
    &rows[start..end]
}
