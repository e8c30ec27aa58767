ghost use Rattle.std.specs.Prelude.{◌≡◌, ◌+◌, ◌<◌, ◌≤◌, [], false, None, Some, length, map, get_or, slice_get, bytes_eq, IfSome, IfOk, OnOk};
ghost use Rattle.std.specs.List.{list_any};
ghost use Rattle.dr_image.specs.Image.{values_of};
ghost use Rattle.dr_dict.specs.TextPlaces.{AreFound};
ghost use Rattle.dr_segment.specs.Columns.{AreFirsts, AddsText};

use dr_base::{Row, Text};
use dr_dict::TextPlaces;
use dr_slots::Sought;
use std::alloc::{AllocError, Global};

// The distinct values of rows in a dimension, in the order in which they first come, and for each row the place of its value
// among them.
#[derive(Drop)]
pub(crate) struct FirstValues<'a> {
    pub(crate) texts: Vec<&'a str>,
    pub(crate) places: Vec<u32>,
}

// The values of rows in a dimension. Each is hashed once, and once more where it is new. It takes a logarithm of the values for each row
// more where the hashes of many are alike.
pub(crate) fn first_values<'a>(
    alloc: Global,
    rows: &'a [Row],
    d: usize,
    empty: &'a Text,
) -> Result<FirstValues<'a>, AllocError>
    requires empty { empty.now ≡ [] }
    requires few { length rows.now ≤ 134217728 }
    ensures value { IfOk result (λ values. AreFirsts (map (λ t. t.now) values.texts.items) values.places.items (values_of d rows.now)) }
    ensures few { IfOk result (λ values. length values.texts.items ≤ length rows.now) }
    ensures long { IfOk result (λ values. length values.places.items ≡ length rows.now) }
{
    let mut texts = Vec::new(alloc);
    let mut found = TextPlaces::new(alloc);
    let mut places = Vec::with_capacity(alloc, rows.len())?;
    for row in rows {
        let place = add_text(&mut texts, &mut found, value(row, d, empty).as_str())?;
        places.push(place)?;
    }
    Ok(FirstValues { texts, places })
}

// The value of a row in a dimension, empty where there are fewer.
fn value<'a>(row: &'a Row, d: usize, empty: &'a Text) -> &'a Text
    requires { empty.now ≡ [] }
    ensures { result.now ≡ get_or row.now.key.dims d [] }
{
    match row.key.dims.as_slice().get(d) {
        Some(text) => text,
        None => empty,
    }
}

// Adds a text where it is new, and answers its place.
fn add_text<'a>(
    texts: &mut Vec<&'a str>,
    found: &mut TextPlaces,
    text: &'a str,
) -> Result<u32, AllocError>
    requires few { length texts.old.items < 134217728 }
    requires found { AreFound found.old (map (λ t. t.now) texts.old.items) }
    ensures added { OnOk result (AddsText (map (λ t. t.now) texts.old.items) (map (λ t. t.now) texts.new.items) text.now) }
    ensures place { IfOk result (λ n. slice_get (map (λ t. t.now) texts.new.items) n ≡ Some text.now) }
    ensures few { OnOk result (length texts.new.items ≤ length texts.old.items + 1) }
    ensures found { OnOk result (AreFound found.new (map (λ t. t.now) texts.new.items)) }
{
    if let Some(place) = place_of(texts.as_slice(), found, text) {
        return Ok(place as u32);
    }
    let place = texts.len();
    found.put(*texts.allocator(), text, place)?;
    texts.push(text)?;
    Ok(place as u32)
}

// The place of a text, where it is among those that are found.
fn place_of(texts: &[&str], found: &TextPlaces, text: &str) -> Option<usize>
    requires { AreFound found.now (map (λ t. t.now) texts.now) }
    ensures some { IfSome result (λ place. slice_get (map (λ t. t.now) texts.now) place ≡ Some text.now) }
    ensures none { result ≡ None → list_any (bytes_eq text.now) (map (λ t. t.now) texts.now) ≡ false }
{
    found.find(text, &SoughtText { texts, text })
}

// A text that is looked for among others.
#[derive(Clone, Copy)]
struct SoughtText<'t, 'a> {
    texts: &'t [&'a str],
    text: &'t str,
}

impl Sought for SoughtText<'_, '_> {
    ghost stands = { λ s place. slice_get (map (λ t. t.now) s.texts.now) place ≡ Some s.text.now };

    #[inline]
    fn stands_at(&self, place: usize) -> bool {
        match self.texts.get(place) {
            Some(text) => *text == self.text,
            None => false,
        }
    }
}
