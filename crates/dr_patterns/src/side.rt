ghost use Rattle.std.specs.Prelude.{◌≡◌, reverse};
ghost use Rattle.std.specs.Ordering.{nat_cmp};
ghost use Rattle.std.specs.Cmp.Lexicographic.{slice_cmp};
ghost use Rattle.std.specs.Str.{chars};
ghost use Rattle.dr_patterns.specs.Begun.{begins as begins_of};
ghost use Rattle.dr_patterns.specs.Sides.{seen};

use std::cmp::Ordering;

// A side of a text, from which it is read: from its start by its bytes, from its end by its characters.
#[derive(Clone, Copy)]
pub enum Side {
    Start,
    End,
}

impl Side {
    // Whether a text has another one at this side. It takes no memory, and time by the bytes of that one.
    pub fn has(self, text: &str, edge: &str) -> bool
        ensures { result ≡ begins_of (seen self edge.now) (seen self text.now) }
    {
        match self {
            Side::Start => begins(edge, text),
            Side::End => ends(edge, text),
        }
    }

    // The order of two texts that are read from this side. It takes no memory, and time by the bytes that they have in common there.
    pub fn order(self, text: &str, other: &str) -> Ordering
        ensures { result ≡ slice_cmp nat_cmp (seen self text.now) (seen self other.now) }
    {
        match self {
            Side::Start => text.cmp(other),
            Side::End => order_from_end(text, other),
        }
    }
}

// Whether a text begins with a start.
fn begins(start: &str, text: &str) -> bool
    ensures { result ≡ begins_of start.now text.now }
{
    text.as_bytes().starts_with(start.as_bytes())
}

// Whether a text ends with an end.
fn ends(end: &str, text: &str) -> bool
    ensures { result ≡ begins_of (reverse (chars end.now)) (reverse (chars text.now)) }
{
    match text.strip_suffix(end) {
        Some(_) => true,
        None => false,
    }
}

// The order of two texts by their last characters that differ.
fn order_from_end(text: &str, other: &str) -> Ordering
    ensures { result ≡ slice_cmp nat_cmp (reverse (chars text.now)) (reverse (chars other.now)) }
{
    let mut left = text.chars();
    let mut right = other.chars();
    while let Some(last) = left.next_back() {
        let Some(found) = right.next_back() else {
            return Ordering::Greater;
        };
        if last != found {
            return last.cmp(&found);
        }
    }
    match right.next_back() {
        Some(_) => Ordering::Less,
        None => Ordering::Equal,
    }
}
