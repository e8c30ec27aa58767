ghost use Rattle.std.specs.Prelude.{◌≡◌, ◌&&◌, true, ℕ, List, IfOk, OnOk};
ghost use Rattle.dr_patterns.specs.Each.{fits_all};
ghost use Rattle.dr_patterns.specs.Fitting.{fits_text};
ghost use Rattle.dr_patterns.specs.Literals.{IsLiteral, starting, ending, holding};

use crate::kind::{Kind, kind_of};
use crate::side::Side;
use dr_base::Text;
use std::alloc::{AllocError, Global};
use std::cmp::Ordering;

/// Patterns of which a text is to fit each, without those that ask for no more than another one does: a pattern that is there
/// again, and `x%`, `%x` and `%x%`, with an `x` without `%` and `_`, where it is another one's `x` that begins with it, ends with it,
/// or begins with it (and has at most 1,000 bytes). A text that fits all that are left of these forms has each `x` at another place,
/// so it fits no more of them than it has characters, and two. The only error is that memory ran out. It takes memory by the number
/// of patterns, and n log n comparisons of them.
pub fn without_implied(alloc: Global, patterns: Vec<Text>) -> Result<Vec<Text>, AllocError>
    ensures { IfOk result (λ left. (text : List ℕ) → fits_all left.items text ≡ fits_all patterns.items text) }
{
    let mut sorted = patterns;
    sorted.sort_unstable_by(|a: &Text, b: &Text| order(a.as_str(), b.as_str()));
    Ok(without_neighbours(alloc, sorted)?)
}

// The order in which patterns of one kind stand together, each behind those that begin with it, or end with it.
fn order(pattern: &str, other: &str) -> Ordering {
    let kinds = rank(pattern).cmp(&rank(other));
    kinds.then(side_of(pattern).order(letters_of(other), letters_of(pattern)))
}

fn rank(pattern: &str) -> u8 {
    match kind_of(pattern) {
        Kind::Whole(_) => 0,
        Kind::Start(_) => 1,
        Kind::End(_) => 2,
        Kind::Part(_) => 3,
        Kind::Other => 4,
    }
}

// The side from which patterns of its kind are read.
fn side_of(pattern: &str) -> Side {
    match kind_of(pattern) {
        Kind::End(_) => Side::End,
        _ => Side::Start,
    }
}

// What is to stand in a text, or a whole pattern that asks for something else.
fn letters_of(pattern: &str) -> &str {
    match kind_of(pattern) {
        Kind::Whole(word) => word,
        Kind::Start(start) => start,
        Kind::End(end) => end,
        Kind::Part(part) => part,
        Kind::Other => pattern,
    }
}

// Patterns without those that the last one that is kept before them implies.
fn without_neighbours(alloc: Global, patterns: Vec<Text>) -> Result<Vec<Text>, AllocError>
    ensures { IfOk result (λ left. (text : List ℕ) → fits_all left.items text ≡ fits_all patterns.items text) }
{
    let mut kept = Vec::new(alloc);
    for pattern in patterns {
        add(&mut kept, pattern)?;
    }
    Ok(kept)
}

// Adds a pattern, unless the last one that is there implies it.
fn add(kept: &mut Vec<Text>, pattern: Text) -> Result<(), AllocError>
    ensures { OnOk result ((text : List ℕ) → fits_all kept.new.items text ≡ (fits_all kept.old.items text && fits_text pattern text)) }
{
    if last_implies(kept.as_slice(), pattern.as_str()) {
        return Ok(());
    }
    kept.push(pattern)?;
    Ok(())
}

// Whether it is known that a text that fits each of some patterns fits another one.
fn last_implies(kept: &[Text], other: &str) -> bool
    ensures { result ≡ true → (text : List ℕ) → fits_all kept.now text ≡ true → fits_text other.now text ≡ true }
{
    let len = kept.len();
    if len == 0 {
        return false;
    }
    implies(kept[len - 1].as_str(), other)
}

// Whether it is known that a text that fits a pattern fits another one.
fn implies(pattern: &str, other: &str) -> bool
    ensures { result ≡ true → (text : List ℕ) → fits_text pattern.now text ≡ true → fits_text other.now text ≡ true }
{
    match kind_of(pattern) {
        Kind::Start(start) => start_implies(start, other),
        Kind::End(end) => end_implies(end, other),
        Kind::Part(part) => part_implies(part, other),
        _ => pattern == other,
    }
}

fn start_implies(start: &str, other: &str) -> bool
    requires { IsLiteral start.now }
    ensures { result ≡ true → (text : List ℕ) → fits_text (starting start.now) text ≡ true → fits_text other.now text ≡ true }
{
    match kind_of(other) {
        Kind::Start(shorter) => Side::Start.has(start, shorter),
        _ => false,
    }
}

fn end_implies(end: &str, other: &str) -> bool
    requires { IsLiteral end.now }
    ensures { result ≡ true → (text : List ℕ) → fits_text (ending end.now) text ≡ true → fits_text other.now text ≡ true }
{
    match kind_of(other) {
        Kind::End(shorter) => Side::End.has(end, shorter),
        _ => false,
    }
}

fn part_implies(part: &str, other: &str) -> bool
    requires { IsLiteral part.now }
    ensures { result ≡ true → (text : List ℕ) → fits_text (holding part.now) text ≡ true → fits_text other.now text ≡ true }
{
    match kind_of(other) {
        Kind::Part(shorter) => Side::Start.has(part, shorter),
        _ => false,
    }
}
