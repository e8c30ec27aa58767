ghost use Rattle.std.specs.Prelude.{◌≡◌, ◌||◌, ◌&&◌, not, ℕ, List, IfOk, OnOk};
ghost use Rattle.dr_predicate.specs.Ranges.{start_order as start_order_of, ends_within as ends_within_of, with_outer, begun, unended, lies_open, Rise, Reach};
ghost use Rattle.dr_predicate.specs.Within.{lies_within, some_within};

use crate::bounds::{
    Bounds, before, behind, ends_before, not_after, not_before, start_strict, start_text,
};
use std::alloc::{AllocError, Global};
use std::cmp::Ordering;
use std::marker::Model;

/// Ranges of texts in the order of their lower ends, without those that lie within one before them, so that the last one that has
/// begun tells of all of them whether one holds a text. A contract sees the list of them.
#[derive(Drop)]
pub struct Ranges(Vec<Bounds>);

impl Model for Ranges {
    ghost use Rattle.std.specs.Prelude.{List};
    ghost use Rattle.dr_predicate.specs.declared.bounds.Bounds.{Bounds};
    ghost use Rattle.dr_predicate.specs.Ranges.{Rise, Reach};

    ghost Value = { List Bounds };

    ghost view = { λ r. r.0.items };

    ghost invariant = { λ r. Rise r.0.items × Reach r.0.items };
}

impl Ranges {
    // Ranges that hold the texts that these hold. They are sorted once; where they are some lists one after another that are in
    // order each, as what was joined before is, these are merged.
    pub(crate) fn of(alloc: Global, bounds: Vec<Bounds>) -> Result<Ranges, AllocError>
        ensures { IfOk result (λ r. (text : List ℕ) → some_within r text ≡ some_within bounds.items text) }
    {
        let mut sorted = bounds;
        sorted.sort_by(
            |a: &Bounds, b: &Bounds| -> Ordering
                ensures { result ≡ start_order_of a.now b.now }
            { start_order(a, b) },
        )?;
        Ok(Ranges(outer(alloc, sorted)?))
    }

    // Equal ranges.
    pub(crate) fn copy(&self, alloc: Global) -> Result<Ranges, AllocError>
        ensures { IfOk result (λ r. r ≡ self.now) }
    {
        Ok(Ranges(copied(alloc, self.0.as_slice())?))
    }

    // The ranges.
    pub(crate) fn into_bounds(self) -> Vec<Bounds>
        ensures { result.items ≡ self }
    {
        self.0
    }

    // Ranges that hold the texts that none of these holds: what lies before the first, between each and the next, and behind the
    // last.
    pub(crate) fn into_gaps(self, alloc: Global) -> Result<Vec<Bounds>, AllocError>
        ensures { IfOk result (λ gaps. (text : List ℕ) → some_within gaps.items text ≡ not (some_within self text)) }
    {
        gaps_of(alloc, self.0)
    }

    /// The ranges. It takes constant time.
    pub fn as_bounds(&self) -> &[Bounds]
        ensures { result.now ≡ self.now }
    {
        self.0.as_slice()
    }

    /// Whether a text lies in one of the ranges. It takes no memory, and time by the bytes of the text times the logarithm of the
    /// number of ranges.
    pub fn hold(&self, text: &str) -> bool
        ensures { result ≡ some_within self.now text.now }
    {
        let place = self.0.partition_point(|bounds| not_before(
            &bounds.lower,
            bounds.lower_strict,
            text,
        ));
        if place == 0 {
            return false;
        }
        let last = &self.0[place - 1];
        not_after(&last.upper, last.upper_strict, text)
    }
}

// What lies before the first of some ranges, between each and the next, and behind the last.
fn gaps_of(alloc: Global, ranges: Vec<Bounds>) -> Result<Vec<Bounds>, AllocError>
    requires rise { Rise ranges.items }
    requires reach { Reach ranges.items }
    ensures { IfOk result (λ gaps. (text : List ℕ) → some_within gaps.items text ≡ not (some_within ranges.items text)) }
{
    let mut gaps = Vec::new(alloc);
    let mut left = Some(Bounds::every_text());
    for bounds in ranges {
        left = put_gap(alloc, &mut gaps, left, bounds)?;
    }
    put_left(&mut gaps, left)?;
    Ok(gaps)
}

// Puts what lies in a range, where there is one, and before another one, behind some ranges, and gives what lies behind that other
// one.
fn put_gap(
    alloc: Global,
    gaps: &mut Vec<Bounds>,
    left: Option<Bounds>,
    next: Bounds,
) -> Result<Option<Bounds>, AllocError>
    ensures gaps { OnOk result ((text : List ℕ) → some_within gaps.new.items text ≡ (some_within gaps.old.items text || (lies_open left text && not (begun text next)))) }
    ensures left { IfOk result (λ left. (text : List ℕ) → lies_open left text ≡ not (unended text next)) }
{
    let Bounds {
        lower,
        upper,
        lower_strict,
        upper_strict,
    } = next;
    put_shared(gaps, left, before(alloc, lower, lower_strict)?)?;
    Ok(behind(upper, upper_strict))
}

// Puts what lies in a range, where there is one, and in another one, behind some ranges.
fn put_shared(gaps: &mut Vec<Bounds>, left: Option<Bounds>, other: Bounds) -> Result<(), AllocError>
    ensures { OnOk result ((text : List ℕ) → some_within gaps.new.items text ≡ (some_within gaps.old.items text || (lies_open left text && lies_within other text))) }
{
    let Some(mut gap) = left else {
        return Ok(());
    };
    gap.narrow(other);
    gaps.push(gap)?;
    Ok(())
}

// Puts a range, where there is one, behind some ranges.
pub(crate) fn put_left(gaps: &mut Vec<Bounds>, left: Option<Bounds>) -> Result<(), AllocError>
    ensures { OnOk result ((text : List ℕ) → some_within gaps.new.items text ≡ (some_within gaps.old.items text || lies_open left text)) }
{
    let Some(gap) = left else {
        return Ok(());
    };
    gaps.push(gap)?;
    Ok(())
}

fn copied(alloc: Global, bounds: &[Bounds]) -> Result<Vec<Bounds>, AllocError>
    ensures { IfOk result (λ copy. copy.items ≡ bounds.now) }
{
    let mut copy = Vec::with_capacity(alloc, bounds.len())?;
    for one in bounds {
        copy.push(one.copy()?)?;
    }
    Ok(copy)
}

fn start_order(a: &Bounds, b: &Bounds) -> Ordering
    ensures { result ≡ start_order_of a.now b.now }
{
    let texts = start_text(&a.lower).cmp(start_text(&b.lower));
    let a_strict = start_strict(&a.lower, a.lower_strict);
    let b_strict = start_strict(&b.lower, b.lower_strict);
    texts.then(a_strict.cmp(&b_strict))
}

// Those of some ranges that end behind all that stand before them: each of the others lies within one before it.
fn outer(alloc: Global, sorted: Vec<Bounds>) -> Result<Vec<Bounds>, AllocError>
    requires { Rise sorted.items }
    ensures rise { IfOk result (λ r. Rise r.items) }
    ensures reach { IfOk result (λ r. Reach r.items) }
    ensures same { IfOk result (λ r. (text : List ℕ) → some_within r.items text ≡ some_within sorted.items text) }
{
    let mut outer = Vec::new(alloc);
    for bounds in sorted {
        add_outer(&mut outer, bounds)?;
    }
    Ok(outer)
}

// Adds a range, if it ends behind those that are there.
fn add_outer(outer: &mut Vec<Bounds>, bounds: Bounds) -> Result<(), AllocError>
    ensures { OnOk result (outer.new.items ≡ with_outer outer.old.items bounds) }
{
    if ends_within(outer.as_slice(), &bounds) {
        return Ok(());
    }
    outer.push(bounds)?;
    Ok(())
}

// Whether a range ends no later than the last of some ranges.
fn ends_within(outer: &[Bounds], bounds: &Bounds) -> bool
    ensures { result ≡ ends_within_of outer.now bounds.now }
{
    let len = outer.len();
    if len == 0 {
        return false;
    }
    let last = &outer[len - 1];
    ends_before(&bounds.upper, bounds.upper_strict, &last.upper)
}
