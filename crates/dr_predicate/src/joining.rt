ghost use Rattle.std.specs.Prelude.{◌≡◌, ◌&&◌, ◌||◌, not, map, string_bytes, ℕ, List, IfOk, OnOk, bytes_eq};
ghost use Rattle.std.specs.List.{list_any};
ghost use Rattle.dr_predicate.specs.Asked.{all_asked, apart_told, is_denied, is_limited};
ghost use Rattle.dr_predicate.specs.Match.{lies_within, some_within};

use crate::apart::Apart;
use crate::asked_texts::AskedTexts;
use crate::bounds::{Bounds, before, behind};
use crate::limits::Limits;
use crate::ranges::{Ranges, put_left};
use crate::value_tests::ValueTests;
use std::alloc::{AllocError, Global};

impl ValueTests {
    // The same, where all that isn't apart is one test: of some texts, where any are asked for, or else of a range, or the denial of
    // texts or of ranges.
    pub(crate) fn joined(self, alloc: Global) -> Result<ValueTests, AllocError>
        ensures { IfOk result (λ t. (value : List ℕ) → all_asked t value ≡ all_asked self value) }
    {
        let ValueTests {
            texts,
            within,
            no_texts,
            no_ranges,
            apart,
        } = self;
        let Some(texts) = texts else {
            return denied(alloc, within, no_texts, no_ranges, apart);
        };
        let limits = Limits {
            within,
            no_texts,
            no_ranges: Ranges::of(alloc, no_ranges)?,
        };
        Ok(ValueTests {
            texts: Some(limits.kept(alloc, texts)?),
            within: Bounds::every_text(),
            no_texts: None,
            no_ranges: Vec::new(alloc),
            apart,
        })
    }
}

// What is asked, where no texts are asked for: a range, or the denial of texts or ranges.
fn denied(
    alloc: Global,
    within: Bounds,
    no_texts: Option<AskedTexts>,
    no_ranges: Vec<Bounds>,
    apart: Apart,
) -> Result<ValueTests, AllocError>
    ensures { IfOk result (λ t. (value : List ℕ) → all_asked t value ≡ (is_limited within no_texts no_ranges.items value && apart_told apart value)) }
{
    if no_texts.is_none() && no_ranges.is_empty() {
        return Ok(ValueTests {
            texts: None,
            within,
            no_texts,
            no_ranges,
            apart,
        });
    }
    let mut no_ranges = no_ranges;
    put_outside(alloc, &mut no_ranges, within)?;
    let no_texts = texts_apart(alloc, &mut no_ranges, no_texts)?;
    Ok(ValueTests {
        texts: None,
        within: Bounds::every_text(),
        no_texts,
        no_ranges,
        apart,
    })
}

// Puts texts that are denied to the ranges that are, where there are any, and gives what then stands apart from them.
fn texts_apart(
    alloc: Global,
    ranges: &mut Vec<Bounds>,
    texts: Option<AskedTexts>,
) -> Result<Option<AskedTexts>, AllocError>
    ensures { IfOk result (λ apart. (value : List ℕ) → (not (is_denied apart value) && not (some_within ranges.new.items value)) ≡ (not (is_denied texts value) && not (some_within ranges.old.items value))) }
{
    if ranges.is_empty() {
        return Ok(texts);
    }
    put_texts(alloc, ranges, &texts)?;
    Ok(None)
}

// Puts what lies outside of a range to some ranges.
fn put_outside(alloc: Global, ranges: &mut Vec<Bounds>, within: Bounds) -> Result<(), AllocError>
    ensures { OnOk result ((value : List ℕ) → some_within ranges.new.items value ≡ (some_within ranges.old.items value || not (lies_within within value))) }
{
    if within.is_open() {
        return Ok(());
    }
    let Bounds {
        lower,
        upper,
        lower_strict,
        upper_strict,
    } = within;
    ranges.push(before(alloc, lower, lower_strict)?)?;
    put_left(ranges, behind(upper, upper_strict))?;
    Ok(())
}

// Puts some texts to some ranges.
fn put_texts(
    alloc: Global,
    ranges: &mut Vec<Bounds>,
    texts: &Option<AskedTexts>,
) -> Result<(), AllocError>
    ensures { OnOk result ((value : List ℕ) → some_within ranges.new.items value ≡ (some_within ranges.old.items value || is_denied texts.now value)) }
{
    match texts {
        None => Ok(()),
        Some(AskedTexts::One(text)) => put_text(alloc, ranges, text.as_str()),
        Some(AskedTexts::Several(texts)) => put_all(alloc, ranges, texts.as_texts()),
    }
}

fn put_all(alloc: Global, ranges: &mut Vec<Bounds>, texts: &[String]) -> Result<(), AllocError>
    ensures { OnOk result ((value : List ℕ) → some_within ranges.new.items value ≡ (some_within ranges.old.items value || list_any (bytes_eq value) (map string_bytes texts.now))) }
{
    for text in texts {
        put_text(alloc, ranges, text.as_str())?;
    }
    Ok(())
}

fn put_text(alloc: Global, ranges: &mut Vec<Bounds>, text: &str) -> Result<(), AllocError>
    ensures { OnOk result ((value : List ℕ) → some_within ranges.new.items value ≡ (some_within ranges.old.items value || bytes_eq value text.now)) }
{
    ranges.push(Bounds::one_text(alloc, text)?)?;
    Ok(())
}
