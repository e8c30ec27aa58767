ghost use Rattle.std.specs.Prelude.{◌≡◌, ◌&&◌, not, false, ℕ, List, IfOk, OnOk};
ghost use Rattle.std.specs.List.{list_all};
ghost use Rattle.dr_base.specs.Told.{told};
ghost use Rattle.dr_patterns.specs.Divided.{fits_divided};
ghost use Rattle.dr_patterns.specs.Each.{fits_all};
ghost use Rattle.dr_patterns.specs.Fitting.{fits_some};
ghost use Rattle.dr_predicate.specs.Asked.{all_asked, all_told, apart_told, asked_at, tests_hold, dimensions_told, is_asked, is_denied};
ghost use Rattle.dr_predicate.specs.Match.{passes, value_at, lies_within, some_within};

use crate::apart::Apart;
use crate::asked_dimension::AskedDimension;
use crate::asked_texts::AskedTexts;
use crate::bounds::Bounds;
use crate::dimension_test::DimensionTest;
use crate::dimension_tests::DimensionTests;
use crate::ranges::Ranges;
use crate::told_dimension::ToldDimension;
use crate::told_test::ToldTest;
use crate::value_test::ValueTest;
use crate::value_tests::ValueTests;
use dr_base::Text;
use dr_dict::TextSet;
use dr_patterns::{DividedPatterns, Patterns, without_implied};
use std::alloc::{AllocError, Global};

impl DimensionTests {
    /// Whether it is known that no row is as asked, whatever its dimension values.
    pub fn never_hold(&self) -> bool
        ensures { result ≡ self.now.never }
    {
        self.never
    }

    /// The tests as they are to be asked: whatever tests of one dimension ask for texts and ranges, they are one test or the denial of
    /// one. Patterns stand apart; of those that no value is to fit those of the usual forms are one test, and each of 32 others or more
    /// is one. The only error is that memory ran out. It takes memory by the bytes of the tests, and expected time by these, the ranges,
    /// the texts that are denied beside them, and the patterns times the logarithm of their number.
    pub fn told(self, alloc: Global) -> Result<Vec<ToldDimension>, AllocError>
        ensures { IfOk result (λ tests. (dims : List (List ℕ)) → dimensions_told dims tests.items ≡ tests_hold dims self) }
    {
        if self.never {
            return no_value(alloc);
        }
        told_of(alloc, self.asked)
    }
}

// One test that no value passes.
fn no_value(alloc: Global) -> Result<Vec<ToldDimension>, AllocError>
    ensures { IfOk result (λ tests. (dims : List (List ℕ)) → dimensions_told dims tests.items ≡ false) }
{
    let mut tests = Vec::new(alloc);
    put(
        &mut tests,
        None,
        ValueTest::Among(TextSet::new(alloc)),
        true,
    )?;
    Ok(tests)
}

fn told_of(alloc: Global, asked: Vec<AskedDimension>) -> Result<Vec<ToldDimension>, AllocError>
    ensures { IfOk result (λ tests. (dims : List (List ℕ)) → dimensions_told dims tests.items ≡ list_all (asked_at dims) asked.items) }
{
    let mut tests = Vec::new(alloc);
    for one in asked {
        put_asked(alloc, &mut tests, one)?;
    }
    Ok(tests)
}

// Puts what is asked of one dimension to some tests.
fn put_asked(
    alloc: Global,
    tests: &mut Vec<ToldDimension>,
    asked: AskedDimension,
) -> Result<(), AllocError>
    ensures { OnOk result ((dims : List (List ℕ)) → dimensions_told dims tests.new.items ≡ (dimensions_told dims tests.old.items && asked_at dims asked)) }
{
    let AskedDimension { place, tests: all } = asked;
    put_joined(alloc, tests, place, all.joined(alloc)?)?;
    Ok(())
}

fn put_joined(
    alloc: Global,
    tests: &mut Vec<ToldDimension>,
    place: Option<usize>,
    joined: ValueTests,
) -> Result<(), AllocError>
    ensures { OnOk result ((dims : List (List ℕ)) → dimensions_told dims tests.new.items ≡ (dimensions_told dims tests.old.items && all_asked joined (value_at place dims))) }
{
    let ValueTests {
        texts,
        within,
        no_texts,
        no_ranges,
        apart,
    } = joined;
    put_texts(tests, place, texts)?;
    put_within(tests, place, within)?;
    put_no_texts(tests, place, no_texts)?;
    put_no_ranges(alloc, tests, place, no_ranges)?;
    put_apart(alloc, tests, place, apart)?;
    Ok(())
}

fn put_texts(
    tests: &mut Vec<ToldDimension>,
    place: Option<usize>,
    texts: Option<AskedTexts>,
) -> Result<(), AllocError>
    ensures { OnOk result ((dims : List (List ℕ)) → dimensions_told dims tests.new.items ≡ (dimensions_told dims tests.old.items && is_asked texts (value_at place dims))) }
{
    match texts {
        Some(texts) => put(tests, place, texts.into_test(), true),
        None => Ok(()),
    }
}

fn put_within(
    tests: &mut Vec<ToldDimension>,
    place: Option<usize>,
    within: Bounds,
) -> Result<(), AllocError>
    ensures { OnOk result ((dims : List (List ℕ)) → dimensions_told dims tests.new.items ≡ (dimensions_told dims tests.old.items && lies_within within (value_at place dims))) }
{
    if within.is_open() {
        return Ok(());
    }
    put(tests, place, ValueTest::Within(within), true)
}

fn put_no_texts(
    tests: &mut Vec<ToldDimension>,
    place: Option<usize>,
    texts: Option<AskedTexts>,
) -> Result<(), AllocError>
    ensures { OnOk result ((dims : List (List ℕ)) → dimensions_told dims tests.new.items ≡ (dimensions_told dims tests.old.items && not (is_denied texts (value_at place dims)))) }
{
    match texts {
        Some(texts) => put(tests, place, texts.into_test(), false),
        None => Ok(()),
    }
}

fn put_no_ranges(
    alloc: Global,
    tests: &mut Vec<ToldDimension>,
    place: Option<usize>,
    ranges: Vec<Bounds>,
) -> Result<(), AllocError>
    ensures { OnOk result ((dims : List (List ℕ)) → dimensions_told dims tests.new.items ≡ (dimensions_told dims tests.old.items && not (some_within ranges.items (value_at place dims)))) }
{
    if ranges.is_empty() {
        return Ok(());
    }
    let ranges = Ranges::of(alloc, ranges)?;
    put(tests, place, ValueTest::WithinOne(ranges), false)
}

fn put_apart(
    alloc: Global,
    tests: &mut Vec<ToldDimension>,
    place: Option<usize>,
    apart: Apart,
) -> Result<(), AllocError>
    ensures { OnOk result ((dims : List (List ℕ)) → dimensions_told dims tests.new.items ≡ (dimensions_told dims tests.old.items && apart_told apart (value_at place dims))) }
{
    let Apart {
        patterns,
        no_patterns,
        others,
    } = apart;
    put_patterns(alloc, tests, place, patterns)?;
    put_no_patterns(alloc, tests, place, no_patterns)?;
    put_others(tests, place, others)?;
    Ok(())
}

// Puts that the value fits each of some patterns: those are tried that others don't imply.
fn put_patterns(
    alloc: Global,
    tests: &mut Vec<ToldDimension>,
    place: Option<usize>,
    patterns: Vec<Text>,
) -> Result<(), AllocError>
    ensures { OnOk result ((dims : List (List ℕ)) → dimensions_told dims tests.new.items ≡ (dimensions_told dims tests.old.items && fits_all patterns.items (value_at place dims))) }
{
    put_each(tests, place, without_implied(alloc, patterns)?)?;
    Ok(())
}

fn put_each(
    tests: &mut Vec<ToldDimension>,
    place: Option<usize>,
    patterns: Vec<Text>,
) -> Result<(), AllocError>
    ensures { OnOk result ((dims : List (List ℕ)) → dimensions_told dims tests.new.items ≡ (dimensions_told dims tests.old.items && fits_all patterns.items (value_at place dims))) }
{
    for pattern in patterns {
        put(tests, place, ValueTest::Like(pattern), true)?;
    }
    Ok(())
}

// Puts that the value fits none of some patterns: those of the usual forms are asked together, and many others are tests of their own.
fn put_no_patterns(
    alloc: Global,
    tests: &mut Vec<ToldDimension>,
    place: Option<usize>,
    patterns: Vec<Text>,
) -> Result<(), AllocError>
    ensures { OnOk result ((dims : List (List ℕ)) → dimensions_told dims tests.new.items ≡ (dimensions_told dims tests.old.items && not (fits_some patterns.items (value_at place dims)))) }
{
    let divided = DividedPatterns::of(alloc, patterns)?;
    put_divided(alloc, tests, place, divided)?;
    Ok(())
}

fn put_divided(
    alloc: Global,
    tests: &mut Vec<ToldDimension>,
    place: Option<usize>,
    patterns: DividedPatterns,
) -> Result<(), AllocError>
    ensures { OnOk result ((dims : List (List ℕ)) → dimensions_told dims tests.new.items ≡ (dimensions_told dims tests.old.items && not (fits_divided patterns (value_at place dims)))) }
{
    let DividedPatterns { together, tried } = patterns;
    put_together(alloc, tests, place, together)?;
    put_tried(tests, place, tried)?;
    Ok(())
}

// Puts that the value fits none of some patterns: one is tried, and more are asked together.
fn put_together(
    alloc: Global,
    tests: &mut Vec<ToldDimension>,
    place: Option<usize>,
    patterns: Vec<Text>,
) -> Result<(), AllocError>
    ensures { OnOk result ((dims : List (List ℕ)) → dimensions_told dims tests.new.items ≡ (dimensions_told dims tests.old.items && not (fits_some patterns.items (value_at place dims)))) }
{
    if patterns.is_empty() {
        return Ok(());
    }
    put(tests, place, test_of(alloc, patterns)?, false)
}

// Puts that the value fits none of some patterns, each of which is a test of its own.
fn put_tried(
    tests: &mut Vec<ToldDimension>,
    place: Option<usize>,
    patterns: Vec<Text>,
) -> Result<(), AllocError>
    ensures { OnOk result ((dims : List (List ℕ)) → dimensions_told dims tests.new.items ≡ (dimensions_told dims tests.old.items && not (fits_some patterns.items (value_at place dims)))) }
{
    for pattern in patterns {
        put(tests, place, ValueTest::Like(pattern), false)?;
    }
    Ok(())
}

// A test that a value passes that fits one of some patterns.
fn test_of(alloc: Global, patterns: Vec<Text>) -> Result<ValueTest, AllocError>
    ensures { IfOk result (λ t. (value : List ℕ) → passes t value ≡ fits_some patterns.items value) }
{
    if patterns.len() == 1 {
        return Ok(ValueTest::Like(patterns[0].copy()?));
    }
    Ok(ValueTest::LikeOne(Patterns::of(alloc, patterns.as_slice())?))
}

fn put_others(
    tests: &mut Vec<ToldDimension>,
    place: Option<usize>,
    others: Vec<ToldTest>,
) -> Result<(), AllocError>
    ensures { OnOk result ((dims : List (List ℕ)) → dimensions_told dims tests.new.items ≡ (dimensions_told dims tests.old.items && all_told others.items (value_at place dims))) }
{
    for other in others {
        put(tests, place, other.test, other.holds)?;
    }
    Ok(())
}

fn put(
    tests: &mut Vec<ToldDimension>,
    place: Option<usize>,
    test: ValueTest,
    holds: bool,
) -> Result<(), AllocError>
    ensures { OnOk result ((dims : List (List ℕ)) → dimensions_told dims tests.new.items ≡ (dimensions_told dims tests.old.items && told holds (passes test (value_at place dims)))) }
{
    let test = DimensionTest { place, test };
    tests.push(ToldDimension { test, holds })?;
    Ok(())
}
