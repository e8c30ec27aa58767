ghost use Rattle.std.specs.Prelude.{◌≡◌, ◌<◌, ◌≤◌, ◌-◌, ℕ, true, false, [], get_or, set as list_set, length, map, IfOk, OnOk, bytes_eq};
ghost use Rattle.std.specs.List.{list_any};
ghost use Rattle.std.specs.Ordering.{nat_cmp};
ghost use Rattle.std.specs.Cmp.Lexicographic.{slice_cmp};
ghost use Rattle.dr_predicate.specs.Match.{passes};
ghost use Rattle.dr_predicate.specs.Ranges.{begun, unended};
ghost use Rattle.dr_predicate.specs.Within.{lies_within};
ghost use Rattle.dr_rowindex.specs.Orders.{Adds, TextsRise};

use crate::row_order::{RowOrder, rows_counted};
use crate::row_set::RowSet;
use dr_dict::TextSet;
use dr_predicate::{Bounds, ValueTest};
use std::alloc::{AllocError, Global};
use std::cmp::Ordering;
use std::marker::Model;

/// Rows in the order of a text that each of them has, by its UTF-8 bytes, so that those whose texts a range holds stand side by side.
/// A contract sees the text of each row.
#[derive(Drop)]
pub struct TextOrder<'a> {
    texts: Vec<&'a str>,
    order: RowOrder,
}

impl<'a> Model for TextOrder<'a> {
    ghost use Rattle.std.specs.Prelude.{◌≡◌, ℕ, List, length, map};
    ghost use Rattle.dr_rowindex.specs.Orders.{TextsRise};

    ghost Value = { List (List ℕ) };

    ghost view = { λ o. map (λ t. t.now) o.texts.items };

    ghost invariant = { λ o. (length o.order ≡ length o.texts.items) × TextsRise (map (λ t. t.now) o.texts.items) o.order };
}

impl<'a> TextOrder<'a> {
    /// The rows that have these texts, the first of which is that of row 0. The only error is that memory ran out. It takes n log n
    /// in the rows, each with the bytes of its text, and memory by the rows and by a bit for each of them and each 1,024 of them.
    pub fn of(alloc: Global, texts: Vec<&'a str>) -> Result<TextOrder<'a>, AllocError>
        ensures { IfOk result (λ o. o ≡ map (λ t. t.now) texts.entry.items) }
    {
        let mut rows = rows_counted(alloc, texts.len())?;
        let seen = texts.as_slice();
        rows.sort_by(
            |a: &usize, b: &usize| -> Ordering
                ensures { result ≡ slice_cmp nat_cmp (get_or (map (λ t. t.now) seen.entry.now) a.now []) (get_or (map (λ t. t.now) seen.entry.now) b.now []) }
            { text_at(seen, *a).cmp(text_at(seen, *b)) },
        )?;
        let order = RowOrder::of(alloc, rows)?;
        Ok(TextOrder { texts, order })
    }

    /// Adds the rows to a set whose text lies in a range. It takes time by the logarithm of the rows, with the bytes of a text for each
    /// step, and by the rows that are added, but for those in the middle of many, of which 1,024 take what [`RowSet::or`] takes.
    pub fn insert_within(&self, bounds: &Bounds, set: &mut RowSet)
        requires { length set.old ≡ length self.now }
        ensures { Adds (lies_within bounds.now) self.now set.old set.new }
    {
        let texts = self.texts.as_slice();
        let rows = self.order.rows();
        let from = begin_of(texts, rows, bounds);
        let to = end_of(texts, rows, bounds);
        self.order.insert_between(from, to, set);
    }

    /// Adds the rows to a set that have this text. The only error is that memory ran out. It takes what
    /// [`TextOrder::insert_within`] takes.
    pub fn insert_equal(
        &self,
        alloc: Global,
        text: &str,
        set: &mut RowSet,
    ) -> Result<(), AllocError>
        requires { length set.old ≡ length self.now }
        ensures { OnOk result (Adds (λ value. bytes_eq value text.now) self.now set.old set.new) }
    {
        let bounds = Bounds::one_text(alloc, text)?;
        self.insert_within(&bounds, set);
        Ok(())
    }

    /// Adds the rows to a set that have one of some texts. The only error is that memory ran out. It takes what
    /// [`TextOrder::insert_within`] takes for each of them.
    pub fn insert_among(
        &self,
        alloc: Global,
        texts: &TextSet,
        set: &mut RowSet,
    ) -> Result<(), AllocError>
        requires { length set.old ≡ length self.now }
        ensures { OnOk result (Adds (λ value. list_any (bytes_eq value) texts.now) self.now set.old set.new) }
    {
        for text in texts.as_texts() {
            self.insert_equal(alloc, text.as_str(), set)?;
        }
        Ok(())
    }

    /// Adds the rows to a set whose text passes a test, of which each text is asked once. It takes time by the rows, and for each text
    /// that differs as [`ValueTest::passes`].
    pub fn insert_passing(&self, test: &ValueTest, set: &mut RowSet)
        requires { length set.old ≡ length self.now }
        ensures { Adds (passes test.now) self.now set.old set.new }
    {
        let texts = self.texts.as_slice();
        let rows = self.order.rows();
        let mut passed = false;
        for k in 0..rows.len() {
            passed = passes_at(texts, rows, test, k, passed);
            insert_if(set, rows[k], passed);
        }
    }
}

// How many rows, which stand in the order of their texts, have a text that comes before a range.
fn begin_of(texts: &[&str], rows: &[usize], bounds: &Bounds) -> usize
    requires { TextsRise (map (λ t. t.now) texts.now) rows.now }
    ensures within { result ≤ length rows.now }
    ensures before { (j r : ℕ) → j < result → begun (get_or (map (λ t. t.now) texts.now) (get_or rows.now j r) []) bounds.now ≡ false }
    ensures behind { (j r : ℕ) → result ≤ j → j < length rows.now → begun (get_or (map (λ t. t.now) texts.now) (get_or rows.now j r) []) bounds.now ≡ true }
{
    rows.partition_point(|row: &usize| !bounds.begun(text_at(texts, *row)))
}

// How many have one that doesn't come behind it.
fn end_of(texts: &[&str], rows: &[usize], bounds: &Bounds) -> usize
    requires { TextsRise (map (λ t. t.now) texts.now) rows.now }
    ensures within { result ≤ length rows.now }
    ensures before { (j r : ℕ) → j < result → unended (get_or (map (λ t. t.now) texts.now) (get_or rows.now j r) []) bounds.now ≡ true }
    ensures behind { (j r : ℕ) → result ≤ j → j < length rows.now → unended (get_or (map (λ t. t.now) texts.now) (get_or rows.now j r) []) bounds.now ≡ false }
{
    rows.partition_point(|row: &usize| bounds.unended(text_at(texts, *row)))
}

// Whether the text of the row at a place passes a test, where that is known of the row before it.
fn passes_at(texts: &[&str], rows: &[usize], test: &ValueTest, k: usize, before: bool) -> bool
    requires within { k < length rows.now }
    requires before { (r : ℕ) → 0 < k → before ≡ passes test.now (get_or (map (λ t. t.now) texts.now) (get_or rows.now (k - 1) r) []) }
    ensures { (r : ℕ) → result ≡ passes test.now (get_or (map (λ t. t.now) texts.now) (get_or rows.now k r) []) }
{
    let text = text_at(texts, rows[k]);
    if k > 0 && text_at(texts, rows[k - 1]) == text {
        return before;
    }
    test.passes(text)
}

// Adds a row to a set, if it passed.
fn insert_if(set: &mut RowSet, row: usize, passed: bool)
    requires { row < length set.old }
    ensures passed { passed ≡ true → set.new ≡ list_set set.old row true }
    ensures failed { passed ≡ false → set.new ≡ set.old }
{
    if passed {
        set.insert(row);
    }
}

// The text of a row.
fn text_at<'a>(texts: &[&'a str], row: usize) -> &'a str
    ensures { result.now ≡ get_or (map (λ t. t.now) texts.now) row [] }
{
    match texts.get(row) {
        Some(text) => text,
        None => "",
    }
}
