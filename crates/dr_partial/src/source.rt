ghost use Rattle.std.specs.Prelude.{◌≡◌, ◌<◌, ℕ, true, length, map, IfOk};
ghost use Rattle.dr_ask.specs.Asked.{dimensions_by};
ghost use Rattle.dr_ask.specs.Once.{asked_once};
ghost use Rattle.dr_answers.specs.Fold.{reading_in};
ghost use Rattle.dr_answers.specs.Groups.{grouped_values};
ghost use Rattle.dr_answers.specs.Selection.{selects};
ghost use Rattle.dr_image.specs.Table.{row_at};
ghost use Rattle.dr_columns.specs.Read.{read_at};
ghost use Rattle.dr_columns.specs.Rows.{key_at, same_numbers};
ghost use Rattle.dr_columns.specs.Told.{tells};
ghost use Rattle.dr_partial.specs.Partial.{kinds_in};

use crate::selecting::dimensions;
use dr_ask::Query;
use dr_columns::{Numbered, Reading, Selection, columns, readings, rows_selected};
use dr_image::SegmentView;
use std::alloc::{AllocError, Global};

/// The rows of an image as a query reads them: which it selects, what its aggregations read, and the numbers of the dimensions that it
/// groups by.
#[derive(Drop)]
pub struct Source<'a> {
    pub query: &'a Query,
    pub view: &'a SegmentView<'a>,
    pub selection: Selection,
    pub readings: Vec<Reading<'a>>,
    pub columns: Vec<Numbered<'a>>,
    ghost selected: { (i : ℕ) → i < length view.now.times → tells selection i ≡ selects (asked_once query.now) (key_at view.now i) },
    ghost kinds: { map (λ r. r.kind) readings.items ≡ kinds_in (asked_once query.now).aggregations },
    ghost read: { (i : ℕ) → map (λ r. read_at r i) readings.items ≡ map (λ a. reading_in a.kind a.column (row_at view.now i)) (asked_once query.now).aggregations },
    ghost grouped: { (i j : ℕ) → same_numbers columns.items i j ≡ true → grouped_values (dimensions_by (asked_once query.now).shape) (key_at view.now i).dims ≡ grouped_values (dimensions_by (asked_once query.now).shape) (key_at view.now j).dims },
}

impl<'a> Source<'a> {
    /// The only error is that memory ran out.
    pub fn of(
        alloc: Global,
        query: &'a Query,
        view: &'a SegmentView<'a>,
    ) -> Result<Source<'a>, AllocError>
        ensures query { IfOk result (λ s. s.query.now ≡ query.now) }
        ensures view { IfOk result (λ s. s.view.now ≡ view.now) }
    {
        Ok(Source {
            query,
            view,
            selection: rows_selected(alloc, query, view)?,
            readings: readings(alloc, view, query.aggregations.distinct())?,
            columns: columns(alloc, view, dimensions(query))?,
        })
    }
}
