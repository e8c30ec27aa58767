ghost use Rattle.std.specs.Prelude.{◌≡◌, ◌++◌, true, IfOk, List, length, map, option_map};
ghost use Rattle.std.specs.List.{All, AllByRecursion, flat_map};
ghost use Rattle.dr_agg.specs.Rollup.{all_rows, rollup_onto, rows_at, AllFit, IsInOrder};
ghost use Rattle.dr_ask.specs.Once.{asked_once};
ghost use Rattle.dr_base.specs.declared.key.Key.{Key};
ghost use Rattle.dr_base.specs.declared.row.Row.{Row};
ghost use Rattle.dr_intervals.specs.Printable.{StartsPrintable};
ghost use Rattle.dr_rollup.specs.Unrolled.{unrolled};
ghost use Rattle.dr_schema.specs.Fits.{FitsSchema};
ghost use Rattle.dr_time.specs.Instant.{IsInstant};
ghost use Rattle.dr_time.specs.Printed.{IsPrintable};
ghost use Rattle.dr_partial.specs.Grouped.{IsSound, in_order};
ghost use Rattle.dr_partial.specs.Partial.{partial, values_at, kinds_in, IsPartial};

use crate::events::add_event_pieces;
use crate::fragments::add_range;
use crate::merging::add_groups;
use crate::rows::{add_pieces, add_rows};
use dr_agg::sort_rows;
use dr_ask::Query;
use dr_base::Row;
use dr_fragment::{SharedEvent, SharedFragment};
use dr_rollup::{Groups, KeyOf};
use dr_schema::Schema;
use std::alloc::{AllocError, Global};
use std::marker::Model;

/// The groups of a query over some rows, by bucket and dimension values, each with what the aggregations fold to. A contract
/// sees them as rows in the order of their keys: the bucket as the time, the values of the query's dimensions, and the folds.
///
/// A row finds its group by hashing the start of its bucket and the values of the query's dimensions: mostly by one look, however many
/// groups there are, and by a logarithm of them more where the hashes of many are alike. It is combined into the group in place.
#[derive(Drop)]
pub struct Partial {
    groups: Groups,
}

impl Model for Partial {
    ghost use Rattle.std.specs.Prelude.{List, map};
    ghost use Rattle.dr_base.specs.declared.row.Row.{Row};
    ghost use Rattle.dr_partial.specs.Grouped.{in_order};

    ghost Value = { List Row };

    ghost view = { λ p. in_order p.groups };
}

impl Partial {
    /// The groups of the rows of some pieces, one piece after another, whose times lie from 0001-01-01 to 9999-12-31. The only
    /// error is that memory ran out. It takes time by the rows and the bytes of their dimension values, mostly, and memory by
    /// the groups. Where the intervals of the query start at times that can be printed, so do the buckets.
    pub fn of_rows(alloc: Global, query: &Query, pieces: &[&[Row]]) -> Result<Partial, AllocError>
        requires { AllByRecursion (λ r. IsInstant r.key.time) (all_rows (map (λ p. p.now) pieces.now)) }
        ensures value { IfOk result (λ p. p ≡ partial (asked_once query.now) (all_rows (map (λ p. p.now) pieces.now))) }
        ensures printable { All StartsPrintable query.now.intervals → IfOk result (λ p. AllByRecursion (λ g. IsPrintable g.key.time) p) }
    {
        let mut groups = Groups::new(alloc);
        let mut group = Vec::new(alloc);
        add_pieces(&mut groups, &mut group, query, pieces)?;
        Ok(Partial { groups })
    }

    /// The groups of events that fit a schema, each as a row of its own, with its time truncated; of some pieces, one piece
    /// after another. Error and cost are those of `of_rows`.
    pub fn of_events(
        alloc: Global,
        query: &Query,
        schema: &Schema,
        pieces: &[&[SharedEvent]],
    ) -> Result<Partial, AllocError>
        requires { AllByRecursion (FitsSchema schema.now) (flat_map (λ p. p.now) pieces.now) }
        ensures value { IfOk result (λ p. p ≡ partial (asked_once query.now) (map (unrolled schema.now) (flat_map (λ p. p.now) pieces.now))) }
        ensures printable { All StartsPrintable query.now.intervals → IfOk result (λ p. AllByRecursion (λ g. IsPrintable g.key.time) p) }
    {
        let mut groups = Groups::new(alloc);
        let mut group = Vec::new(alloc);
        add_event_pieces(&mut groups, &mut group, query, schema, pieces)?;
        Ok(Partial { groups })
    }

    /// The groups of the rows of a range as a snapshot holds it, whose times lie from 0001-01-01 to 9999-12-31: a list of rows, an
    /// image, or the index of an open range. The only error is that memory ran out. It takes what `add_fragment` takes.
    pub fn of_fragment(
        alloc: Global,
        query: &Query,
        fragment: &SharedFragment,
    ) -> Result<Partial, AllocError>
        requires { AllByRecursion (λ r. IsInstant r.key.time) fragment.now.rows }
        ensures value { IfOk result (λ p. p ≡ partial (asked_once query.now) fragment.now.rows) }
        ensures printable { All StartsPrintable query.now.intervals → IfOk result (λ p. AllByRecursion (λ g. IsPrintable g.key.time) p) }
    {
        let none = Partial::of_rows(alloc, query, &[])?;
        let groups = none.add_fragment(query, fragment)?;
        Ok(groups)
    }

    /// The groups of this partial result and of one range more, whose times lie from 0001-01-01 to 9999-12-31: its rows are added to
    /// the groups that there are, or to new ones. The only error is that memory ran out. No group that was there is touched unless
    /// a row is of it.
    ///
    /// Rows of a list and of an open index take one pass as they lie, and cost what `of_rows` costs: none is copied, and none
    /// sorted. An image is read column by column, and no row is made. What a query selects is decided once for each
    /// value of a dictionary that its filter asks of, and once for each run of equal times; the bounds of a bucket
    /// are calculated once for its rows; and a group is found by the numbers of its values, mostly, and its texts are copied
    /// once. An image that lies outside the query's intervals takes time logarithmic in their number. Any other takes time by the
    /// rows, and mostly by the groups and the bytes of their values; and memory by the groups, by a byte a row for each
    /// level of the filter, and by at most 65521 places of groups. Without dimensions and filter it takes no memory but that of
    /// the groups. A filter of many tests ([`is_asked_at_once`](dr_select::is_asked_at_once)) is asked of many rows at once, in whatever
    /// form they lie, which takes what [`select_rows`](dr_select::select_rows) takes of so many; of the rows of several small ranges it
    /// is asked soonest together, by [`add_rows`](Partial::add_rows).
    pub fn add_fragment(
        self,
        query: &Query,
        fragment: &SharedFragment,
    ) -> Result<Partial, AllocError>
        requires own { IsPartial (asked_once query.now) self }
        requires instants { AllByRecursion (λ r. IsInstant r.key.time) fragment.now.rows }
        ensures value { IfOk result (λ p. (a : List Row) → self ≡ partial (asked_once query.now) a → p ≡ partial (asked_once query.now) (a ++ fragment.now.rows)) }
        ensures printable { All StartsPrintable query.now.intervals → AllByRecursion (λ g. IsPrintable g.key.time) self → IfOk result (λ p. AllByRecursion (λ g. IsPrintable g.key.time) p) }
    {
        let _ = self.groups.len();
        let mut groups = self.groups;
        add_range(&mut groups, query, fragment)?;
        Ok(Partial { groups })
    }

    /// The groups of this partial result and of some rows more, whose times lie from 0001-01-01 to 9999-12-31: each row that the query
    /// selects is added to the group that there is, or to a new one. The only error is that memory ran out. It takes what `of_rows`
    /// takes for these rows, of which none is copied; no group that was there is touched unless a row is of it. A filter of many
    /// tests is asked of up to 16,384 of them at once, which takes what [`select_rows`](dr_select::select_rows) takes of so many.
    pub fn add_rows(self, query: &Query, rows: &[Row]) -> Result<Partial, AllocError>
        requires own { IsPartial (asked_once query.now) self }
        requires instants { AllByRecursion (λ r. IsInstant r.key.time) rows.now }
        ensures value { IfOk result (λ p. (a : List Row) → self ≡ partial (asked_once query.now) a → p ≡ partial (asked_once query.now) (a ++ rows.now)) }
        ensures printable { All StartsPrintable query.now.intervals → AllByRecursion (λ g. IsPrintable g.key.time) self → IfOk result (λ p. AllByRecursion (λ g. IsPrintable g.key.time) p) }
    {
        let _ = self.groups.len();
        let mut added = self.groups;
        let mut group = Vec::new(added.allocator());
        add_rows(&mut added, &mut group, query, rows)?;
        Ok(Partial { groups: added })
    }

    /// The groups of this partial result and another one of the same query, those of one key combined: where they are of some
    /// rows and of others, those of all of these rows. The groups of the smaller one are added to the larger. The only error is that
    /// memory ran out. It takes time by the groups of the smaller one and the bytes of their dimension values, mostly; no key
    /// is copied.
    pub fn merge(self, query: &Query, other: Partial) -> Result<Partial, AllocError>
        requires own { IsPartial (asked_once query.now) self }
        requires other { IsPartial (asked_once query.now) other }
        ensures value { IfOk result (λ p. (a b : List Row) → self ≡ partial (asked_once query.now) a → other ≡ partial (asked_once query.now) b → p ≡ partial (asked_once query.now) (a ++ b)) }
        ensures printable { AllByRecursion (λ g. IsPrintable g.key.time) self → AllByRecursion (λ g. IsPrintable g.key.time) other → IfOk result (λ p. AllByRecursion (λ g. IsPrintable g.key.time) p) }
    {
        let own = self.groups.len();
        if own < other.groups.len() {
            return joined(query, other.groups, self.groups);
        }
        joined(query, self.groups, other.groups)
    }

    /// How many groups there are.
    pub fn len(&self) -> usize
        ensures { result ≡ length self.now }
    {
        self.groups.len()
    }

    /// The folds of the group of a bucket that has no dimension values, as each has in a timeseries; none where there is no such
    /// group. The bucket is given by its start in milliseconds since the epoch. It takes constant time, mostly.
    pub fn values_at(&self, bucket: i64) -> Option<&[i64]>
        ensures { option_map (λ v. v.now) result ≡ values_at bucket self.now }
    {
        let group = KeyOf {
            time: bucket,
            dims: &[],
        };
        match self.groups.find(&group) {
            Some(place) => match self.groups.get(place) {
                Some(found) => Some(found.metrics.as_slice()),
                None => None,
            },
            None => None,
        }
    }

    /// The groups in the order of their keys. The only error is that memory ran out. It takes the time that sorting them takes;
    /// keys and folds aren't copied.
    pub fn into_rows(self) -> Result<Vec<Row>, AllocError>
        ensures { IfOk result (λ rows. rows.items ≡ self) }
    {
        let mut rows = self.groups.into_rows();
        sort_rows(&mut rows)?;
        Ok(rows)
    }

    /// The groups in any order: of each key the group that there is. It takes constant time and no memory; nothing is sorted or copied.
    pub fn into_groups(self) -> Vec<Row>
        ensures same { (k : Key) → rows_at k result.items ≡ rows_at k self }
        ensures order { IsInOrder self }
    {
        self.groups.into_rows()
    }
}

// Groups with each of some others added.
fn joined(query: &Query, larger: Groups, smaller: Groups) -> Result<Partial, AllocError>
    requires sound { IsSound (kinds_in (asked_once query.now).aggregations) larger }
    requires fit { AllFit (kinds_in (asked_once query.now).aggregations) smaller }
    ensures { IfOk result (λ p. p ≡ rollup_onto true (kinds_in (asked_once query.now).aggregations) (in_order larger) smaller) }
{
    let mut groups = larger;
    add_groups(&mut groups, query.aggregations.distinct(), smaller)?;
    Ok(Partial { groups })
}
