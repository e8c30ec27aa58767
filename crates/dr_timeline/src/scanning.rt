ghost use Rattle.std.specs.Prelude.{◌≡◌, ◌<◌, None, IfOk, IfSome, length, map};
ghost use Rattle.std.specs.List.{AllByRecursion};
ghost use Rattle.dr_ask.specs.Asked.{asked};
ghost use Rattle.dr_time.specs.Instant.{IsInstant};
ghost use Rattle.dr_timeline.specs.Numbered.{next_place, numbered};
ghost use Rattle.dr_timeline.specs.Scanning.{scan_over};

use crate::snapshot::Snapshot;
use dr_ask::Query;
use dr_cuts::RangeInfo;
use dr_fragment::SharedFragment;
use dr_scan::{Segment, identifier, scan};
use dr_schema::Schema;
use std::alloc::{AllocError, Global};

impl Snapshot {
    /// The text of a scan over the snapshot's own ranges, which are its segments, as JSON in UTF-8 without spaces, keys in
    /// ascending byte order: `[{"columns":[..],"events":[..],"segmentId":".."}]` (Apache Druid documentation, scan queries).
    /// Chunks rise, the ranges of a chunk stand in order, and the open one comes last; the rows of a range are in the order of
    /// their keys. A segment is `dataSource_start_end_version` with the start and the end of its chunk and `v` and the version,
    /// or `r` where it isn't published, then `_` and its place in the chunk, from 0, where that isn't 0. A query that is no scan
    /// has no entries. The only error is that memory ran out.
    ///
    /// It takes time by the ranges, by the rows, with the filter for each, and by the bytes of the text; nothing is read of
    /// ranges behind the limit. Rows are read where they lie; of those of a range that is open, or was sealed and not merged yet, a
    /// list of where each lies is sorted when the range is read. With an order it takes n log n in the rows that are selected,
    /// whose places are kept.
    pub fn scan(&self, query: &Query) -> Result<Vec<u8>, AllocError>
        ensures { IfOk result (λ text. text.items ≡ scan_over (asked query.now) self.now) }
    {
        let alloc = self.stream.allocator();
        let ranges = self.ranges.as_slice();
        let segments = segments(alloc, &self.schema, ranges, self.fragments.as_slice())?;
        scan(alloc, query, &segments)
    }
}

// The ranges with their rows as segments, each with its place in its chunk.
fn segments<'a>(
    alloc: Global,
    schema: &Schema,
    ranges: &[RangeInfo],
    fragments: &'a [SharedFragment],
) -> Result<Vec<Segment<'a>>, AllocError>
    requires each { length fragments.now ≡ length ranges.now }
    requires chunks { AllByRecursion (λ r. IsInstant r.chunk) ranges.now }
    ensures { IfOk result (λ segments. segments.items ≡ numbered schema.now None ranges.now (map (λ f. f.rows) fragments.now)) }
{
    let mut segments = Vec::with_capacity(alloc, ranges.len())?;
    let mut last = None;
    for i in 0..ranges.len() {
        let range = ranges[i];
        let place = next_place(last, range.chunk);
        let identifier = identifier(alloc, schema, range.chunk, range.version, place)?;
        segments.push(Segment {
            identifier,
            fragment: &fragments[i],
        })?;
        last = Some((range.chunk, place));
    }
    Ok(segments)
}

// The place in its chunk of a range of that chunk, from 0, behind one with this chunk and place.
fn next_place(last: Option<(i64, u64)>, chunk: i64) -> u64
    requires { IfSome last (λ l. l.1 < 18446744073709551615) }
    ensures { result ≡ next_place last chunk }
{
    match last {
        None => 0,
        Some((before, place)) => { if before == chunk { place + 1 } else { 0 } }
    }
}
