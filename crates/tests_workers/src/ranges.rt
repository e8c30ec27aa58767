ghost use Rattle.std.specs.Prelude.{◌≡◌, ◌<◌, IfOk};
ghost use Rattle.std.specs.List.{AllByRecursion};
ghost use Rattle.dr_time.specs.Instant.{IsInstant};
ghost use Rattle.dr_workers.specs.Shared.{rows_of};

use dr_ask::Query;
use dr_base::{Key, Numbers, Row, Text, Texts};
use dr_fragment::{Fragment, SharedFragment};
use dr_partial::Partial;
use std::alloc::{AllocError, Global};
use std::marker::Model;
use std::test::Fail;

/// The start of the day of the rows.
pub const DAY: i64 = 1_704_067_200_000;

/// The pages of the rows.
const PAGES: [&str; 3] = ["A", "B", "C"];

/// Ranges whose times are instants. A contract sees the list of them.
#[derive(Drop)]
pub struct Ranges(Vec<SharedFragment>);

impl Model for Ranges {
    ghost use Rattle.std.specs.Prelude.{List};
    ghost use Rattle.std.specs.List.{AllByRecursion};
    ghost use Rattle.dr_fragment.specs.declared.fragment.Fragment.{Fragment};
    ghost use Rattle.dr_time.specs.Instant.{IsInstant};
    ghost use Rattle.dr_workers.specs.Shared.{rows_of};

    ghost Value = { List Fragment };

    ghost view = { λ r. r.0.items };

    ghost invariant = { λ r. AllByRecursion (λ row. IsInstant row.key.time) (rows_of r.0.items) };
}

impl Ranges {
    /// So many ranges of one row each, one second after another, whose pages come in turn; what was added is the place of the range.
    pub fn new(alloc: Global, count: u32) -> Result<Ranges, Fail> {
        let mut ranges = Ranges(Vec::new(alloc));
        for i in 0..count {
            let range = range_of(alloc, i)?;
            ranges.push(range)?;
        }
        Ok(ranges)
    }

    #[tactic(auto, using(crate::proofs::Pushing::all_pushed))]
    fn push(&mut self, range: SharedFragment) -> Result<(), AllocError>
        requires { AllByRecursion (λ row. IsInstant row.key.time) range.rows }
    {
        self.0.push(range)?;
        Ok(())
    }

    pub fn as_slice(&self) -> &[SharedFragment]
        ensures { result.now ≡ self.now }
    {
        self.0.as_slice()
    }
}

/// What is found over each range alone.
pub fn each(
    alloc: Global,
    query: &Query,
    ranges: &[SharedFragment],
) -> Result<Vec<Partial>, AllocError>
    requires { AllByRecursion (λ row. IsInstant row.key.time) (rows_of ranges.now) }
{
    let mut found = Vec::new(alloc);
    for i in 0..ranges.len() {
        found.push(Partial::of_fragment(alloc, query, &ranges[i])?)?;
    }
    Ok(found)
}

// The range of that place.
fn range_of(alloc: Global, place: u32) -> Result<SharedFragment, Fail>
    ensures { IfOk result (λ range. AllByRecursion (λ row. IsInstant row.key.time) range.rows) }
{
    let row = row(alloc, DAY + i64::from(place) * 1000, place)?;
    let mut rows = Vec::new(alloc);
    rows.push(row)?;
    let from = place as usize;
    let fragment = Fragment::of_rows(DAY, from, from.saturating_add(1), rows);
    Ok(SharedFragment::new(alloc, fragment)?)
}

/// The row of that place, at a time.
pub fn row(alloc: Global, time: i64, place: u32) -> Result<Row, AllocError>
    ensures { IfOk result (λ row. row.key.time ≡ time) }
{
    let mut dims = Texts::new(alloc);
    dims.push(Text::from_str(alloc, PAGES[place as usize % 3])?)?;
    let mut metrics = Numbers::new(alloc);
    metrics.push(i64::from(place))?;
    Ok(Row {
        key: Key { time, dims },
        metrics,
    })
}
