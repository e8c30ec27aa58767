ghost use Rattle.std.specs.Prelude.{IfOk};
ghost use Rattle.std.specs.List.{AllByRecursion};
ghost use Rattle.dr_time.specs.Instant.{IsInstant};

use crate::ranges::{DAY, row};
use crate::scattered::{SUMS, query, values_of};
use dr_ask::Query;
use dr_base::Row;
use dr_partial::Partial;
use std::alloc::{AllocError, Global};
use std::test::Fail;

/// The same of the rows that one of sixteen pairs of a page and a second keeps: those at 0, 2, 3, 4, 6, 7, 8, 10, 12, 14 and 15.
const SUMS_OF_PAIRS: &str =
    r#"{"queryType":"groupBy","dataSource":"w","intervals":["2024-01-01/2024-01-02"],"granularity":"all","filter":{"type":"or","fields":[
    {"type":"and","fields":[{"type":"selector","dimension":"page","value":"A"},{"type":"interval","dimension":"__time","intervals":["2024-01-01T00:00:00Z/2024-01-01T00:00:01Z"]}]},
    {"type":"and","fields":[{"type":"selector","dimension":"page","value":"A"},{"type":"interval","dimension":"__time","intervals":["2024-01-01T00:00:01Z/2024-01-01T00:00:02Z"]}]},
    {"type":"and","fields":[{"type":"selector","dimension":"page","value":"C"},{"type":"interval","dimension":"__time","intervals":["2024-01-01T00:00:02Z/2024-01-01T00:00:03Z"]}]},
    {"type":"and","fields":[{"type":"selector","dimension":"page","value":"A"},{"type":"interval","dimension":"__time","intervals":["2024-01-01T00:00:03Z/2024-01-01T00:00:04Z"]}]},
    {"type":"and","fields":[{"type":"selector","dimension":"page","value":"B"},{"type":"interval","dimension":"__time","intervals":["2024-01-01T00:00:04Z/2024-01-01T00:00:05Z"]}]},
    {"type":"and","fields":[{"type":"selector","dimension":"page","value":"A"},{"type":"interval","dimension":"__time","intervals":["2024-01-01T00:00:05Z/2024-01-01T00:00:06Z"]}]},
    {"type":"and","fields":[{"type":"selector","dimension":"page","value":"A"},{"type":"interval","dimension":"__time","intervals":["2024-01-01T00:00:06Z/2024-01-01T00:00:07Z"]}]},
    {"type":"and","fields":[{"type":"selector","dimension":"page","value":"B"},{"type":"interval","dimension":"__time","intervals":["2024-01-01T00:00:07Z/2024-01-01T00:00:08Z"]}]},
    {"type":"and","fields":[{"type":"selector","dimension":"page","value":"C"},{"type":"interval","dimension":"__time","intervals":["2024-01-01T00:00:08Z/2024-01-01T00:00:09Z"]}]},
    {"type":"and","fields":[{"type":"selector","dimension":"page","value":"C"},{"type":"interval","dimension":"__time","intervals":["2024-01-01T00:00:09Z/2024-01-01T00:00:10Z"]}]},
    {"type":"and","fields":[{"type":"selector","dimension":"page","value":"B"},{"type":"interval","dimension":"__time","intervals":["2024-01-01T00:00:10Z/2024-01-01T00:00:11Z"]}]},
    {"type":"and","fields":[{"type":"selector","dimension":"page","value":"B"},{"type":"interval","dimension":"__time","intervals":["2024-01-01T00:00:11Z/2024-01-01T00:00:12Z"]}]},
    {"type":"and","fields":[{"type":"selector","dimension":"page","value":"A"},{"type":"interval","dimension":"__time","intervals":["2024-01-01T00:00:12Z/2024-01-01T00:00:13Z"]}]},
    {"type":"and","fields":[{"type":"selector","dimension":"page","value":"C"},{"type":"interval","dimension":"__time","intervals":["2024-01-01T00:00:13Z/2024-01-01T00:00:14Z"]}]},
    {"type":"and","fields":[{"type":"selector","dimension":"page","value":"C"},{"type":"interval","dimension":"__time","intervals":["2024-01-01T00:00:14Z/2024-01-01T00:00:15Z"]}]},
    {"type":"and","fields":[{"type":"selector","dimension":"page","value":"A"},{"type":"interval","dimension":"__time","intervals":["2024-01-01T00:00:15Z/2024-01-01T00:00:16Z"]}]}
]},"dimensions":["page"],"aggregations":[{"type":"longSum","name":"added","fieldName":"added"},{"type":"count","name":"cnt"}]}"#;

/// The rows from a place on, up to another.
#[tactic(auto, using(crate::proofs::Pushing::one_pushed))]
fn rows_between(alloc: Global, from: u32, to: u32) -> Result<Vec<Row>, AllocError>
    ensures { IfOk result (λ rows. AllByRecursion (λ row. IsInstant row.key.time) rows.items) }
{
    let mut rows = Vec::new(alloc);
    for place in from..to {
        rows.push(row(alloc, DAY + i64::from(place) * 1000, place)?)?;
    }
    Ok(rows)
}

/// What is found over some rows, and others that are added.
fn with_more(
    alloc: Global,
    query: &Query,
    rows: &[Row],
    more: &[Row],
) -> Result<Partial, AllocError>
    requires rows { AllByRecursion (λ row. IsInstant row.key.time) rows.now }
    requires more { AllByRecursion (λ row. IsInstant row.key.time) more.now }
{
    let groups = Partial::of_rows(alloc, query, &[rows])?;
    groups.add_rows(query, more)
}

/// The sums of 20 rows, of which the last 11 are added.
fn values_with_more(alloc: Global, text: &str) -> Result<Vec<i64>, Fail> {
    let query = query(alloc, text)?;
    let rows = rows_between(alloc, 0, 9)?;
    let more = rows_between(alloc, 9, 20)?;
    values_of(
        alloc,
        with_more(alloc, &query, rows.as_slice(), more.as_slice())?,
    )
}

/// Of the places of the rows that are kept, with how many these are, by page.
#[test]
fn rows_are_added_to_groups(rt: HostRuntime) -> Result<(), Fail> {
    let sums = values_with_more(rt.alloc(), SUMS)?;
    assert!(rt; sums.as_slice() == [63, 7, 70, 7, 57, 6].as_slice());
    let sums = values_with_more(rt.alloc(), SUMS_OF_PAIRS)?;
    assert!(rt; sums.as_slice() == [36, 5, 21, 3, 24, 3].as_slice());
    Ok(())
}
