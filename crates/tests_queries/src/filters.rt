use crate::indexes::filled;
use crate::rows::{are_kept, is_kept, lent, row_at, rows_of_table};
use dr_base::Row;
use dr_filter::{Filter, FilterError};
use dr_rollup::{Arrived, OpenIndex};
use dr_schema::Schema;
use dr_select::{select, select_arrived, select_rows};
use dr_spec::IngestSpec;
use serde_json::Value;
use std::alloc::{AllocError, Global};
use std::test::Fail;

const SPEC: &[u8] =
    br#"{"dataSchema":{"dataSource":"w","timestampSpec":{"column":"t","format":"iso"},"dimensionsSpec":{"dimensions":["page","lang"]},"metricsSpec":[{"type":"count","name":"n"}],"granularitySpec":{"queryGranularity":"none","rollup":false}}}"#;

// The filter of a value, in a block of its own.
fn filter_of(alloc: Global, schema: &Schema, filter: &Value) -> Result<Box<Filter>, FilterError> {
    let filter = Filter::parse(alloc, filter, schema)?;
    Ok(Box::new(alloc, filter)?)
}

// The number of the refusal of a filter, 0 where it is none.
fn refusal(alloc: Global, schema: &Schema, filter: &str) -> Result<u16, Fail> {
    let value = Value::from_str(alloc, filter)?;
    Ok(refusal_of(alloc, schema, &value))
}

fn refusal_of(alloc: Global, schema: &Schema, filter: &Value) -> u16 {
    match filter_of(alloc, schema, filter) {
        Ok(_) => 0,
        Err(error) => error.number(),
    }
}

const REFUSED: [(&str, u16); 12] = [
    (r#"{"type":"selector","dimension":"n","value":"1"}"#, 61),
    (
        r#"{"type":"selector","dimension":"__time","value":"1"}"#,
        61,
    ),
    (r#"{"type":"selector","dimension":"page","value":true}"#, 3),
    (r#"{"type":"in","dimension":"page"}"#, 2),
    (
        r#"{"type":"bound","dimension":"page","upper":"Äb","upperStrict":"true"}"#,
        3,
    ),
    (
        r#"{"type":"bound","dimension":"page","ordering":"numeric"}"#,
        60,
    ),
    (
        r#"{"type":"like","dimension":"page","pattern":"%b","escape":"\\"}"#,
        60,
    ),
    (
        r#"{"type":"interval","dimension":"page","intervals":[]}"#,
        60,
    ),
    (
        r#"{"type":"interval","dimension":"__time","intervals":["x"]}"#,
        12,
    ),
    (r#"{"type":"regex","dimension":"page"}"#, 60),
    (r#"{"type":"and","fields":[{}]}"#, 2),
    (r#"[]"#, 3),
];

// Which place in the list has another refusal, the length of the list where none has.
fn first_other_refusal(alloc: Global) -> Result<usize, Fail> {
    let spec = IngestSpec::parse(alloc, SPEC)?;
    for (place, (filter, number)) in REFUSED.iter().enumerate() {
        if refusal(alloc, spec.schema(), filter)? != *number {
            return Ok(place);
        }
    }
    Ok(REFUSED.len())
}

#[test]
fn filters_are_refused_by_their_table(rt: HostRuntime) -> Result<(), Fail> {
    assert!(rt; first_other_refusal(rt.alloc())? == 12);
    Ok(())
}

// Nine pairs of a page and a language.
const PAIRS: &str = r#"{"type":"or","fields":[
    {"type":"and","fields":[{"type":"selector","dimension":"page","value":"Äb"},{"type":"selector","dimension":"lang","value":""}]},
    {"type":"and","fields":[{"type":"selector","dimension":"page","value":"a"},{"type":"selector","dimension":"lang","value":"de"}]},
    {"type":"and","fields":[{"type":"selector","dimension":"page","value":"b"},{"type":"selector","dimension":"lang","value":"de"}]},
    {"type":"and","fields":[{"type":"selector","dimension":"page","value":""},{"type":"selector","dimension":"lang","value":"de"}]},
    {"type":"and","fields":[{"type":"selector","dimension":"page","value":"x"},{"type":"selector","dimension":"lang","value":"Äb"}]},
    {"type":"and","fields":[{"type":"selector","dimension":"page","value":"7"},{"type":"selector","dimension":"lang","value":"en"}]},
    {"type":"and","fields":[{"type":"selector","dimension":"page","value":"Äb"},{"type":"selector","dimension":"lang","value":"de"}]},
    {"type":"and","fields":[{"type":"selector","dimension":"page","value":"b"},{"type":"selector","dimension":"lang","value":"en"}]},
    {"type":"and","fields":[{"type":"selector","dimension":"page","value":"zz"},{"type":"selector","dimension":"lang","value":""}]}
]}"#;

// Nine tests of the page by each kind of filter, each beside a test of the language.
const KINDS: &str = r#"{"type":"and","fields":[
    {"type":"or","fields":[{"type":"in","dimension":"page","values":["a","b","x","Äb"]},{"type":"in","dimension":"lang","values":["de","Äb"]}]},
    {"type":"or","fields":[{"type":"bound","dimension":"page","lower":"b"},{"type":"selector","dimension":"lang","value":""}]},
    {"type":"or","fields":[{"type":"bound","dimension":"page","upper":"x","upperStrict":true},{"type":"in","dimension":"lang","values":["en","de","fr"]}]},
    {"type":"or","fields":[{"type":"bound","dimension":"page","lower":"a","lowerStrict":true,"upper":"b"},{"type":"bound","dimension":"page","lower":"x"},{"type":"bound","dimension":"lang","lower":"d","upper":"dz"}]},
    {"type":"or","fields":[{"type":"like","dimension":"page","pattern":"%Ä%"},{"type":"like","dimension":"page","pattern":"_"},{"type":"selector","dimension":"lang","value":"de"}]},
    {"type":"or","fields":[{"type":"not","field":{"type":"selector","dimension":"page","value":"x"}},{"type":"selector","dimension":"lang","value":"de"}]},
    {"type":"or","fields":[{"type":"not","field":{"type":"in","dimension":"page","values":["","7"]}},{"type":"selector","dimension":"lang","value":"Äb"}]},
    {"type":"or","fields":[{"type":"not","field":{"type":"like","dimension":"page","pattern":"b%"}},{"type":"in","dimension":"lang","values":["","en"]}]},
    {"type":"or","fields":[{"type":"not","field":{"type":"bound","dimension":"page","lower":"c","upper":"y"}},{"type":"not","field":{"type":"selector","dimension":"lang","value":"en"}}]}
]}"#;

// Eight intervals, each with a language.
const TIMES: &str = r#"{"type":"or","fields":[
    {"type":"and","fields":[{"type":"interval","dimension":"__time","intervals":["2024-01-01/2024-01-02"]},{"type":"selector","dimension":"lang","value":"de"}]},
    {"type":"and","fields":[{"type":"interval","dimension":"__time","intervals":["2023-12-31/2024-01-01"]},{"type":"selector","dimension":"lang","value":"Äb"}]},
    {"type":"and","fields":[{"type":"interval","dimension":"__time","intervals":["2024-01-02/2024-01-03"]},{"type":"selector","dimension":"lang","value":""}]},
    {"type":"and","fields":[{"type":"interval","dimension":"__time","intervals":["2024-01-01T00:00:00.001Z/2024-01-02"]},{"type":"selector","dimension":"lang","value":"en"}]},
    {"type":"and","fields":[{"type":"interval","dimension":"__time","intervals":["2023-12-30/2023-12-31"]},{"type":"selector","dimension":"lang","value":"de"}]},
    {"type":"and","fields":[{"type":"interval","dimension":"__time","intervals":["2024-01-01/2024-01-01T00:00:00.002Z"]},{"type":"selector","dimension":"lang","value":""}]},
    {"type":"and","fields":[{"type":"interval","dimension":"__time","intervals":["2023-12-31/2024-01-01","2024-01-02/2024-01-02T12:00:00Z"]},{"type":"selector","dimension":"lang","value":"en"}]},
    {"type":"and","fields":[{"type":"interval","dimension":"__time","intervals":["2024-01-01/2024-01-01T00:00:01Z"]},{"type":"selector","dimension":"lang","value":"fr"}]}
]}"#;

// Filters, and which of the eight rows each keeps: that of the first row has the highest bit.
const KEPT: [(&str, u8); 29] = [
    (
        r#"{"type":"selector","dimension":"page","value":"Äb"}"#,
        0b1000_1000,
    ),
    (
        r#"{"type":"selector","dimension":"page","value":"b"}"#,
        0b0100_0000,
    ),
    (
        r#"{"type":"selector","dimension":"lang","value":null}"#,
        0b1000_0100,
    ),
    (r#"{"type":"selector","dimension":"nope"}"#, 0b1111_1111),
    (
        r#"{"type":"not","field":{"type":"selector","dimension":"nope","value":""}}"#,
        0b0000_0000,
    ),
    (
        r#"{"type":"in","dimension":"page","values":["x","Äb",7]}"#,
        0b1001_1001,
    ),
    (
        r#"{"type":"in","dimension":"lang","values":["x",null]}"#,
        0b1000_0100,
    ),
    (
        r#"{"type":"in","dimension":"page","values":[]}"#,
        0b0000_0000,
    ),
    (
        r#"{"type":"bound","dimension":"page","lower":"a"}"#,
        0b1101_1110,
    ),
    (
        r#"{"type":"bound","dimension":"page","upper":"a"}"#,
        0b0010_0101,
    ),
    (
        r#"{"type":"bound","dimension":"page","lower":"Äb","upper":"Äb"}"#,
        0b1000_1000,
    ),
    (
        r#"{"type":"bound","dimension":"page","lower":"Äb","lowerStrict":true}"#,
        0b0000_0010,
    ),
    (
        r#"{"type":"bound","dimension":"page","upper":"Äb","upperStrict":true}"#,
        0b0111_0101,
    ),
    (
        r#"{"type":"bound","dimension":"page","ordering":{"type":"lexicographic"}}"#,
        0b1111_1111,
    ),
    (
        r#"{"type":"like","dimension":"page","pattern":"_b"}"#,
        0b1000_1000,
    ),
    (
        r#"{"type":"like","dimension":"page","pattern":"__b"}"#,
        0b0000_0000,
    ),
    (
        r#"{"type":"like","dimension":"page","pattern":"%"}"#,
        0b1111_1111,
    ),
    (
        r#"{"type":"like","dimension":"page","pattern":"%Ä%_%"}"#,
        0b1000_1010,
    ),
    (
        r#"{"type":"like","dimension":"page","pattern":"%Ä_%_"}"#,
        0b0000_0010,
    ),
    (
        r#"{"type":"like","dimension":"lang","pattern":"%%"}"#,
        0b1111_1111,
    ),
    (
        r#"{"type":"interval","dimension":"__time","intervals":"2024-01-01/2024-01-02"}"#,
        0b1100_1110,
    ),
    (
        r#"{"type":"interval","dimension":"__time","intervals":["2023-12-31/2024-01-01"]}"#,
        0b0010_0001,
    ),
    (r#"{"type":"and","fields":[]}"#, 0b1111_1111),
    (r#"{"type":"or","fields":[]}"#, 0b0000_0000),
    (
        r#"{"type":"or","fields":[{"type":"and","fields":[]},{"type":"or","fields":[]}]}"#,
        0b1111_1111,
    ),
    (
        r#"{"type":"and","fields":[{"type":"and","fields":[]},{"type":"or","fields":[]}]}"#,
        0b0000_0000,
    ),
    (PAIRS, 0b1110_0000),
    (KINDS, 0b0100_1010),
    (TIMES, 0b1001_1111),
];

fn read(alloc: Global, schema: &Schema, filter: &str) -> Result<Box<Filter>, Fail> {
    let value = Value::from_str(alloc, filter)?;
    Ok(filter_of(alloc, schema, &value)?)
}

// Whether a filter keeps these rows, each asked by itself.
fn keeps_each(filter: &Filter, rows: &[Row], kept: u8) -> bool {
    for (place, row) in rows.iter().enumerate() {
        let passed = filter.matches(row.key.time, row.key.dims.as_slice());
        if passed != is_kept(kept, row_at(place)) {
            return false;
        }
    }
    true
}

// Whether it keeps these rows, all of them asked at once.
fn keeps_rows(alloc: Global, filter: &Filter, rows: &[Row], kept: u8) -> Result<bool, AllocError> {
    let keys = lent(alloc, rows)?;
    let of_keys = select(alloc, filter, keys.as_slice())?;
    let of_rows = select_rows(alloc, filter, rows)?;
    Ok(are_kept(&of_keys, 0, rows.len(), kept) && are_kept(&of_rows, 0, rows.len(), kept))
}

// Whether it keeps the rows of an index from the 70th on, all but the last 20.
fn keeps_arrived(
    alloc: Global,
    filter: &Filter,
    rows: &Arrived<'_>,
    kept: u8,
) -> Result<bool, AllocError> {
    let to = rows.len().saturating_sub(20);
    let from = to.min(70);
    let set = select_arrived(alloc, filter, rows, from, to)?;
    Ok(are_kept(&set, from, to - from, kept))
}

// Whether it keeps them in each of these ways.
fn keeps(
    alloc: Global,
    filter: &Filter,
    rows: &[Row],
    index: &OpenIndex,
    kept: u8,
) -> Result<bool, AllocError> {
    if !keeps_each(filter, rows, kept) {
        return Ok(false);
    }
    if !keeps_rows(alloc, filter, rows, kept)? {
        return Ok(false);
    }
    keeps_arrived(alloc, filter, &index.arrived(), kept)
}

fn keeps_by(
    alloc: Global,
    schema: &Schema,
    filter: &str,
    rows: &[Row],
    index: &OpenIndex,
    kept: u8,
) -> Result<bool, Fail> {
    let filter = read(alloc, schema, filter)?;
    Ok(keeps(alloc, &filter, rows, index, kept)?)
}

// Which place in the list keeps other rows, the length of the list where none does.
fn first_other(
    alloc: Global,
    schema: &Schema,
    rows: &[Row],
    index: &OpenIndex,
) -> Result<usize, Fail> {
    for (place, (filter, kept)) in KEPT.iter().enumerate() {
        if !keeps_by(alloc, schema, filter, rows, index, *kept)? {
            return Ok(place);
        }
    }
    Ok(KEPT.len())
}

fn first_other_of(alloc: Global, spec: &IngestSpec, rows: &[Row]) -> Result<usize, Fail> {
    let index = filled(alloc, spec)?;
    first_other(alloc, spec.schema(), rows, &index)
}

fn first_other_of_table(alloc: Global) -> Result<usize, Fail> {
    let spec = IngestSpec::parse(alloc, SPEC)?;
    let rows = rows_of_table(alloc)?;
    first_other_of(alloc, &spec, rows.as_slice())
}

#[test]
fn filters_keep_rows_by_their_table(rt: HostRuntime) -> Result<(), Fail> {
    assert!(rt; first_other_of_table(rt.alloc())? == 29);
    Ok(())
}
