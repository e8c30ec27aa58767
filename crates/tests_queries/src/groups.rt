use crate::rows::{COUNT, are_kept, is_kept, row, row_at};
use dr_base::{Row, Text};
use dr_having::{AskedHaving, GroupOutputs, Having};
use dr_order::LimitSpec;
use dr_outputs::{OutputNumbers, OutputTexts};
use serde_json::Value;
use std::alloc::{AllocError, Global};
use std::cmp::Ordering;
use std::test::Fail;

fn text(alloc: Global, text: &str) -> Result<Text, Fail> {
    Ok(Text::from_str(alloc, text)?)
}

// The page, the language and the two values, added and lo, of each group of the table.
const GROUPS: [(&str, &str, [i64; 2]); 8] = [
    ("A", "", [5, -2]),
    ("B", "en", [5, -2]),
    ("A", "de", [6, 4]),
    ("C", "en", [-9, -9]),
    ("", "en", [i64::MAX, i64::MIN]),
    ("A", "en", [4, 0]),
    ("B", "", [7, 7]),
    ("C", "de", [i64::MIN, -1]),
];

// The groups of the table, again and again, as rows of one bucket.
fn groups_of_table(alloc: Global) -> Result<Vec<Row>, AllocError> {
    let mut groups = Vec::new(alloc);
    for place in 0..COUNT {
        let (page, lang, values) = GROUPS[row_at(place) % 8];
        groups.push(row(alloc, 0, [page, lang], values.as_slice())?)?;
    }
    Ok(groups)
}

// The outputs of groups, of which each has a value of its own.
fn outputs<'a>(
    alloc: Global,
    groups: &'a [Row],
    numbers: &'a [usize],
) -> Result<Vec<GroupOutputs<'a>>, AllocError> {
    let mut outputs = Vec::new(alloc);
    for group in groups {
        let dims = OutputTexts::new(group.key.dims.as_slice(), numbers);
        let values = OutputNumbers::new(group.metrics.as_slice(), numbers);
        outputs.push(GroupOutputs { dims, values })?;
    }
    Ok(outputs)
}

// The names that conditions may have: page and lang, added and lo.
#[derive(Drop)]
struct Names {
    dimensions: [Text; 2],
    aggregations: [Text; 2],
}

fn names_of_groups(alloc: Global) -> Result<Names, Fail> {
    Ok(Names {
        dimensions: [text(alloc, "page")?, text(alloc, "lang")?],
        aggregations: [text(alloc, "added")?, text(alloc, "lo")?],
    })
}

// The number of the refusal of a condition, 0 where it is none.
fn refusal(alloc: Global, names: &Names, having: &str) -> Result<u16, Fail> {
    let value = Value::from_str(alloc, having)?;
    Ok(refusal_of(alloc, names, &value))
}

fn refusal_of(alloc: Global, names: &Names, having: &Value) -> u16 {
    match Having::parse(alloc, having, &names.dimensions, &names.aggregations) {
        Ok(_) => 0,
        Err(error) => error.number(),
    }
}

const REFUSED: [(&str, u16); 4] = [
    (r#"{"type":"equalTo","aggregation":"page","value":5}"#, 77),
    (r#"{"type":"equalTo","aggregation":"lo"}"#, 2),
    (r#"{"type":"equalTo","aggregation":"lo","value":1.5}"#, 3),
    (r#"{"type":"always"}"#, 76),
];

// Which place in the list has another refusal, the length of the list where none has.
fn first_other_refusal(alloc: Global) -> Result<usize, Fail> {
    let names = names_of_groups(alloc)?;
    for (place, (having, number)) in REFUSED.iter().enumerate() {
        if refusal(alloc, &names, having)? != *number {
            return Ok(place);
        }
    }
    Ok(REFUSED.len())
}

#[test]
fn conditions_of_groups_are_refused_by_their_table(rt: HostRuntime) -> Result<(), Fail> {
    assert!(rt; first_other_refusal(rt.alloc())? == 4);
    Ok(())
}

// Nine pairs of a page and a language.
const PAIRS: &str = r#"{"type":"or","havingSpecs":[
    {"type":"and","havingSpecs":[{"type":"dimSelector","dimension":"page","value":"A"},{"type":"dimSelector","dimension":"lang","value":""}]},
    {"type":"and","havingSpecs":[{"type":"dimSelector","dimension":"page","value":"A"},{"type":"dimSelector","dimension":"lang","value":"fr"}]},
    {"type":"and","havingSpecs":[{"type":"dimSelector","dimension":"page","value":"B"},{"type":"dimSelector","dimension":"lang","value":"de"}]},
    {"type":"and","havingSpecs":[{"type":"dimSelector","dimension":"page","value":"C"},{"type":"dimSelector","dimension":"lang","value":"en"}]},
    {"type":"and","havingSpecs":[{"type":"dimSelector","dimension":"page","value":""},{"type":"dimSelector","dimension":"lang","value":""}]},
    {"type":"and","havingSpecs":[{"type":"dimSelector","dimension":"page","value":"B"},{"type":"dimSelector","dimension":"lang","value":""}]},
    {"type":"and","havingSpecs":[{"type":"dimSelector","dimension":"page","value":"D"},{"type":"dimSelector","dimension":"lang","value":"en"}]},
    {"type":"and","havingSpecs":[{"type":"dimSelector","dimension":"page","value":"C"},{"type":"dimSelector","dimension":"lang","value":""}]},
    {"type":"and","havingSpecs":[{"type":"dimSelector","dimension":"page","value":"A"},{"type":"dimSelector","dimension":"lang","value":"de"}]}
]}"#;

// Eight pairs of comparisons.
const RANKS: &str = r#"{"type":"or","havingSpecs":[
    {"type":"and","havingSpecs":[{"type":"equalTo","aggregation":"added","value":5},{"type":"greaterThan","aggregation":"lo","value":-2}]},
    {"type":"and","havingSpecs":[{"type":"greaterThan","aggregation":"added","value":6},{"type":"lessThan","aggregation":"lo","value":-9}]},
    {"type":"and","havingSpecs":[{"type":"lessThan","aggregation":"added","value":-9},{"type":"equalTo","aggregation":"lo","value":-1}]},
    {"type":"and","havingSpecs":[{"type":"equalTo","aggregation":"added","value":7},{"type":"equalTo","aggregation":"lo","value":5}]},
    {"type":"and","havingSpecs":[{"type":"equalTo","aggregation":"added","value":4},{"type":"lessThan","aggregation":"lo","value":1}]},
    {"type":"and","havingSpecs":[{"type":"greaterThan","aggregation":"added","value":7},{"type":"greaterThan","aggregation":"lo","value":9}]},
    {"type":"and","havingSpecs":[{"type":"lessThan","aggregation":"added","value":0},{"type":"lessThan","aggregation":"lo","value":-8}]},
    {"type":"and","havingSpecs":[{"type":"equalTo","aggregation":"added","value":6},{"type":"greaterThan","aggregation":"lo","value":4}]}
]}"#;

// Conditions, and which of the eight groups meet each: that of the first group has the highest bit.
const MET: [(&str, u8); 25] = [
    (
        r#"{"type":"greaterThan","aggregation":"added","value":4}"#,
        0b1110_1010,
    ),
    (
        r#"{"type":"greaterThan","aggregation":"added","value":5}"#,
        0b0010_1010,
    ),
    (
        r#"{"type":"lessThan","aggregation":"lo","value":-1}"#,
        0b1101_1000,
    ),
    (
        r#"{"type":"equalTo","aggregation":"lo","value":-2}"#,
        0b1100_0000,
    ),
    (
        r#"{"type":"dimSelector","dimension":"page","value":"A"}"#,
        0b1010_0100,
    ),
    (r#"{"type":"dimSelector","dimension":"page"}"#, 0b0000_1000),
    (
        r#"{"type":"not","havingSpec":{"type":"or","havingSpecs":[]}}"#,
        0b1111_1111,
    ),
    (r#"{"type":"and","havingSpecs":[]}"#, 0b1111_1111),
    (
        r#"{"type":"or","havingSpecs":[{"type":"greaterThan","aggregation":"added","value":9},{"type":"greaterThan","aggregation":"added","value":4},{"type":"greaterThan","aggregation":"added","value":7}]}"#,
        0b1110_1010,
    ),
    (
        r#"{"type":"or","havingSpecs":[{"type":"lessThan","aggregation":"lo","value":-9},{"type":"lessThan","aggregation":"lo","value":-2},{"type":"equalTo","aggregation":"lo","value":5},{"type":"equalTo","aggregation":"added","value":6}]}"#,
        0b0011_1000,
    ),
    (
        r#"{"type":"or","havingSpecs":[{"type":"equalTo","aggregation":"added","value":6},{"type":"equalTo","aggregation":"added","value":5},{"type":"equalTo","aggregation":"added","value":4}]}"#,
        0b1110_0100,
    ),
    (
        r#"{"type":"or","havingSpecs":[{"type":"equalTo","aggregation":"added","value":6},{"type":"dimSelector","dimension":"page","value":"A"}]}"#,
        0b1010_0100,
    ),
    (
        r#"{"type":"and","havingSpecs":[{"type":"greaterThan","aggregation":"added","value":1},{"type":"greaterThan","aggregation":"added","value":4},{"type":"lessThan","aggregation":"added","value":9},{"type":"lessThan","aggregation":"added","value":6},{"type":"equalTo","aggregation":"added","value":5},{"type":"equalTo","aggregation":"added","value":5},{"type":"dimSelector","dimension":"page","value":"A"}]}"#,
        0b1000_0000,
    ),
    (
        r#"{"type":"and","havingSpecs":[{"type":"equalTo","aggregation":"added","value":5},{"type":"equalTo","aggregation":"added","value":6}]}"#,
        0b0000_0000,
    ),
    (
        r#"{"type":"and","havingSpecs":[{"type":"greaterThan","aggregation":"added","value":4},{"type":"greaterThan","aggregation":"added","value":5}]}"#,
        0b0010_1010,
    ),
    (
        r#"{"type":"and","havingSpecs":[{"type":"greaterThan","aggregation":"added","value":4},{"type":"greaterThan","aggregation":"lo","value":4}]}"#,
        0b0000_0010,
    ),
    (
        r#"{"type":"and","havingSpecs":[{"type":"lessThan","aggregation":"added","value":9},{"type":"dimSelector","dimension":"page","value":"B"}]}"#,
        0b0100_0010,
    ),
    (
        r#"{"type":"or","havingSpecs":[{"type":"or","havingSpecs":[{"type":"equalTo","aggregation":"added","value":6},{"type":"equalTo","aggregation":"added","value":5}]},{"type":"dimSelector","dimension":"page","value":"B"}]}"#,
        0b1110_0010,
    ),
    (
        r#"{"type":"and","havingSpecs":[{"type":"and","havingSpecs":[{"type":"greaterThan","aggregation":"added","value":4}]},{"type":"not","havingSpec":{"type":"or","havingSpecs":[{"type":"greaterThan","aggregation":"lo","value":0},{"type":"dimSelector","dimension":"page","value":"B"}]}}]}"#,
        0b1000_1000,
    ),
    (
        r#"{"type":"not","havingSpec":{"type":"and","havingSpecs":[{"type":"equalTo","aggregation":"added","value":5},{"type":"not","havingSpec":{"type":"or","havingSpecs":[{"type":"dimSelector","dimension":"page","value":"B"},{"type":"dimSelector","dimension":"page","value":"C"}]}}]}}"#,
        0b0111_1111,
    ),
    (
        r#"{"type":"and","havingSpecs":[{"type":"or","havingSpecs":[{"type":"dimSelector","dimension":"page","value":"A"},{"type":"dimSelector","dimension":"page","value":"B"}]},{"type":"or","havingSpecs":[{"type":"dimSelector","dimension":"page","value":"B"},{"type":"dimSelector","dimension":"page","value":"C"}]}]}"#,
        0b0100_0010,
    ),
    (
        r#"{"type":"and","havingSpecs":[{"type":"or","havingSpecs":[{"type":"dimSelector","dimension":"page","value":"A"},{"type":"dimSelector","dimension":"page","value":"B"}]},{"type":"or","havingSpecs":[{"type":"dimSelector","dimension":"page","value":"C"},{"type":"dimSelector","dimension":"page","value":"A"}]}]}"#,
        0b1010_0100,
    ),
    (
        r#"{"type":"not","havingSpec":{"type":"or","havingSpecs":[{"type":"equalTo","aggregation":"added","value":6}]}}"#,
        0b1101_1111,
    ),
    (PAIRS, 0b1011_0010),
    (RANKS, 0b0001_1101),
];

fn having_of(alloc: Global, names: &Names, having: &str) -> Result<Having, Fail> {
    let value = Value::from_str(alloc, having)?;
    Ok(Having::parse(alloc, &value, &names.dimensions, &names.aggregations)?)
}

// What is asked of a group in the place of a condition.
fn asked_of(alloc: Global, names: &Names, having: &str) -> Result<AskedHaving, Fail> {
    let having = having_of(alloc, names, having)?;
    Ok(having.asked_together(alloc, &[0, 1])?)
}

// Whether these groups meet it, each asked by itself.
fn meets_each(asked: &AskedHaving, groups: &[GroupOutputs<'_>], met: u8) -> bool {
    for (place, group) in groups.iter().enumerate() {
        if asked.meets(&group.dims, &group.values) != is_kept(met, row_at(place)) {
            return false;
        }
    }
    true
}

// Whether these groups meet it, each by itself, and all of them asked at once.
fn are_met(
    alloc: Global,
    asked: &AskedHaving,
    groups: &[GroupOutputs<'_>],
    met: u8,
) -> Result<bool, AllocError> {
    let set = asked.select(alloc, groups)?;
    Ok(are_kept(&set, 0, groups.len(), met) && meets_each(asked, groups, met))
}

fn are_met_by(
    alloc: Global,
    names: &Names,
    having: &str,
    groups: &[GroupOutputs<'_>],
    met: u8,
) -> Result<bool, Fail> {
    let asked = asked_of(alloc, names, having)?;
    Ok(are_met(alloc, &asked, groups, met)?)
}

// Which place in the list is met by other groups, the length of the list where none is.
fn first_other(alloc: Global, names: &Names, groups: &[GroupOutputs<'_>]) -> Result<usize, Fail> {
    for (place, (having, met)) in MET.iter().enumerate() {
        if !are_met_by(alloc, names, having, groups, *met)? {
            return Ok(place);
        }
    }
    Ok(MET.len())
}

fn first_other_of(alloc: Global, names: &Names, groups: &[Row]) -> Result<usize, Fail> {
    let outputs = outputs(alloc, groups, &[0, 1])?;
    first_other(alloc, names, outputs.as_slice())
}

fn first_other_of_table(alloc: Global) -> Result<usize, Fail> {
    let names = names_of_groups(alloc)?;
    let groups = groups_of_table(alloc)?;
    first_other_of(alloc, &names, groups.as_slice())
}

#[test]
fn groups_meet_conditions_by_their_table(rt: HostRuntime) -> Result<(), Fail> {
    assert!(rt; first_other_of_table(rt.alloc())? == 25);
    Ok(())
}

// How group (A, 5) compares with group (B, 5) by the columns: -1, 0 or 1; and the number of the refusal.
fn compared(alloc: Global, spec: &str) -> Result<i64, Fail> {
    let dimensions = [text(alloc, "page")?];
    let aggregations = [text(alloc, "added")?];
    let value = Value::from_str(alloc, spec)?;
    match LimitSpec::parse(alloc, Some(&value), &dimensions, &aggregations) {
        Ok(spec) => {
            let (dims, others) = ([text(alloc, "A")?], [text(alloc, "B")?]);
            let order = spec.columns.order(
                &OutputTexts::new(&dims, &[0]),
                &OutputNumbers::new(&[5], &[0]),
                &OutputTexts::new(&others, &[0]),
                &OutputNumbers::new(&[5], &[0]),
            );
            Ok(match order {
                Ordering::Less => -1,
                Ordering::Equal => 0,
                Ordering::Greater => 1,
            })
        }
        Err(error) => Ok(i64::from(error.number())),
    }
}

const COMPARED: [(&str, i64); 9] = [
    (r#"{"type":"default"}"#, 0),
    (r#"{"type":"NoopLimitSpec"}"#, 0),
    (
        r#"{"columns":[{"dimension":"added","direction":"DESCENDING"}]}"#,
        0,
    ),
    (
        r#"{"columns":["added",{"dimension":"page","direction":"descending"}]}"#,
        1,
    ),
    (r#"{"columns":["page"],"limit":0}"#, -1),
    (r#"{"columns":["lang"]}"#, 73),
    (
        r#"{"columns":[{"dimension":"page","dimensionOrder":"numeric"}]}"#,
        76,
    ),
    (r#"{"limit":-1}"#, 3),
    (r#"{"type":"NoopLimitSpec","limit":5}"#, 76),
];

#[test]
fn groups_are_ordered_by_columns(rt: HostRuntime) -> Result<(), Fail> {
    for (spec, expected) in COMPARED {
        assert!(rt; compared(rt.alloc(), spec)? == expected);
    }
    Ok(())
}
