ghost use Rattle.std.specs.Prelude.{◌≤◌};

use dr_ask::{Query, Shape};
use dr_spec::IngestSpec;
use std::alloc::Global;
use std::test::Fail;

const SPEC: &[u8] =
    br#"{"dataSchema":{"dataSource":"w","timestampSpec":{"column":"t","format":"iso"},"dimensionsSpec":{"dimensions":["page","lang"]},"metricsSpec":[{"type":"count","name":"n"},{"type":"longSum","name":"added","fieldName":"a"}]}}"#;

// 0 for a timeseries, 1 for a groupBy and 4 for a scan, 10 more where it matches, and the number of the refusal.
fn read(alloc: Global, query: &[u8]) -> Result<u16, Fail> {
    let spec = IngestSpec::parse(alloc, SPEC)?;
    match Query::parse(alloc, query, spec.schema()) {
        Ok(query) => Ok(shape_number(&query) + 10 * u16::from(query.is_matching())),
        Err(error) => Ok(error.number()),
    }
}

fn shape_number(query: &Query) -> u16
    ensures { (result ≤ 4) }
{
    match &query.shape {
        Shape::Timeseries(_) => 0,
        Shape::GroupBy(_) => 1,
        Shape::Scan(_) => 4,
    }
}

const QUERIES: [(&[u8], u16); 15] = [
    (
        br#"{"queryType":"timeseries","dataSource":"w","intervals":["2024-01-01/2024-01-02"],"granularity":"hour","aggregations":[{"type":"longSum","name":"added","fieldName":"added"},{"type":"longSum","name":"n","fieldName":"n"}]}"#,
        10,
    ),
    (
        br#"{"queryType":"timeseries","dataSource":{"type":"table","name":"w"},"intervals":{"type":"intervals","intervals":[]},"granularity":{"type":"all"},"aggregations":[{"type":"count","name":"cnt"}],"descending":true,"limit":2,"context":{"skipEmptyBuckets":"true"}}"#,
        0,
    ),
    (
        br#"{"queryType":"groupBy","dataSource":"w","intervals":[],"granularity":"all","dimensions":["page",{"type":"default","dimension":"lang","outputName":"l"}],"aggregations":[{"type":"longSum","name":"added","fieldName":"added"}],"having":{"type":"greaterThan","aggregation":"added","value":0},"limitSpec":{"columns":[{"dimension":"added","direction":"descending"}],"limit":1,"offset":1}}"#,
        11,
    ),
    (br#"nope"#, 1),
    (br#"{"queryType":"topN"}"#, 70),
    (br#"{"queryType":"scan"}"#, 2),
    (
        br#"{"queryType":"scan","dataSource":"w","intervals":[],"columns":["__time","page","n","nope"],"order":"descending","resultFormat":"compactedList","batchSize":1,"offset":1,"limit":1}"#,
        4,
    ),
    (
        br#"{"queryType":"scan","dataSource":"w","intervals":[],"granularity":"all","columns":["page","page"]}"#,
        72,
    ),
    (
        br#"{"queryType":"scan","dataSource":"w","intervals":[],"granularity":"hour","columns":5}"#,
        76,
    ),
    (br#"{"queryType":"timeseries","dataSource":"x"}"#, 71),
    (
        br#"{"queryType":"timeseries","dataSource":"w","intervals":[],"granularity":"fortnight"}"#,
        22,
    ),
    (
        br#"{"queryType":"timeseries","dataSource":"w","intervals":[],"granularity":"all","filter":{"type":"regex"}}"#,
        60,
    ),
    (
        br#"{"queryType":"groupBy","dataSource":"w","intervals":[],"granularity":"all","dimensions":["n"]}"#,
        75,
    ),
    (
        br#"{"queryType":"groupBy","dataSource":"w","intervals":[],"granularity":"all","dimensions":["page"],"aggregations":[{"type":"count","name":"page"}]}"#,
        72,
    ),
    (
        br#"{"queryType":"timeseries","dataSource":"w","intervals":[],"granularity":"all","dimensions":["page"]}"#,
        76,
    ),
];

#[test]
fn queries_are_read_whole(rt: HostRuntime) -> Result<(), Fail> {
    for (query, expected) in QUERIES {
        assert!(rt; read(rt.alloc(), query)? == expected);
    }
    Ok(())
}
