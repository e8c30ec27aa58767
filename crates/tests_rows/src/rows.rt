use dr_base::Row;

/// The ingestion spec of the events.
pub const SPEC: &str =
    r#"{"dataSchema":{"dataSource":"w","timestampSpec":{"column":"t","format":"iso"},"dimensionsSpec":{"dimensions":["page","lang"]},"metricsSpec":[{"type":"count","name":"n"},{"type":"longSum","name":"added","fieldName":"a"},{"type":"longMin","name":"lo","fieldName":"a"},{"type":"longMax","name":"hi","fieldName":"a"}],"granularitySpec":{"segmentGranularity":"day","queryGranularity":"hour"}}}"#;

/// The first hour of the events.
pub const FIRST: i64 = 1_704_067_200_000;

/// The second hour of the events.
pub const SECOND: i64 = 1_704_070_800_000;

/// Whether these are the rows of the three events: two of page A in the first hour, and one of page B in the second.
pub fn are_those_of_three(rows: &[Row]) -> bool {
    rows.len() == 2
        && is(&rows[0], FIRST, ["A", "en"], [2, 12, 5, 7])
        && is(&rows[1], SECOND, ["B", "en"], [1, -2, -2, -2])
}

/// Whether a row has this time, these dimension values and these metrics.
pub fn is(row: &Row, time: i64, dims: [&str; 2], metrics: [i64; 4]) -> bool {
    let texts = row.key.dims.as_slice();
    row.key.time == time
        && texts.len() == 2
        && texts[0].as_str() == dims[0]
        && texts[1].as_str() == dims[1]
        && row.metrics.as_slice() == metrics.as_slice()
}
