use dr_ask::Query;
use dr_base::{Key, Numbers, Row, Text, Texts};
use dr_fragment::{Fragment, SharedFragment};
use dr_scan::{ScanEntry, Segment, scan, scan_text};
use dr_spec::IngestSpec;
use std::alloc::{AllocError, Global};
use std::test::Fail;

const SPEC: &[u8] =
    br#"{"dataSchema":{"dataSource":"w","timestampSpec":{"column":"t","format":"iso"},"dimensionsSpec":{"dimensions":["page","lang"]},"metricsSpec":[{"type":"count","name":"n"},{"type":"longSum","name":"added","fieldName":"a"},{"type":"longMin","name":"lo","fieldName":"a"},{"type":"longMax","name":"hi","fieldName":"a"}]}}"#;

// The image of the rows (1704067200000, A, en, 2, 12, 5, 7) and (1704070800000, B, en, 1, -2, -2, -2), by another program.
const IMAGE: &str =
    "4452534701000100ec0000000000000000f451c28c01000000000000000000000300000000000000020004000200000000f451c28c01000080e288c28c010000020000000000000001000000000000000c00000000000000feffffffffffffff0500000000000000feffffffffffffff0700000000000000feffffffffffffff020000000200000001000000020000004142000000000100000001000000020000000000000001000000010000000200000002000000656e00000000000000000200000000000000010000000176456ea60f872785b4d045f35b0fafa9726456071496520833166c2987bead";

const LISTS: &[u8] =
    br#"{"queryType":"scan","dataSource":"w","intervals":"2024-01-01/2024-01-02","columns":["__time","page","added","nope"],"resultFormat":"compactedList"}"#;

const LISTS_OF_TWO: &[u8] =
    br#"[{"columns":["__time","page","added","nope"],"events":[[1704067200000,"A",12,null],[1704070800000,"B",-2,null]],"segmentId":"s"}]"#;

const OF_PAGE_B: &[u8] =
    br#"{"queryType":"scan","dataSource":"w","intervals":"2024-01-01/2024-01-02","columns":["page","lang","added"],"filter":{"type":"selector","dimension":"page","value":"B"}}"#;

const B_ALONE: &[u8] =
    br#"[{"columns":["page","lang","added"],"events":[{"added":-2,"lang":"en","page":"B"}],"segmentId":"s"}]"#;

const LAST_FIRST: &[u8] =
    br#"{"queryType":"scan","dataSource":"w","intervals":"2024-01-01/2024-01-02","columns":["page"],"resultFormat":"compactedList","order":"descending","limit":1}"#;

const THE_LAST: &[u8] = br#"[{"columns":["page"],"events":[["B"]],"segmentId":null}]"#;

const TIMESERIES: &[u8] =
    br#"{"queryType":"timeseries","dataSource":"w","intervals":[],"granularity":"all"}"#;

fn query_of(alloc: Global, text: &[u8]) -> Option<Box<Query>> {
    let spec = IngestSpec::parse(alloc, SPEC).ok()?;
    let query = Query::parse(alloc, text, spec.schema()).ok()?;
    Box::new(alloc, query).ok()
}

fn row(alloc: Global, time: i64, page: &str, added: i64) -> Result<Row, AllocError> {
    let mut dims = Texts::new(alloc);
    dims.push(Text::from_str(alloc, page)?)?;
    dims.push(Text::from_str(alloc, "en")?)?;
    let mut metrics = Numbers::new(alloc);
    metrics.push(1)?;
    metrics.push(added)?;
    Ok(Row {
        key: Key { time, dims },
        metrics,
    })
}

fn two_rows(alloc: Global) -> Result<Vec<Row>, AllocError> {
    let mut rows = Vec::new(alloc);
    rows.push(row(alloc, 1704067200000, "A", 12)?)?;
    rows.push(row(alloc, 1704070800000, "B", -2)?)?;
    Ok(rows)
}

// The image as a snapshot holds it.
fn pinned_image(alloc: Global) -> Option<SharedFragment> {
    let bytes = hex::decode(alloc, IMAGE).ok()?;
    let fragment = Fragment::of_image(bytes).ok()?;
    SharedFragment::new(alloc, fragment).ok()
}

// Whether a scan over the image gives this text.
fn scans_image(alloc: Global, query: &[u8], expected: &[u8]) -> Option<bool> {
    let query = query_of(alloc, query)?;
    let identifier = Text::from_str(alloc, "s").ok()?;
    let fragment = pinned_image(alloc)?;
    let segment = Segment {
        identifier,
        fragment: &fragment,
    };
    let text = scan(alloc, &query, &[segment]).ok()?;
    Some(text.as_slice() == expected)
}

// Whether the text of an entry of two rows is this one.
fn writes(alloc: Global, query: &[u8], expected: &[u8]) -> Option<bool> {
    let query = query_of(alloc, query)?;
    let segment_id = Some(Text::from_str(alloc, "s").ok()?);
    let rows = two_rows(alloc).ok()?;
    let text = scan_text(alloc, &query, &[ScanEntry { segment_id, rows }]).ok()?;
    Some(text.as_slice() == expected)
}

#[test]
fn an_image_is_scanned(rt: HostRuntime) -> Result<(), Fail> {
    let alloc = rt.alloc();
    assert!(rt; scans_image(alloc, LISTS, LISTS_OF_TWO) == Some(true));
    assert!(rt; scans_image(alloc, OF_PAGE_B, B_ALONE) == Some(true));
    assert!(rt; scans_image(alloc, LAST_FIRST, THE_LAST) == Some(true));
    assert!(rt; scans_image(alloc, TIMESERIES, b"[]") == Some(true));
    Ok(())
}

#[test]
fn entries_are_written(rt: HostRuntime) -> Result<(), Fail> {
    let alloc = rt.alloc();
    assert!(rt; writes(alloc, LISTS, LISTS_OF_TWO) == Some(true));
    assert!(rt; writes(alloc, TIMESERIES, b"[]") == Some(true));
    Ok(())
}
