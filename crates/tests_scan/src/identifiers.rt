ghost use Rattle.dr_time.specs.Instant.{IsInstant};

use dr_scan::identifier;
use dr_spec::IngestSpec;
use std::alloc::Global;
use std::test::Fail;

const BY_DAY: &[u8] =
    br#"{"dataSchema":{"dataSource":"w","dimensionsSpec":{"dimensions":["page"]},"granularitySpec":{"segmentGranularity":"day"}}}"#;

const BY_YEAR: &[u8] =
    br#"{"dataSchema":{"dataSource":"w","dimensionsSpec":{"dimensions":["page"]},"granularitySpec":{"segmentGranularity":"year"}}}"#;

// Whether the identifier of a chunk's segment is this text.
fn identifies(
    alloc: Global,
    spec: &[u8],
    chunk: i64,
    version: u64,
    place: u64,
    expected: &str,
) -> Option<bool>
    requires { IsInstant chunk }
{
    let spec = IngestSpec::parse(alloc, spec).ok()?;
    let text = identifier(alloc, spec.schema(), chunk, version, place).ok()?;
    Some(text.as_str() == expected)
}

#[test]
fn segments_are_identified(rt: HostRuntime) -> Result<(), Fail> {
    let alloc = rt.alloc();
    assert!(rt;
        identifies(
            alloc,
            BY_DAY,
            1704067200000,
            0,
            0,
            "w_2024-01-01T00:00:00.000Z_2024-01-02T00:00:00.000Z_r"
        ) == Some(true)
    );
    assert!(rt;
        identifies(
            alloc,
            BY_DAY,
            1704067200000,
            2,
            0,
            "w_2024-01-01T00:00:00.000Z_2024-01-02T00:00:00.000Z_v2"
        ) == Some(true)
    );
    assert!(rt;
        identifies(
            alloc,
            BY_DAY,
            1704067200000,
            0,
            1,
            "w_2024-01-01T00:00:00.000Z_2024-01-02T00:00:00.000Z_r_1"
        ) == Some(true)
    );
    assert!(rt;
        identifies(
            alloc,
            BY_YEAR,
            -62135596800000,
            12,
            10,
            "w_0001-01-01T00:00:00.000Z_0002-01-01T00:00:00.000Z_v12_10"
        ) == Some(true)
    );
    assert!(rt;
        identifies(
            alloc,
            BY_YEAR,
            253370764800000,
            0,
            0,
            "w_9999-01-01T00:00:00.000Z_10000-01-01T00:00:00.000Z_r"
        ) == Some(true)
    );
    Ok(())
}
