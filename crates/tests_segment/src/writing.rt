ghost use Rattle.std.specs.Prelude.{IfOk};
ghost use Rattle.dr_segment.specs.Tables.{table_seen, StandForRows};

use dr_base::{Key, Numbers, Row, Text, Texts};
use dr_segment::{Columns, Dimension, encode, encode_columns};
use dr_spec::IngestSpec;
use std::alloc::{AllocError, Global};
use std::test::Fail;

const SPEC: &[u8] =
    br#"{"dataSchema":{"dataSource":"w","timestampSpec":{"column":"t","format":"iso"},"dimensionsSpec":{"dimensions":["page","lang"]},"metricsSpec":[{"type":"count","name":"n"},{"type":"longSum","name":"added","fieldName":"a"},{"type":"longMin","name":"lo","fieldName":"a"},{"type":"longMax","name":"hi","fieldName":"a"}]}}"#;

// The image of two rows, by another program.
const TWO: &str =
    "4452534701000100ec0000000000000000f451c28c01000000000000000000000300000000000000020004000200000000f451c28c01000080e288c28c010000020000000000000001000000000000000c00000000000000feffffffffffffff0500000000000000feffffffffffffff0700000000000000feffffffffffffff020000000200000001000000020000004142000000000100000001000000020000000000000001000000010000000200000002000000656e00000000000000000200000000000000010000000176456ea60f872785b4d045f35b0fafa9726456071496520833166c2987bead";

const FIRST: i64 = 1_704_067_200_000;

fn row(alloc: Global, time: i64, texts: &[&str], metrics: &[i64]) -> Result<Row, Fail> {
    let mut dims = Texts::new(alloc);
    for text in texts {
        dims.push(Text::from_str(alloc, text)?)?;
    }
    let metrics = Numbers::from_vec(Vec::from_slice(alloc, metrics)?);
    Ok(Row {
        key: Key { time, dims },
        metrics,
    })
}

// The image of rows from 0 to a number in hexadecimal, or the name of the refusal.
fn written(alloc: Global, spec: &[u8], to: u64, rows: &[Row]) -> Result<String, Fail> {
    let spec = IngestSpec::parse(alloc, spec)?;
    match encode(alloc, spec.schema(), FIRST, 0, to, rows) {
        Ok(bytes) => Ok(hex::encode(alloc, bytes.as_slice())?),
        Err(error) => Ok(String::from_str(alloc, error.name())?),
    }
}

// Whether a text ends so. The last 64 digits of an image are the digest of all before, its length among these.
fn ends_with(text: &str, end: &str) -> bool {
    text.as_bytes().ends_with(end.as_bytes())
}

#[test]
fn writes_the_image_of_two_rows(rt: HostRuntime) -> Result<(), Fail> {
    let alloc = rt.alloc();
    let mut rows = Vec::new(alloc);
    rows.push(row(alloc, FIRST, &["A", "en"], &[2, 12, 5, 7])?)?;
    rows.push(row(alloc, 1_704_070_800_000, &["B", "en"], &[1, -2, -2, -2])?)?;
    let text = written(alloc, SPEC, 3, &rows)?;
    assert!(rt; text.as_str() == TWO);
    Ok(())
}

const NO_ROLLUP: &[u8] =
    br#"{"dataSchema":{"dataSource":"w","dimensionsSpec":{"dimensions":["page","lang"]},"granularitySpec":{"rollup":false}}}"#;

// Two rows without metrics, whose values are empty, at one time: by another program.
const EQUAL: &str =
    "4452534701000000a00000000000000000f451c28c01000000000000000000000200000000000000020000000200000000f451c28c01000000f451c28c0100000100000000000000000000000000000000000000020000000000000001000000010000000000000000000000000000000000000002000000000000000100000079e636b711cf33975f8e12e34e5d8439a94b4cb11c69a90239b63e610412d389";

#[test]
fn writes_equal_rows_without_rollup(rt: HostRuntime) -> Result<(), Fail> {
    let alloc = rt.alloc();
    let mut rows = Vec::new(alloc);
    rows.push(row(alloc, FIRST, &["", ""], &[])?)?;
    rows.push(row(alloc, FIRST, &["", ""], &[])?)?;
    let text = written(alloc, NO_ROLLUP, 2, &rows)?;
    assert!(rt; text.as_str() == EQUAL);
    Ok(())
}

const PAGE: &[u8] =
    br#"{"dataSchema":{"dataSource":"w","dimensionsSpec":{"dimensions":["page"]}}}"#;

// A row with an empty value, and a millisecond later one with 1048576 times the letter x, from 0 to 2: the digest of another
// program.
const LONG: &str = "01c7ae2f1b87e0bf293e101e6391d6fa7f2030a543ea42fa50fec0c8b30bb576";

#[test]
fn writes_a_long_text_and_an_empty_one(rt: HostRuntime) -> Result<(), Fail> {
    let alloc = rt.alloc();
    let letters = vec![in alloc; b'x'; 1_048_576]?;
    let long = String::from_utf8(letters)
        .ok()
        .ok_or("the letters are UTF-8")?;
    let mut rows = Vec::new(alloc);
    rows.push(row(alloc, FIRST, &[""], &[])?)?;
    rows.push(row(alloc, 1_704_067_200_001, &[long.as_str()], &[])?)?;
    let text = written(alloc, PAGE, 2, &rows)?;
    assert!(rt; ends_with(text.as_str(), LONG));
    Ok(())
}

const WIDE: &[u8] =
    br#"{"dataSchema":{"dataSource":"w","dimensionsSpec":{"dimensions":["d0","d1","d2","d3","d4","d5","d6","d7","d8","d9","d10","d11","d12","d13","d14","d15","d16","d17","d18","d19","d20","d21","d22","d23","d24","d25","d26","d27","d28","d29","d30","d31","d32","d33","d34","d35","d36","d37","d38","d39","d40","d41","d42","d43","d44","d45","d46","d47","d48","d49","d50","d51","d52","d53","d54","d55","d56","d57","d58","d59","d60","d61","d62","d63"]}}}"#;

// Three rows a millisecond apart, of which row r has the value r times d modulo 3 in dimension d, from 0 to 3: the digest of
// another program.
const SIXTY_FOUR: &str = "4ea180e49d5302927fb5f22525ae082941c178a624ed91cbb4d86e7c8be463bd";

// The values of a row in 64 dimensions: these three over and over.
fn wide_row(alloc: Global, time: i64, texts: [&str; 3]) -> Result<Row, Fail> {
    let mut values = Vec::new(alloc);
    for d in 0..64 {
        values.push(texts[d % 3])?;
    }
    row(alloc, time, &values, &[])
}

#[test]
fn writes_rows_of_64_dimensions(rt: HostRuntime) -> Result<(), Fail> {
    let alloc = rt.alloc();
    let mut rows = Vec::new(alloc);
    rows.push(wide_row(alloc, FIRST, ["0", "0", "0"])?)?;
    rows.push(wide_row(alloc, 1_704_067_200_001, ["0", "1", "2"])?)?;
    rows.push(wide_row(alloc, 1_704_067_200_002, ["0", "2", "1"])?)?;
    let text = written(alloc, WIDE, 3, &rows)?;
    assert!(rt; ends_with(text.as_str(), SIXTY_FOUR));
    Ok(())
}

// The image of one row has 113 bytes.
const ROOM: &[u8] =
    br#"{"dataSchema":{"dataSource":"w","dimensionsSpec":{"dimensions":["page"]}},"tuningConfig":{"maxImageBytes":113}}"#;

const NO_ROOM: &[u8] =
    br#"{"dataSchema":{"dataSource":"w","dimensionsSpec":{"dimensions":["page"]}},"tuningConfig":{"maxImageBytes":112}}"#;

const ONE: &str = "59c035dedbe50d5a96c61a61c6b70c682da9059ad7da222ddb19cd950b12c88e";

#[test]
fn refuses_an_image_that_is_a_byte_too_long(rt: HostRuntime) -> Result<(), Fail> {
    let alloc = rt.alloc();
    let mut rows = Vec::new(alloc);
    rows.push(row(alloc, FIRST, &["A"], &[])?)?;
    let text = written(alloc, ROOM, 1, &rows)?;
    assert!(rt; ends_with(text.as_str(), ONE));
    let text = written(alloc, NO_ROOM, 1, &rows)?;
    assert!(rt; text.as_str() == "ImageTooLarge");
    Ok(())
}

// The columns of that row.
fn columns(alloc: Global) -> Result<Columns<'static>, AllocError>
    ensures { IfOk result (λ columns. StandForRows (table_seen columns)) }
{
    let mut dims = Vec::new(alloc);
    dims.push(Dimension {
        dictionary: vec![in alloc; "A"]?,
        numbers: vec![in alloc; 0u32]?,
    })?;
    Ok(Columns {
        rollup: true,
        chunk: FIRST,
        from: 0,
        to: 1,
        times: vec![in alloc; FIRST]?,
        metrics: Vec::new(alloc),
        dims,
    })
}

// The image of those columns in hexadecimal.
fn written_from_columns(alloc: Global) -> Result<String, Fail> {
    let columns = columns(alloc)?;
    let bytes = encode_columns(alloc, 113, &columns)
        .ok()
        .ok_or("there is memory, and the image isn't too large")?;
    Ok(hex::encode(alloc, bytes.as_slice())?)
}

#[test]
fn writes_the_image_of_columns(rt: HostRuntime) -> Result<(), Fail> {
    let text = written_from_columns(rt.alloc())?;
    assert!(rt; ends_with(text.as_str(), ONE));
    Ok(())
}
