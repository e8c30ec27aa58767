use dr_agg::{Kind, rollup_rows};
use dr_base::{Key, Numbers, Row, Text, Texts};
use std::alloc::Global;
use std::test::Fail;

const KINDS: [Kind; 4] = [Kind::Count, Kind::LongSum, Kind::LongMin, Kind::LongMax];

const HOUR: i64 = 3600000;

/// Rows of two hours and two pages, neither in order nor each of a key of its own. The last has one column, and an absent one
/// reads 0.
const ENTRIES: [(i64, &str, &[i64]); 6] = [
    (HOUR, "B", &[1, -2, -2, -2]),
    (0, "A", &[1, 5, 5, 5]),
    (HOUR, "A", &[1, i64::MAX, 9, 9]),
    (0, "A", &[1, 7, 7, 7]),
    (HOUR, "A", &[1, 1, 4, 4]),
    (HOUR, "B", &[3]),
];

const ROLLED_UP: [(i64, &str, &[i64]); 3] = [
    (0, "A", &[2, 12, 5, 7]),
    (HOUR, "A", &[2, i64::MIN, 4, 9]),
    (HOUR, "B", &[4, -2, -2, 0]),
];

const APART: [(i64, &str, &[i64]); 6] = [
    (0, "A", &[1, 5, 5, 5]),
    (0, "A", &[1, 7, 7, 7]),
    (HOUR, "A", &[1, i64::MAX, 9, 9]),
    (HOUR, "A", &[1, 1, 4, 4]),
    (HOUR, "B", &[1, -2, -2, -2]),
    (HOUR, "B", &[3]),
];

fn row(alloc: Global, time: i64, page: &str, columns: &[i64]) -> Result<Row, Fail> {
    let mut dims = Texts::new(alloc);
    dims.push(Text::from_str(alloc, page)?)?;
    let metrics = Numbers::from_vec(columns.to_vec(alloc)?);
    let key = Key { time, dims };
    Ok(Row { key, metrics })
}

fn rows(alloc: Global, table: &[(i64, &str, &[i64])]) -> Result<Vec<Row>, Fail> {
    let mut rows = Vec::new(alloc);
    for (time, page, columns) in table {
        rows.push(row(alloc, *time, page, columns)?)?;
    }
    Ok(rows)
}

// Whether the entries, row by row, give these rows.
fn is_rolled_up(alloc: Global, rollup: bool, wanted: &[(i64, &str, &[i64])]) -> Result<bool, Fail> {
    let entries = rows(alloc, &ENTRIES)?;
    let wanted = rows(alloc, wanted)?;
    let rolled_up = rollup_rows(alloc, rollup, &KINDS, &entries)?;
    Ok(rolled_up.as_slice() == wanted.as_slice())
}

#[test]
fn rolls_up_row_by_row(rt: HostRuntime) -> Result<(), Fail> {
    assert!(rt; is_rolled_up(rt.alloc(), true, &ROLLED_UP)?);
    assert!(rt; is_rolled_up(rt.alloc(), false, &APART)?);
    Ok(())
}
