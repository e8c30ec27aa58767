use dr_base::{Key, Numbers, Row, Text, Texts};
use dr_rollup::KeyOf;
use dr_rowindex::RowSet;
use std::alloc::{AllocError, Global};

/// How many rows, or groups, are asked at once.
pub const COUNT: usize = 300;

/// The time, the page and the language of each row of the table of filters.
pub const ROWS: [(i64, &str, &str); 8] = [
    (1_704_067_200_000, "Äb", ""),
    (1_704_067_200_000, "b", "en"),
    (1_704_067_199_999, "", "de"),
    (1_704_153_600_000, "x", "en"),
    (1_704_153_599_999, "Äb", "en"),
    (1_704_067_200_001, "a", ""),
    (1_704_067_200_000, "ÄbÄ", "de"),
    (1_703_980_800_000, "7", "Äb"),
];

/// Which row of a table stands at a place: each of the eight among every eight, in another order than those before.
pub fn row_at(place: usize) -> usize {
    place.wrapping_mul(3).wrapping_add(place / 8) % 8
}

/// Whether a table keeps one of its rows: that of the first has the highest bit.
pub fn is_kept(kept: u8, row: usize) -> bool {
    (kept >> (7 - row % 8)) & 1 == 1
}

/// Whether of so many rows, from the one at a place on, is told what a table keeps.
pub fn are_kept(set: &RowSet, from: usize, count: usize, kept: u8) -> bool {
    for i in 0..count {
        if set.contains(i) != is_kept(kept, row_at(from.wrapping_add(i))) {
            return false;
        }
    }
    set.row_count() == count
}

/// The rows of the table of filters, again and again.
pub fn rows_of_table(alloc: Global) -> Result<Vec<Row>, AllocError> {
    let mut rows = Vec::new(alloc);
    for place in 0..COUNT {
        let (time, page, lang) = ROWS[row_at(place) % 8];
        rows.push(row(alloc, time, [page, lang], &[])?)?;
    }
    Ok(rows)
}

/// A row of this time, these dimension values and these metrics.
pub fn row(
    alloc: Global,
    time: i64,
    values: [&str; 2],
    numbers: &[i64],
) -> Result<Row, AllocError> {
    let mut dims = Texts::new(alloc);
    for value in values {
        dims.push(Text::from_str(alloc, value)?)?;
    }
    let mut metrics = Numbers::new(alloc);
    for number in numbers {
        metrics.push(*number)?;
    }
    Ok(Row {
        key: Key { time, dims },
        metrics,
    })
}

/// Rows, each lent by its key.
pub fn lent<'a>(alloc: Global, rows: &'a [Row]) -> Result<Vec<KeyOf<'a>>, AllocError> {
    let mut keys = Vec::new(alloc);
    for row in rows {
        let time = row.key.time;
        let dims = row.key.dims.as_slice();
        keys.push(KeyOf { time, dims })?;
    }
    Ok(keys)
}
