ghost use Rattle.std.specs.Prelude.{◌<◌, ◌≤◌, length};

use crate::lots::ROWS_AT_ONCE;
use dr_predicate::value_at;
use dr_rollup::KeyOf;

// How many bytes may be taken at once for which row has which character where, in all dimensions that are often asked by a pattern, and
// how many more for each byte of the values: as much as is taken where the values have thousands of different characters at each place.
const LETTER_BYTES: usize = 1 << 26;

const LETTER_BYTES_FOR_EACH: usize = 16;

// Values of no more bytes are asked by a pattern at once, where they are of more than one row: of long ones up to 20 bytes are taken for
// each byte.
const VALUE_BYTES: usize = 1 << 22;

// Fewer rows aren't asked at once, since what is told of them takes as long as of these.
const FEWEST_ROWS: usize = 1024;

// How many rows are asked at once, where so many dimensions are often asked by a pattern.
fn rows_at_once(dimensions: usize) -> usize
    ensures { 0 < result }
{
    (ROWS_AT_ONCE / dimensions.max(1)).max(FEWEST_ROWS)
}

// How many bytes may be taken then for the characters of these values of one of them. It takes time by the values.
pub fn letter_bytes(dimensions: usize, values: &[&str]) -> usize {
    let mut bytes = LETTER_BYTES / dimensions.max(1);
    for value in values {
        bytes = bytes.saturating_add(value.len().saturating_mul(LETTER_BYTES_FOR_EACH));
    }
    bytes
}

// Whether all rows are asked at once.
pub fn is_one_part(rows: &[KeyOf<'_>], places: &[usize]) -> bool {
    rows.is_empty() || part_end(rows, places, 0) == rows.len()
}

// Behind which row those end that are asked at once with one of them and what follows it, where some dimensions are often asked by a
// pattern. It takes time by these rows.
pub fn part_end(rows: &[KeyOf<'_>], places: &[usize], from: usize) -> usize
    requires { from < length rows.now }
    ensures more { from < result }
    ensures within { result ≤ length rows.now }
{
    let end = dr_rowindex::lot_end(from, rows.len(), rows_at_once(places.len()));
    if places.is_empty() {
        return end;
    }
    let mut bytes = 0usize;
    for row in from..end {
        bytes = bytes.saturating_add(bytes_at(&rows[row], places));
        if bytes > VALUE_BYTES && row > from {
            return row;
        }
    }
    end
}

// How many bytes the values of a row have in some dimensions.
fn bytes_at(row: &KeyOf<'_>, places: &[usize]) -> usize {
    let mut bytes = 0usize;
    for place in places {
        bytes = bytes.saturating_add(value_at(row.dims, Some(*place)).len());
    }
    bytes
}
