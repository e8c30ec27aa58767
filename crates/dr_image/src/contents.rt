ghost use Rattle.std.specs.Prelude.{◌≡◌, ◌==◌, ◌&&◌, ◌<◌, true, nat_lt, length, map, get_or};
ghost use Rattle.std.specs.List.{list_all};
ghost use Rattle.std.specs.Str.{is_utf8};
ghost use Rattle.dr_image.specs.Words.{word, long};
ghost use Rattle.dr_image.specs.Pieces.{pieces, ends_fit};
ghost use Rattle.dr_image.specs.Sealed.{each_next};
ghost use Rattle.dr_image.specs.Parts.{part_seen};
ghost use Rattle.dr_time.specs.Instant.{is_instant};
ghost use Rattle.dr_image.specs.Opening.{is_below, is_dictionary, numbers_fit, times_fit, rows_have, is_row_list, row_lists_fit, is_index};

use crate::part::Part;
use crate::pieces::{do_ends_fit, list_piece, text_piece};
use crate::words::{number, signed};
use dr_time::{FIRST_INSTANT, LAST_INSTANT};
use std::str;

// Whether the texts of a dimension are told apart by their ends, are UTF-8, and ascend.
pub(crate) fn has_dictionary(part: &Part) -> bool
    ensures { result ≡ is_dictionary (part_seen part.now) }
{
    if !do_ends_fit(part.ends, part.texts.len()) {
        return false;
    }
    are_utf8(part.ends, part.texts) && do_ascend(part.ends, part.texts)
}

fn are_utf8(ends: &[[u8; 4]], texts: &[u8]) -> bool
    requires { ends_fit 0 (map word ends.now) (length texts.now) ≡ true }
    ensures { result ≡ list_all is_utf8 (pieces 0 (map word ends.now) texts.now) }
{
    for v in 0..ends.len() {
        if !is_text(text_piece(ends, texts, v)) {
            return false;
        }
    }
    true
}

fn is_text(bytes: &[u8]) -> bool
    ensures { result ≡ is_utf8 bytes.now }
{
    match str::from_utf8(bytes) {
        Ok(_) => true,
        Err(_) => false,
    }
}

fn do_ascend(ends: &[[u8; 4]], texts: &[u8]) -> bool
    requires { ends_fit 0 (map word ends.now) (length texts.now) ≡ true }
    ensures { result ≡ each_next is_below (pieces 0 (map word ends.now) texts.now) }
{
    for v in 1..ends.len() {
        if !comes_before(text_piece(ends, texts, v - 1), text_piece(ends, texts, v)) {
            return false;
        }
    }
    true
}

fn comes_before(a: &[u8], b: &[u8]) -> bool
    ensures { result ≡ is_below a.now b.now }
{
    a.cmp(b).is_lt()
}

// Whether each number of a dimension is one of its values.
pub(crate) fn do_numbers_fit(part: &Part) -> bool
    ensures { result ≡ numbers_fit (part_seen part.now) }
{
    all_below(part.numbers, part.ends.len())
}

fn all_below(cells: &[[u8; 4]], bound: usize) -> bool
    ensures { result ≡ list_all (λ n. nat_lt n bound) (map word cells.now) }
{
    for cell in cells {
        if number(cell) >= bound {
            return false;
        }
    }
    true
}

// Whether the chunk's start and the times are times of events, and the first time isn't before the chunk.
pub(crate) fn do_times_fit(chunk: i64, times: &[[u8; 8]]) -> bool
    requires { 0 < length times.now }
    ensures { result ≡ times_fit chunk (map long times.now) }
{
    if !in_range(chunk) {
        return false;
    }
    if !all_in_range(times) {
        return false;
    }
    chunk <= signed(&times[0])
}

fn all_in_range(times: &[[u8; 8]]) -> bool
    ensures { result ≡ list_all is_instant (map long times.now) }
{
    for cell in times {
        if !in_range(signed(cell)) {
            return false;
        }
    }
    true
}

fn in_range(time: i64) -> bool
    ensures { result ≡ is_instant time }
{
    FIRST_INSTANT <= time && time <= LAST_INSTANT
}

// Whether the row lists of a dimension are told apart by their ends, and each is one of rows that have its value.
pub(crate) fn has_index(part: &Part) -> bool
    ensures { result ≡ is_index (part_seen part.now) }
{
    if !do_ends_fit(part.list_ends, part.rows.len()) {
        return false;
    }
    do_row_lists_fit(part.list_ends, part.rows, part.numbers)
}

fn do_row_lists_fit(ends: &[[u8; 4]], rows: &[[u8; 4]], numbers: &[[u8; 4]]) -> bool
    requires { ends_fit 0 (map word ends.now) (length rows.now) ≡ true }
    ensures { result ≡ row_lists_fit 0 (map word numbers.now) (pieces 0 (map word ends.now) (map word rows.now)) }
{
    for v in 0..ends.len() {
        if !is_list_of(v, numbers, list_piece(ends, rows, v)) {
            return false;
        }
    }
    true
}

fn is_list_of(value: usize, numbers: &[[u8; 4]], rows: &[[u8; 4]]) -> bool
    ensures { result ≡ is_row_list value (map word numbers.now) (map word rows.now) }
{
    if rows.is_empty() {
        return false;
    }
    do_rows_have(value, numbers, rows)
}

fn do_rows_have(value: usize, numbers: &[[u8; 4]], rows: &[[u8; 4]]) -> bool
    ensures { result ≡ rows_have 0 value (map word numbers.now) (map word rows.now) }
{
    let mut least = 0;
    for cell in rows {
        let row = number(cell);
        if row < least {
            return false;
        }
        if !has_value(numbers, row, value) {
            return false;
        }
        least = row + 1;
    }
    true
}

fn has_value(numbers: &[[u8; 4]], row: usize, value: usize) -> bool
    ensures { result ≡ (nat_lt row (length (map word numbers.now)) && (get_or (map word numbers.now) row 0 == value)) }
{
    match numbers.get(row) {
        Some(cell) => number(cell) == value,
        None => false,
    }
}
