ghost use Rattle.std.specs.Prelude.{◌≡◌, true, length};

use dr_base::Text;
use dr_dict::TextSet;
use dr_rowindex::{NumberOrder, RowSet, TextOrder};
use std::alloc::{AllocError, Global};
use std::test::Fail;

// Whether these rows are in a set, and no others.
fn are_rows(set: &RowSet, rows: &[usize]) -> bool {
    for row in 0..set.row_count() {
        if set.contains(row) != rows.contains(&row) {
            return false;
        }
    }
    true
}

// Puts rows of a set into it.
fn put(set: &mut RowSet, rows: &[usize]) {
    for row in rows {
        if *row < set.row_count() {
            set.insert(*row);
        }
    }
}

// Keeps the rows that are in another set of as many rows too.
fn keep(set: &mut RowSet, other: &RowSet) {
    if set.row_count() == other.row_count() {
        set.and(other);
    }
}

#[test]
fn sets_have_the_rows_that_were_put_in(rt: HostRuntime) -> Result<(), Fail> {
    let mut set = RowSet::none(rt.alloc(), 130)?;
    assert!(rt; are_rows(&set, &[]));
    put(&mut set, &[129, 63, 64, 63]);
    assert!(rt; are_rows(&set, &[63, 64, 129]));
    let mut all = RowSet::all(rt.alloc(), 130)?;
    assert!(rt; all.contains(0) && all.contains(64) && all.contains(129) && !all.contains(130));
    keep(&mut all, &set);
    assert!(rt; are_rows(&all, &[63, 64, 129]));
    Ok(())
}

#[test]
fn a_set_that_has_none_left_can_be_filled_again(rt: HostRuntime) -> Result<(), Fail> {
    let mut set = RowSet::none(rt.alloc(), 130)?;
    put(&mut set, &[129, 63, 64]);
    let copy = set.copy(rt.alloc())?;
    let none = RowSet::none(rt.alloc(), 130)?;
    keep(&mut set, &none);
    assert!(rt; are_rows(&set, &[]) && are_rows(&copy, &[63, 64, 129]));
    put(&mut set, &[5]);
    assert!(rt; are_rows(&set, &[5]));
    Ok(())
}

// A set of 130 rows that has these.
fn row_set_of(alloc: Global, rows: &[usize]) -> Result<RowSet, AllocError> {
    let mut set = RowSet::none(alloc, 130)?;
    put(&mut set, rows);
    Ok(set)
}

// Whether another set is of as many rows.
fn are_as_many(set: &RowSet, other: &RowSet) -> bool
    ensures { result ≡ true → length other.now ≡ length set.now }
{
    other.row_count() == set.row_count()
}

// Keeps the rows that are in each of four other sets of as many rows too.
fn keep_four(set: &mut RowSet, a: &RowSet, b: &RowSet, c: &RowSet, d: &RowSet) {
    if are_as_many(set, a) && are_as_many(set, b) && are_as_many(set, c) && are_as_many(set, d) {
        set.and_four(a, b, c, d);
    }
}

// Adds the rows of another set of as many rows that are in each of four more.
fn add_met(set: &mut RowSet, other: &RowSet, a: &RowSet, b: &RowSet, c: &RowSet, d: &RowSet) {
    if are_as_many(set, other)
        && are_as_many(set, a)
        && are_as_many(set, b)
        && are_as_many(set, c)
        && are_as_many(set, d)
    {
        set.or_and_four(other, a, b, c, d);
    }
}

// Adds the rows of another set of as many rows that are in each of two more.
fn add_met_by_two(set: &mut RowSet, other: &RowSet, a: &RowSet, b: &RowSet) {
    if are_as_many(set, other) && are_as_many(set, a) && are_as_many(set, b) {
        set.or_and_two(other, a, b);
    }
}

// Has the rows of another set of as many rows that are in each of four more.
fn put_met(set: &mut RowSet, other: &RowSet, a: &RowSet, b: &RowSet, c: &RowSet, d: &RowSet) {
    if are_as_many(set, other)
        && are_as_many(set, a)
        && are_as_many(set, b)
        && are_as_many(set, c)
        && are_as_many(set, d)
    {
        set.copy_from_and_four(other, a, b, c, d);
    }
}

#[test]
fn five_sets_are_met_at_once(rt: HostRuntime) -> Result<(), Fail> {
    let a = row_set_of(rt.alloc(), &[1, 63, 64, 129])?;
    let b = row_set_of(rt.alloc(), &[1, 63, 64, 128, 129])?;
    let c = row_set_of(rt.alloc(), &[0, 1, 63, 64, 129])?;
    let d = row_set_of(rt.alloc(), &[1, 2, 64, 129])?;
    let mut set = row_set_of(rt.alloc(), &[1, 5, 64])?;
    let mut found = row_set_of(rt.alloc(), &[7])?;
    add_met(&mut found, &set, &a, &b, &c, &d);
    assert!(rt; are_rows(&found, &[1, 7, 64]));
    keep_four(&mut set, &a, &b, &c, &d);
    assert!(rt; are_rows(&set, &[1, 64]) && !set.has_none());
    add_met(&mut found, &a, &a, &b, &c, &d);
    assert!(rt; are_rows(&found, &[1, 7, 64, 129]));
    let none = RowSet::none(rt.alloc(), 130)?;
    keep_four(&mut set, &a, &b, &none, &d);
    assert!(rt; are_rows(&set, &[]) && set.has_none());
    add_met(&mut found, &set, &a, &b, &c, &d);
    assert!(rt; are_rows(&found, &[1, 7, 64, 129]));
    put_met(&mut set, &b, &a, &c, &d, &found);
    assert!(rt; are_rows(&set, &[1, 64, 129]) && !set.has_none());
    put_met(&mut set, &b, &a, &c, &d, &none);
    assert!(rt; are_rows(&set, &[]) && set.has_none());
    Ok(())
}

#[test]
fn three_sets_are_met_at_once(rt: HostRuntime) -> Result<(), Fail> {
    let a = row_set_of(rt.alloc(), &[1, 63, 64, 129])?;
    let b = row_set_of(rt.alloc(), &[1, 2, 64, 128])?;
    let other = row_set_of(rt.alloc(), &[0, 1, 63, 64, 128])?;
    let mut found = row_set_of(rt.alloc(), &[7])?;
    add_met_by_two(&mut found, &other, &a, &b);
    assert!(rt; are_rows(&found, &[1, 7, 64]) && !found.has_none());
    let none = RowSet::none(rt.alloc(), 130)?;
    add_met_by_two(&mut found, &none, &a, &b);
    assert!(rt; are_rows(&found, &[1, 7, 64]));
    let mut empty = RowSet::none(rt.alloc(), 130)?;
    add_met_by_two(&mut empty, &other, &none, &b);
    assert!(rt; are_rows(&empty, &[]) && empty.has_none());
    Ok(())
}

// Has in a set the rows of another one of as many, and one row more where that is told.
fn take(set: &mut RowSet, other: &RowSet, row: usize, told: bool) {
    if set.row_count() == other.row_count() && row < set.row_count() {
        set.copy_from(other);
        set.insert_if(row, told);
    }
}

#[test]
fn a_set_takes_the_rows_of_another_and_what_is_told(rt: HostRuntime) -> Result<(), Fail> {
    let other = row_set_of(rt.alloc(), &[63, 129])?;
    let mut set = row_set_of(rt.alloc(), &[0, 5, 64])?;
    take(&mut set, &other, 64, false);
    assert!(rt; are_rows(&set, &[63, 129]));
    take(&mut set, &other, 64, true);
    assert!(rt; are_rows(&set, &[63, 64, 129]) && are_rows(&other, &[63, 129]));
    let none = RowSet::none(rt.alloc(), 130)?;
    take(&mut set, &none, 3, false);
    assert!(rt; are_rows(&set, &[]) && set.has_none());
    take(&mut set, &none, 3, true);
    assert!(rt; are_rows(&set, &[3]) && !set.has_none());
    Ok(())
}

const NUMBERS: [i64; 7] = [5, -3, 7, 5, 0, i64::MAX, i64::MIN];

// The rows whose number lies from one to before another.
fn between(
    alloc: Global,
    numbers: Vec<i64>,
    from: Option<i128>,
    to: Option<i128>,
) -> Result<RowSet, AllocError> {
    let count = numbers.len();
    let order = NumberOrder::of(alloc, numbers)?;
    let mut set = RowSet::none(alloc, count)?;
    order.insert_between(from, to, &mut set);
    Ok(set)
}

const BETWEEN: [(Option<i128>, Option<i128>, &[usize]); 7] = [
    (Some(0), Some(7), &[0, 3, 4]),
    (Some(5), Some(8), &[0, 2, 3]),
    (None, Some(0), &[1, 6]),
    (Some(6), None, &[2, 5]),
    (None, None, &[0, 1, 2, 3, 4, 5, 6]),
    (Some(7), Some(5), &[]),
    (Some(9_223_372_036_854_775_808), None, &[]),
];

// Which place in the table has other rows, the length of the table where none has.
fn first_other_between(alloc: Global) -> Result<usize, Fail> {
    for (place, (from, to, rows)) in BETWEEN.iter().enumerate() {
        let numbers = Vec::from_array(alloc, NUMBERS)?;
        let set = between(alloc, numbers, *from, *to)?;
        if set.row_count() != 7 || !are_rows(&set, rows) {
            return Ok(place);
        }
    }
    Ok(BETWEEN.len())
}

#[test]
fn rows_are_found_between_two_numbers(rt: HostRuntime) -> Result<(), Fail> {
    assert!(rt; first_other_between(rt.alloc())? == 7);
    Ok(())
}

// The number of a row: of 5000 rows each has another one, below 5000.
fn number_of(row: usize) -> u16 {
    (row.wrapping_mul(7919) % 5000) as u16
}

// Whether of 5000 rows those are found whose number lies from 1000 to before 4200.
fn are_between(alloc: Global) -> Result<bool, Fail> {
    let mut numbers = Vec::new(alloc);
    for row in 0..5000 {
        numbers.push(i64::from(number_of(row)))?;
    }
    let set = between(alloc, numbers, Some(1000), Some(4200))?;
    for row in 0..5000 {
        let number = number_of(row);
        if set.contains(row) != (1000 <= number && number < 4200) {
            return Ok(false);
        }
    }
    Ok(true)
}

#[test]
fn many_rows_are_found_between_two_numbers(rt: HostRuntime) -> Result<(), Fail> {
    assert!(rt; are_between(rt.alloc())?);
    Ok(())
}

const TEXTS: [&str; 7] = ["b", "", "Äb", "a", "b", "ab", "B"];

// The rows that have one of some texts.
fn having(alloc: Global, texts: Vec<&str>, wanted: &[&str]) -> Result<RowSet, AllocError> {
    let mut set = RowSet::none(alloc, texts.len())?;
    let order = TextOrder::of(alloc, texts)?;
    put_having(alloc, &order, wanted, &mut set)?;
    Ok(set)
}

fn put_having(
    alloc: Global,
    order: &TextOrder<'_>,
    wanted: &[&str],
    set: &mut RowSet,
) -> Result<(), AllocError>
    requires { length set.old ≡ length order.now }
{
    if let [text] = wanted {
        return order.insert_equal(alloc, text, set);
    }
    let texts = set_of(alloc, wanted)?;
    order.insert_among(alloc, &texts, set)
}

fn set_of(alloc: Global, texts: &[&str]) -> Result<TextSet, AllocError> {
    let mut set = TextSet::new(alloc);
    for text in texts {
        set.add(&Text::from_str(alloc, text)?)?;
    }
    Ok(set)
}

const HAVING: [(&[&str], &[usize]); 7] = [
    (&["b"], &[0, 4]),
    (&[""], &[1]),
    (&["Äb"], &[2]),
    (&["Ä"], &[]),
    (&["b", "B", "zz"], &[0, 4, 6]),
    (&["ab", "a", ""], &[1, 3, 5]),
    (&[], &[]),
];

// Which place in the table has other rows, the length of the table where none has.
fn first_other_having(alloc: Global) -> Result<usize, Fail> {
    for (place, (texts, rows)) in HAVING.iter().enumerate() {
        let set = having(alloc, Vec::from_array(alloc, TEXTS)?, texts)?;
        if set.row_count() != 7 || !are_rows(&set, rows) {
            return Ok(place);
        }
    }
    Ok(HAVING.len())
}

#[test]
fn rows_are_found_by_their_texts(rt: HostRuntime) -> Result<(), Fail> {
    assert!(rt; first_other_having(rt.alloc())? == 7);
    Ok(())
}

// Whether of 9000 rows, of which each third has the same text, those of the second are found.
fn are_of_second(alloc: Global) -> Result<bool, Fail> {
    let mut texts = Vec::new(alloc);
    for row in 0..9000 {
        texts.push(["a", "b", "c"][row % 3])?;
    }
    let set = having(alloc, texts, &["b"])?;
    for row in 0..9000 {
        if set.contains(row) != (row % 3 == 1) {
            return Ok(false);
        }
    }
    Ok(true)
}

#[test]
fn many_rows_are_found_by_their_texts(rt: HostRuntime) -> Result<(), Fail> {
    assert!(rt; are_of_second(rt.alloc())?);
    Ok(())
}
