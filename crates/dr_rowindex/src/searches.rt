// How many values are looked up one by one, by hashing or by a search, in the time of a search among the rows.
const VALUES_A_SEARCH: usize = 16;

/// Whether so many texts, ranges or intervals are asked for that the values of so many rows are looked up among them sooner than each of
/// them among the rows. It takes constant time.
pub fn asks_for_many(asked: usize, rows: usize) -> bool {
    asked > rows / VALUES_A_SEARCH
}
