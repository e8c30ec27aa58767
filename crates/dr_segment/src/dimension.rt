ghost use Rattle.std.specs.Prelude.{◌<◌, length, All};

/// A dimension of the rows that are to be written: its values, and for each row the number of its value, its place among these from
/// 0. The values ascend by their UTF-8 bytes where the dimension stands for rows.
#[derive(Drop)]
pub struct Dimension<'a> {
    pub dictionary: Vec<&'a str>,
    pub numbers: Vec<u32>,

    // Each number is that of a value.
    pub ghost known: { All (λ n. n < length dictionary.items) numbers.items },
}
