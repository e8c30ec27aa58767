/// What columns tell of the value of a member: null, a truth value, a whole number or a text. Of a number with a fraction or
/// an exponent, of a list and of an object they tell only that it is none of these.
#[derive(Clone, Copy, Debug, Drop)]
pub enum Scalar<'a> {
    Null,
    Bool(bool),
    /// A whole number without a minus, up to 2^64 - 1.
    Whole(u64),
    /// A whole number below 0, down to -2^63.
    Negative(i64),
    Text(&'a str),
    Other,
}
