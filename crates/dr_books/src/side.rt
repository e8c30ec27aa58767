/// What is of the first of two books, or of the second.
#[derive(Drop)]
pub enum Side<A, B> {
    First(A),
    Second(B),
}
