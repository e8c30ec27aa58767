/// What a worker passes before it works on a range. It may hold the worker up; it doesn't change what is answered.
pub trait Gate {
    /// Called by the worker before it works on the range of that number, from 0, in the order of the ranges.
    fn enter(&self, fragment: usize);
}
