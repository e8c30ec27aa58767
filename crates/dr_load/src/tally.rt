/// How many lines of a file became no event of the node. A count stays at 2^64 - 1 once it is there.
#[derive(Debug, Drop)]
pub(crate) struct Tally {
    /// Lines that were no events.
    pub(crate) unparseable: u64,
    /// Events that the node doesn't keep.
    pub(crate) thrown_away: u64,
}
