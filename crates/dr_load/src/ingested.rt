use crate::failure::Failure;
use crate::tally::Tally;

/// What became of the lines of one file.
#[derive(Debug, Drop)]
pub(crate) struct Ingested {
    pub(crate) tally: Tally,
    /// Why not all lines were read.
    pub(crate) refusal: Option<Failure>,
}
