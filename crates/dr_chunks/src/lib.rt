//! What a timeline keeps: the accepted events in shared blocks, and the chunks with the rows of their sealed and open ranges.
//! Each change of a chunk is all or nothing, and is stated by what a contract sees of the chunk.
#![tactic(auto)]

mod block;
mod chunk;
mod chunks;
mod open_range;
mod sealed_range;
mod sealed_ranges;
mod stream;
mod times;

pub use chunk::Chunk;
pub use chunks::Chunks;
pub use open_range::OpenRange;
pub use sealed_range::SealedRange;
pub use sealed_ranges::SealedRanges;
pub use stream::Stream;
