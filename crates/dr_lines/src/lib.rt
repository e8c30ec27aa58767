//! Lines of a stream: a reader and a writer of lines through buffers, over streams whose reads and failed calls are counted.
//! Their memory is taken at the start and never grows; a longer line than it holds is skipped.
#![tactic(auto)]

mod counted;
mod line_error;
mod line_reader;
mod line_writer;
mod next_line;

pub use counted::Counted;
pub use line_error::LineError;
pub use line_reader::{LONGEST_LINE, LineReader};
pub use line_writer::{LineWriter, write_out};
pub use next_line::NextLine;
