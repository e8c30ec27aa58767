//! Scans: the text of the rows that a query selects, segment by segment or by their times, and the identifiers of segments.
//! Rows are read where they lie, and nothing is kept but the text, where the rows of an index lie or which rows of an image are
//! selected while these are read, copies of rows of small segments while a filter of many tests is asked of them together, and where
//! rows are ordered their places.
#![tactic(auto)]

mod at_once;
mod choosing;
mod columns_written;
mod counting;
mod entries_writing;
mod entry_writing;
mod holding;
mod identifying;
mod lot_placing;
mod lot_writing;
mod lots;
mod ordered_writing;
mod placing;
mod row_count;
mod row_place;
mod row_reading;
mod row_writing;
mod scan_entry;
mod scanning;
mod segment;
mod segment_writing;
mod selecting;
mod together;
mod window;

pub use entries_writing::scan_text;
pub use identifying::identifier;
pub use scan_entry::ScanEntry;
pub use scanning::scan;
pub use segment::Segment;
