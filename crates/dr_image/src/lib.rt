//! The image of a sealed range of a chunk: what its bytes are, and how bytes are opened as one. A view reads the rows of an
//! image from its bytes, column by column, and takes no memory.
#![tactic(auto)]

mod contents;
mod framing;
mod header;
mod image_error;
mod laws;
mod layout;
mod opening;
mod part;
mod pieces;
mod ranking;
mod reading;
mod segment_view;
mod words;

pub use image_error::ImageError;
pub use laws::{columns_are_of_rows, image_opens, images_differ, opened_is_image};
pub use segment_view::SegmentView;
