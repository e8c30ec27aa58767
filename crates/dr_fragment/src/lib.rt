//! Rolled-up ranges of a chunk's list of events, whatever holds their rows: a list of rows, the bytes of an image, or, of an
//! open range as it was pinned and of one that was sealed and not merged yet, a share of its index. A range never changes, and
//! is shared by the timeline, its snapshots and its jobs; events are shared the same way.
#![tactic(auto)]

mod alike;
mod form;
mod fragment;
mod fragments;
mod indexed_range;
mod lying_rows;
mod row_ref;
mod rows;
mod shared_event;
mod shared_fragment;
mod shared_index;
mod sorting;

pub use form::Form;
pub use fragment::Fragment;
pub use fragments::Fragments;
pub use lying_rows::LyingRows;
pub use row_ref::RowRef;
pub use rows::Rows;
pub use shared_event::SharedEvent;
pub use shared_fragment::SharedFragment;
pub use shared_index::SharedIndex;
pub use sorting::sort;
