ghost use Rattle.std.specs.Prelude.{◌≡◌, IfOk, IfSome};
ghost use Rattle.std.specs.List.Sorted.{IsPermutation};

use dr_base::Text;
use dr_fragment::{Form, LyingRows, SharedFragment};
use dr_rollup::Arrived;
use std::alloc::AllocError;
use std::marker::Model;

/// A segment that a scan reads: its identifier, and the fragment that holds its rows. A contract sees the identifier, and the
/// rows in the order of their keys.
#[derive(Drop)]
pub struct Segment<'a> {
    pub identifier: Text,
    pub fragment: &'a SharedFragment,
}

impl<'a> Model for Segment<'a> {
    ghost use Rattle.dr_scan.specs.Identified.{Identified};

    ghost Value = { Identified };

    ghost view = { λ s. record { identifier = s.identifier; rows = s.fragment.now.rows } };
}

impl<'a> Segment<'a> {
    /// The identifier.
    pub(crate) fn identifier(&self) -> &Text
        ensures { result.now ≡ self.now.identifier }
    {
        &self.identifier
    }

    /// The rows, ready to be read. The only error is that memory ran out.
    pub(crate) fn rows(&self) -> Result<LyingRows<'_>, AllocError>
        ensures { IfOk result (λ rows. rows ≡ self.now.rows) }
    {
        self.fragment.ordered()
    }

    /// The rows in the order in which their keys came, where they stand in an index, of which none is sorted. It takes constant
    /// time and no memory.
    pub(crate) fn arrived(&self) -> Option<Arrived<'_>>
        ensures { IfSome result (λ rows. IsPermutation rows self.now.rows) }
    {
        match self.fragment.form() {
            Form::Index(index) => Some(index.arrived()),
            Form::Rows(_) => None,
            Form::Image(_) => None,
        }
    }
}
