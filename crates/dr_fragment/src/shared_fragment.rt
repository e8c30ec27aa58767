ghost use Rattle.std.specs.Prelude.{◌≡◌, ◌↔◌, length, IfOk, IfErr, IfSome, IsTrue};
ghost use Rattle.dr_agg.specs.Rollup.{IsInOrder};
ghost use Rattle.dr_fragment.specs.Alike.{AreAlike};
ghost use Rattle.dr_fragment.specs.Held.{StandsFor};
ghost use Rattle.dr_fragment.specs.Ranged.{range_in};

use crate::alike::are_alike;
use crate::form::Form;
use crate::fragment::Fragment;
use crate::indexed_range::IndexedRange;
use crate::lying_rows::{LyingRows, are_equal};
use crate::shared_index::SharedIndex;
use dr_image::SegmentView;
use std::alloc::{AllocError, AllocFailed, Global};
use std::marker::Model;
use std::sync::Arc;

// As many rows of an index take less memory as a list.
const FEW_ROWS: usize = 64;

/// A range of a chunk that a timeline, its snapshots and its jobs share: a fragment, or a share of an index whose rows stand as
/// their keys came, as an open range has it and one that was sealed and not merged yet. A contract sees what it sees of a
/// fragment.
#[derive(Drop)]
pub struct SharedFragment(Shared);

// What is shared.
#[derive(Drop)]
pub(crate) enum Shared {
    Made(Arc<Fragment>),
    Indexed(IndexedRange),
}

impl Model for SharedFragment {
    ghost use Rattle.dr_fragment.specs.Ranged.{Ranged};
    ghost use Rattle.dr_fragment.specs.Shared.{range_shared};

    ghost Value = { Ranged };

    ghost view = { λ s. range_shared s.0 };
}

impl SharedFragment {
    /// A fragment to share. The only error is that memory ran out, and gives it back.
    pub fn new(alloc: Global, fragment: Fragment) -> Result<SharedFragment, AllocFailed<Fragment>>
        ensures ok { IfOk result (λ shared. shared ≡ fragment) }
        ensures err { IfErr result (λ failed. failed.value ≡ fragment) }
    {
        Ok(SharedFragment(Shared::Made(Arc::new(alloc, fragment)?)))
    }

    /// The range `[from, to)` of the chunk that starts at that time, with its index, of which no row is read. It takes no memory.
    pub fn of_index(chunk: i64, from: usize, to: usize, index: SharedIndex) -> SharedFragment
        ensures { result ≡ record { chunk = chunk; from = from; to = to; rows = index.rows } }
    {
        SharedFragment(Shared::Indexed(IndexedRange {
            chunk,
            from,
            to,
            index,
        }))
    }

    /// Another share of the same range, which copies no row. The only error is that there are 2^63 shares.
    pub fn share(&self) -> Result<SharedFragment, AllocError>
        ensures { IfOk result (λ shared. shared ≡ self.now) }
    {
        match &self.0 {
            Shared::Made(made) => Ok(SharedFragment(Shared::Made(Arc::try_clone(made)?))),
            Shared::Indexed(indexed) => Ok(SharedFragment(Shared::Indexed(indexed.share()?))),
        }
    }

    /// The same range, for one whose rows no event will change any more: where it is an index of at most 64 rows, they are put into
    /// a list, which takes a part of its memory. Where there is no memory for the list, it stays as it is. It takes constant time
    /// but for the bytes of these rows.
    pub fn compact(self, alloc: Global) -> SharedFragment
        ensures { result ≡ self }
    {
        if self.len() > FEW_ROWS {
            return self;
        }
        match self.listed(alloc) {
            Ok(listed) => listed,
            Err(_) => self,
        }
    }

    // The same range, with the rows of an index in a list. The only error is that memory ran out.
    fn listed(&self, alloc: Global) -> Result<SharedFragment, AllocError>
        ensures { IfOk result (λ listed. listed ≡ self.now) }
    {
        match &self.0 {
            Shared::Made(_) => self.share(),
            Shared::Indexed(indexed) => {
                let (from, to) = indexed.range();
                let rows = indexed.index().rows()?;
                let fragment = Fragment::of_rows(indexed.chunk(), from, to, rows);
                Ok(SharedFragment::new(alloc, fragment)?)
            }
        }
    }

    /// The start of the chunk, in milliseconds since the epoch.
    pub fn chunk(&self) -> i64
        ensures { result ≡ self.now.chunk }
    {
        match &self.0 {
            Shared::Made(made) => made.chunk(),
            Shared::Indexed(indexed) => indexed.chunk(),
        }
    }

    /// The range of the chunk's list of events: the number of the first one, and the number behind the last one.
    pub fn range(&self) -> (usize, usize)
        ensures from { result.0 ≡ self.now.from }
        ensures to { result.1 ≡ self.now.to }
    {
        match &self.0 {
            Shared::Made(made) => made.range(),
            Shared::Indexed(indexed) => indexed.range(),
        }
    }

    /// How many rows there are. It takes constant time.
    pub fn len(&self) -> usize
        ensures { result ≡ length self.now.rows }
    {
        match &self.0 {
            Shared::Made(made) => made.len(),
            Shared::Indexed(indexed) => indexed.len(),
        }
    }

    /// What holds the rows. It takes constant time and no memory.
    pub fn form(&self) -> Form<'_>
        ensures { StandsFor result self.now }
    {
        match &self.0 {
            Shared::Made(made) => made.form(),
            Shared::Indexed(indexed) => Form::Index(indexed.index()),
        }
    }

    /// The columns of the image; none where the rows don't stand in one. It takes constant time and no memory.
    pub fn view(&self) -> Option<SegmentView<'_>>
        ensures { IfSome result (λ view. range_in view ≡ self.now) }
    {
        match &self.0 {
            Shared::Made(made) => made.view(),
            Shared::Indexed(_) => None,
        }
    }

    /// The rows in the order of their keys, ready to be read where they lie: those of a fragment are lent, and of those of an index
    /// a list of where each lies is sorted. No row is copied. The only error is that memory ran out. Of a fragment it takes constant
    /// time and no memory, of an index n log n in its rows and memory for the list.
    pub fn ordered(&self) -> Result<LyingRows<'_>, AllocError>
        ensures { IfOk result (λ rows. rows ≡ self.now.rows) }
    {
        match &self.0 {
            Shared::Made(made) => Ok(made.ordered()),
            Shared::Indexed(indexed) => Ok(LyingRows::sorted(indexed.sorted_rows()?)),
        }
    }

    /// Whether the other one has the same chunk, range and rows, whatever holds them. Rows are compared up to the first that
    /// differs, and only where chunk, range and number of rows are the same; two images by their bytes, and the rows of two indexes
    /// as they came, which tells of two shares of one that they are the same. Only where these came in another order, or an
    /// index is compared with a fragment, is a list of where each row lies sorted; and where there is no memory for that list,
    /// the rows of each key are looked for, which takes the product of the numbers of rows.
    pub fn equals(&self, other: &SharedFragment) -> bool
        ensures { IsTrue result ↔ (self.now ≡ other.now) }
    {
        if let (Shared::Made(made), Shared::Made(others)) = (&self.0, &other.0) {
            return made.equals(others);
        }
        self.has_range_of(other) && self.has_rows_of(other)
    }

    // Whether chunk and range are the same, and as many rows there.
    fn has_range_of(&self, other: &SharedFragment) -> bool
        ensures same { IsTrue result → (self.now.chunk ≡ other.now.chunk) × (self.now.from ≡ other.now.from) × (self.now.to ≡ other.now.to) }
        ensures other { self.now ≡ other.now → IsTrue result }
    {
        self.chunk() == other.chunk() && self.range() == other.range() && self.len() == other.len()
    }

    // Whether the rows are the same.
    fn has_rows_of(&self, other: &SharedFragment) -> bool
        ensures { IsTrue result ↔ (self.now.rows ≡ other.now.rows) }
    {
        let rows = self.lying();
        let others = other.lying();
        if are_equal(&rows, &others) {
            return true;
        }
        match (self.ordered(), other.ordered()) {
            (Ok(rows), Ok(others)) => are_equal(&rows, &others),
            _ => are_alike(&rows, &others),
        }
    }

    // The rows as they lie, in which each key has the same rows as in their order.
    fn lying(&self) -> LyingRows<'_>
        ensures alike { AreAlike result self.now.rows }
        ensures ordered { IsInOrder self.now.rows }
    {
        match &self.0 {
            Shared::Made(made) => made.ordered(),
            Shared::Indexed(indexed) => LyingRows::arrived(indexed.arrived()),
        }
    }
}
