ghost use Rattle.std.specs.Prelude.{◌≡◌, ◌+◌, ℕ, List, Bool, true, Some, IfOk, length, slice_get, slice_set, replicate};
ghost use Rattle.dr_books.specs.Opened.{AreOpened};
ghost use Rattle.dr_schema.specs.declared.schema_fields.SchemaFields.{SchemaFields};

use std::alloc::{AllocError, Global};

/// The books of some seats. A contract sees two lists of numbers, with an entry for each seat.
pub trait Books: Drop + Send {
    /// What a seat holds of the books: its share of each of its two ledgers.
    type Share: Drop + Send;
    /// Two ledgers for each seat that no type stands for yet.
    type Blanks: Drop + Send;

    /// The schema of the node that the seats are of.
    ghost schema: { SchemaFields };

    /// How many seats there are.
    ghost seats: { ℕ };

    /// How many events each seat accepted.
    ghost mine: { Self → List ℕ };

    /// How many events of the stream each seat has seen.
    ghost floor: { Self → List ℕ };

    /// The place of a share's seat among the seats, from 0.
    ghost place: { Self.Share → ℕ };

    /// How many events the seat of a share accepted, and how many of the stream it has seen, as the share says.
    ghost own_mine: { Self.Share → ℕ };

    ghost own_floor: { Self.Share → ℕ };

    /// Whether a share is the whole of both ledgers of its seat.
    ghost is_whole: { Self.Share → Bool };

    /// Each blank is of the ledger that it is opened as.
    ghost are_blank: { Self.Blanks → Type 0 };

    /// Opens the books, and gives the share of each seat, in order. The only error is that memory ran out. It takes time and
    /// memory by the seats.
    fn open(alloc: Global, blanks: Self::Blanks) -> Result<(Self, Vec<Self::Share>), AllocError>
        requires { are_blank blanks }
        ensures mine { IfOk result (λ r. mine r.0 ≡ replicate seats 0) }
        ensures floor { IfOk result (λ r. floor r.0 ≡ replicate seats 0) }
        ensures shares { IfOk result (λ r. AreOpened place own_mine own_floor is_whole seats r.1.items) };

    /// Adds to how many events a seat accepted, and to how many it has seen. It takes no memory.
    fn add(&mut self, share: &mut Self::Share, accepted: u64, seen: u64)
        requires { is_whole share.old ≡ true }
        ensures mine_was { slice_get (mine self.old) (place share.old) ≡ Some (own_mine share.old) }
        ensures floor_was { slice_get (floor self.old) (place share.old) ≡ Some (own_floor share.old) }
        ensures mine { mine self.new ≡ slice_set (mine self.old) (place share.old) (own_mine share.old + accepted) }
        ensures floor { floor self.new ≡ slice_set (floor self.old) (place share.old) (own_floor share.old + seen) }
        ensures own_mine { own_mine share.new ≡ own_mine share.old + accepted }
        ensures own_floor { own_floor share.new ≡ own_floor share.old + seen }
        ensures place { place share.new ≡ place share.old }
        ensures whole { is_whole share.new ≡ true };

    ghost mine_length: { (books : Self) → length (mine books) ≡ seats };

    ghost floor_length: { (books : Self) → length (floor books) ≡ seats };
}
