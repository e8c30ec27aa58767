ghost use Rattle.std.specs.Prelude.{◌≡◌, ◌<◌, ◌==◌, ◌&&◌, ◌∷◌, [], nat_lt, refl};

use crate::books::Books;
use crate::node_ledger::NodeLedger;
use std::alloc::{AllocError, Global};
use std::sync::ledger::{Blank, Book, Ledger, Share};

/// The books of one seat.
#[derive(Drop)]
pub struct OneSeat<M: NodeLedger, F: Ledger> {
    mine: Book<M>,
    floor: Book<F>,
}

/// The share of one seat.
#[derive(Drop)]
pub struct OneShare<M: NodeLedger, F: Ledger> {
    mine: Share<M>,
    floor: Share<F>,
}

impl<M: NodeLedger + Send, F: Ledger + Send> Books for OneSeat<M, F> {
    type Share = OneShare<M, F>;

    type Blanks = (Blank, Blank);

    ghost schema = { M.schema };

    ghost seats = { 1 };

    ghost mine = { λ books. books.mine.total ∷ [] };

    ghost floor = { λ books. books.floor.total ∷ [] };

    ghost place = { λ _. 0 };

    ghost own_mine = { λ share. share.mine.amount };

    ghost own_floor = { λ share. share.floor.amount };

    ghost is_whole = { λ share. nat_lt 0 share.mine.parts && nat_lt 0 share.floor.parts && share.mine.parts == M.parts && share.floor.parts == F.parts };

    ghost are_blank = { λ blanks. (blanks.0.name ≡ M.name) × (blanks.0.parts ≡ M.parts) × (0 < M.parts) × (blanks.1.name ≡ F.name) × (blanks.1.parts ≡ F.parts) × (0 < F.parts) };

    fn open(
        alloc: Global,
        blanks: (Blank, Blank),
    ) -> Result<(Self, Vec<OneShare<M, F>>), AllocError> {
        let mut shares = Vec::with_capacity(alloc, 1)?;
        let (mine, floor) = blanks;
        let (mine, own_mine) = mine.open::<M>();
        let (floor, own_floor) = floor.open::<F>();
        shares.push(OneShare {
            mine: own_mine,
            floor: own_floor,
        })?;
        Ok((OneSeat { mine, floor }, shares))
    }

    fn add(&mut self, share: &mut OneShare<M, F>, accepted: u64, seen: u64) {
        self.mine.audit(&mut share.mine);
        self.floor.audit(&mut share.floor);
        self.mine.add(&mut share.mine, accepted);
        self.floor.add(&mut share.floor, seen);
    }

    ghost mine_length = { λ books. refl };

    ghost floor_length = { λ books. refl };
}
